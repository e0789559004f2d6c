// Which modules the steps go on with.
ghost use Rattle.py_syntax.specs.declared.Module.{Module};
ghost use Rattle.machine_model.specs.Steps.{first_state};
ghost use Rattle.machine_step.specs.Built.{IsBuilt};
ghost use Rattle.machine_step.specs.SmallForms.{HasSmallForms};

/// A run of a module whose `main` has small forms alone starts in a state whose steps are built.
pub fn small_modules_are_built()
    ensures { (m : Module) → HasSmallForms m → IsBuilt m (first_state m) }
{}
