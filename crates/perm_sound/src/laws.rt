// What the local rules say of runs.
ghost use Rattle.std.specs.Prelude.{ℕ, List};
ghost use Rattle.py_syntax.specs.declared.Module.{Module};
ghost use Rattle.py_syntax.specs.SmallForms.{IsSmallModule};
ghost use Rattle.py_syntax.specs.SmallLocal.{HasNoLocalFault};
ghost use Rattle.machine_model.specs.Safe.{Safe};

/// A small module whose `main` has no local fault in any unit is safe, whatever list of threads gets
/// the steps of its run.
pub fn no_local_fault_is_safe()
    ensures { (m : Module) → IsSmallModule m → HasNoLocalFault m → (list : List ℕ) → Safe m list }
{}
