// What a module is that a tree of small forms spells.
ghost use Rattle.std.specs.Prelude.{◌≡◌, Ok};
ghost use Rattle.raw_syntax.specs.declared.Raw.{Raw};
ghost use Rattle.py_syntax.specs.declared.Module.{Module};
ghost use Rattle.py_syntax.specs.SmallForms.{IsSmallModule};
ghost use Rattle.small_module.specs.SmallBody as bounds;
ghost use Rattle.small_module.specs.Spelled.{IsMainAlone};
ghost use Rattle.small_module.specs.SmallModule.{module_of};

/// A module that a tree spells is `main` alone, whose statements are small ones: each local is read
/// behind its first assignment, and its numbers and statements are few enough.
pub fn a_built_module_is_small()
    ensures forms { (tree : Raw) (m : Module) → module_of tree ≡ Ok m → IsSmallModule m }
    ensures numbers { (tree : Raw) (m : Module) →
        module_of tree ≡ Ok m → bounds.IsSmallModule m }
    ensures is_main { (tree : Raw) (m : Module) → module_of tree ≡ Ok m → IsMainAlone m }
{}
