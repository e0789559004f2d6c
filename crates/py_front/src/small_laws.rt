// What a module is that a text spells.
ghost use Rattle.std.specs.Prelude.{ℕ, List, Ok};
ghost use Rattle.py_syntax.specs.declared.Module.{Module};
ghost use Rattle.py_syntax.specs.SmallForms.{IsSmallModule};
ghost use Rattle.small_module.specs.SmallBody as bounds;
ghost use Rattle.small_module.specs.Spelled.{IsMainAlone};
ghost use Rattle.py_front.specs.Answers.{IsFront};

use small_module::a_built_module_is_small;

/// A module that a text spells is `main` alone, whose statements are small ones: each local is read
/// behind its first assignment, and its numbers and statements are few enough.
pub fn a_spelled_module_is_small()
    ensures forms { (text : List ℕ) (m : Module) → IsFront text (Ok m) → IsSmallModule m }
    ensures numbers { (text : List ℕ) (m : Module) →
        IsFront text (Ok m) → bounds.IsSmallModule m }
    ensures is_main { (text : List ℕ) (m : Module) → IsFront text (Ok m) → IsMainAlone m }
{
    a_built_module_is_small();
}
