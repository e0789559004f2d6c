// The first definition of small texts and the whole grammar.
ghost use Rattle.std.specs.Prelude.{ℕ, List, Ok};
ghost use Rattle.py_syntax.specs.declared.Module.{Module};
ghost use Rattle.py_front.specs.Answers.{IsFront};
ghost use Rattle.small_text.specs.SmallText.{Spells};

/// A text that is small by its lines spells the same module by its tokens and their tree.
pub fn a_small_text_spells_the_same_module()
    ensures { (text : List ℕ) (m : Module) → Spells text m → IsFront text (Ok m) }
{}
