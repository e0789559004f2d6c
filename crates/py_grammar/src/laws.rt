// Laws of the grammar.
ghost use Rattle.std.specs.Prelude.{◌≡◌, List, [], ◌∷◌, ◌++◌};
ghost use Rattle.py_base.specs.declared.Place.{Place};
ghost use Rattle.py_tokens.specs.declared.Token.{Token};
ghost use Rattle.py_tokens.specs.declared.TokenForm.TheVariants.{End};
ghost use Rattle.raw_syntax.specs.declared.Raw.{Raw};
ghost use Rattle.py_grammar.specs.Spelling.{Spells, BeginsModule, IsFirstBad};
ghost use Rattle.py_grammar.specs.Symbols.{vmodule};
ghost use Rattle.py_grammar.specs.Machine.{bad, short, done, run_module};

/// A list of tokens spells at most one tree.
pub fn one_tree()
    ensures { (ts : List Token) (a b : Raw) → Spells ts a → Spells ts b → a ≡ b }
{}

/// The machine reads exactly what is spelled, and is refused at the first token that goes on with no
/// module. A parser that does what the machine does is a parser of the grammar. A list that ends with
/// the end of a text is never too short.
pub fn the_machine_reads_the_grammar()
    ensures complete { (tree : Raw) (ts : List Token) → Spells ts tree → run_module ts ≡ done (vmodule tree ∷ []) }
    ensures sound { (ts : List Token) (tree : Raw) → run_module ts ≡ done (vmodule tree ∷ []) → Spells ts tree }
    ensures refused { (ts : List Token) (p : Place) → run_module ts ≡ bad p → IsFirstBad ts p }
    ensures unfinished { (ts : List Token) → run_module ts ≡ short → BeginsModule ts }
    ensures ended { (ts : List Token) (k : Token) → k.form ≡ End → run_module (ts ++ k ∷ []) ≡ short → ⊥ }
{}
