// A law of texts and their tokens.
ghost use Rattle.std.specs.Prelude.{◌⊎◌, ℕ, List};
ghost use Rattle.py_tokens.specs.declared.Token.{Token};
ghost use Rattle.py_tokens.specs.declared.LexFault.{LexFault};
ghost use Rattle.py_tokens.specs.TextTokens.{Tokens, IsFirstFault};

/// Each text has tokens, or a first fault, whatever memory there is.
pub fn each_text_has_tokens_or_a_fault()
    ensures { (bytes : List ℕ) → ((tokens : List Token) × Tokens bytes tokens) ⊎ ((fault : LexFault) × IsFirstFault bytes fault) }
{}
