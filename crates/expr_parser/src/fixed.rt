// Tokens that are wanted as they are, and names.
ghost use Rattle.std.specs.Prelude.{◌≡◌, ◌<◌, IfOk, length, [], ◌∷◌};
ghost use Rattle.py_grammar.specs.Symbols.{fits, fixed, vname, want_name};
ghost use Rattle.expr_parser.specs.Leads.{LeadsFrom};
ghost use Rattle.expr_parser.specs.Passes.{Passes, fixed_of};

use crate::expr::split;
use crate::fault::Refused;
use py_base::{Place, Text};
use py_tokens::{Keyword, Mark, Token, TokenForm};
use std::alloc::Global;

/// A token that is wanted as it is.
#[derive(Clone, Copy, Debug, PartialEq, Eq)]
pub enum Wanted {
    Newline,
    Indent,
    Colon,
    Assign,
    Arrow,
    OpenParen,
    CloseParen,
    CloseBracket,
    Def,
    Import,
}

/// A word and its place.
#[derive(Debug, Drop)]
pub struct Word {
    pub place: Place,
    pub text: Text,
}

fn is_wanted(wanted: Wanted, form: &TokenForm) -> bool
    ensures { result ≡ fits (fixed_of wanted) form.now }
{
    match wanted {
        Wanted::Newline => matches!(form, TokenForm::Newline),
        Wanted::Indent => matches!(form, TokenForm::Indent),
        Wanted::Colon => matches!(form, TokenForm::Mark(Mark::Colon)),
        Wanted::Assign => matches!(form, TokenForm::Mark(Mark::Assign)),
        Wanted::Arrow => matches!(form, TokenForm::Mark(Mark::Arrow)),
        Wanted::OpenParen => matches!(form, TokenForm::Mark(Mark::OpenParen)),
        Wanted::CloseParen => matches!(form, TokenForm::Mark(Mark::CloseParen)),
        Wanted::CloseBracket => matches!(form, TokenForm::Mark(Mark::CloseBracket)),
        Wanted::Def => matches!(form, TokenForm::Key(Keyword::Def)),
        Wanted::Import => matches!(form, TokenForm::Key(Keyword::Import)),
    }
}

/// Past the token that is wanted.
#[tactic(auto, using(crate::proofs::TypeRows::fixed_rows))]
pub fn past(wanted: Wanted, ts: &[Token]) -> Result<&[Token], Refused>
    ensures leads { Passes (fixed (fixed_of wanted) ∷ []) ts.now (λ x. x.now) result }
    ensures shorter { IfOk result (λ x. length x.now < length ts.now) }
{
    let Some((first, rest)) = split(ts) else {
        return Err(Refused::Unfinished);
    };
    if is_wanted(wanted, &first.form) {
        Ok(rest)
    } else {
        Err(Refused::Syntax(first.place))
    }
}

/// A name.
#[tactic(auto, using(crate::proofs::TypeRows::name_rows))]
pub fn name(alloc: Global, ts: &[Token]) -> Result<(Word, &[Token]), Refused>
    ensures leads { LeadsFrom (want_name ∷ []) [] ts.now (λ x. vname x.0.place x.0.text) (λ x. x.1.now) result }
    ensures shorter { IfOk result (λ x. length x.1.now < length ts.now) }
{
    let Some((first, rest)) = split(ts) else {
        return Err(Refused::Unfinished);
    };
    match &first.form {
        TokenForm::Name(name) => Ok((word_at(first.place, name.copy(alloc)?), rest)),
        _ => Err(Refused::Syntax(first.place)),
    }
}

/// A word of this text.
pub fn word_at(place: Place, text: Text) -> Word
    ensures place { result.place ≡ place }
    ensures text { result.text ≡ text }
{
    Word { place, text }
}
