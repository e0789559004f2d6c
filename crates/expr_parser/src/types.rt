// Types.
ghost use Rattle.std.specs.Prelude.{◌≡◌, ◌<◌, ◌≤◌, IfOk, MatchResult, Some, None, length, [], ◌∷◌, codes};
ghost use Rattle.py_grammar.specs.Symbols.{vname, vty, ty_atom, ty_tail};
ghost use Rattle.py_grammar.specs.StmtGrammar.{type_of};
ghost use Rattle.expr_parser.specs.Leads.{LeadsFrom};

use crate::expr::split;
use crate::fault::Refused;
use crate::fixed::{Wanted, Word, past, word_at};
use py_base::Text;
use py_tokens::{Keyword, Mark, Token, TokenForm};
use raw_syntax::RawTy;
use std::alloc::Global;

fn none_text(alloc: Global) -> Result<Text, Refused>
    ensures { MatchResult result (λ t. t ≡ codes "None") (λ f. f ≡ Refused.OutOfMemory) }
{
    Ok(Text::of(vec![in alloc; b'N', b'o', b'n', b'e']?))
}

/// A name, a name in quotes, or `None`.
#[tactic(auto, using(crate::proofs::TypeRows::atom_rows))]
pub fn ty_atom(alloc: Global, ts: &[Token]) -> Result<(Word, &[Token]), Refused>
    ensures leads { LeadsFrom (ty_atom ∷ []) [] ts.now (λ x. vname x.0.place x.0.text) (λ x. x.1.now) result }
    ensures shorter { IfOk result (λ x. length x.1.now < length ts.now) }
{
    let Some((first, rest)) = split(ts) else {
        return Err(Refused::Unfinished);
    };
    match &first.form {
        TokenForm::Name(name) => Ok((word_at(first.place, name.copy(alloc)?), rest)),
        TokenForm::Str(name) => Ok((word_at(first.place, name.copy(alloc)?), rest)),
        TokenForm::Key(Keyword::None) => Ok((word_at(first.place, none_text(alloc)?), rest)),
        _ => Err(Refused::Syntax(first.place)),
    }
}

/// A type of this name alone.
pub fn head_alone(head: Word) -> RawTy
    ensures { result ≡ type_of head.place head.text None }
{
    RawTy {
        place: head.place,
        head: head.text,
        inner: None,
    }
}

/// A type of this name with another in brackets.
pub fn head_with(head: Word, inner: Word) -> RawTy
    ensures { result ≡ type_of head.place head.text (Some inner.text) }
{
    RawTy {
        place: head.place,
        head: head.text,
        inner: Some(inner.text),
    }
}

/// A type.
#[tactic(auto, using(crate::proofs::TypeRows::type_rows))]
pub fn ty(alloc: Global, ts: &[Token]) -> Result<(RawTy, &[Token]), Refused>
    ensures leads { LeadsFrom (ty_atom ∷ ty_tail ∷ []) [] ts.now (λ x. vty x.0) (λ x. x.1.now) result }
    ensures shorter { IfOk result (λ x. length x.1.now < length ts.now) }
{
    let (head, rest) = match ty_atom(alloc, ts) {
        Ok(x) => x,
        Err(f) => return Err(f),
    };
    let Some((first, after)) = split(rest) else {
        return Err(Refused::Unfinished);
    };
    let TokenForm::Mark(Mark::OpenBracket) = &first.form else {
        return Ok((head_alone(head), rest));
    };
    let (inner, rest) = match ty_atom(alloc, after) {
        Ok(x) => x,
        Err(f) => return Err(f),
    };
    let rest = match past(Wanted::CloseBracket, rest) {
        Ok(x) => x,
        Err(f) => return Err(f),
    };
    Ok((head_with(head, inner), rest))
}
