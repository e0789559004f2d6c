// What leaves nothing in the tree: docstrings and imports.
ghost use Rattle.std.specs.Prelude.{◌≡◌, ◌<◌, ◌≤◌, IfOk, length, [], ◌∷◌};
ghost use Rattle.py_grammar.specs.Symbols.{newline, word_import, fixed, doc, any_name, dots, commas, imported, imports};
ghost use Rattle.expr_parser.specs.Passes.{Passes};

use expr_parser::expr::split;
use expr_parser::fault::Refused;
use expr_parser::fixed::{Wanted, past};
use py_tokens::{Keyword, Mark, Token, TokenForm};

/// Past a docstring, if one stands here.
#[tactic(auto, using(crate::proofs::ModuleRows::doc_rows))]
pub fn doc(ts: &[Token]) -> Result<&[Token], Refused>
    ensures leads { Passes (doc ∷ []) ts.now (λ x. x.now) result }
    ensures shorter { IfOk result (λ x. length x.now ≤ length ts.now) }
{
    let Some((first, after)) = split(ts) else {
        return Err(Refused::Unfinished);
    };
    let TokenForm::Str(_) = &first.form else {
        return Ok(ts);
    };
    past(Wanted::Newline, after)
}

#[tactic(auto, using(crate::proofs::ModuleRows::any_name_rows))]
fn any_name(ts: &[Token]) -> Result<&[Token], Refused>
    ensures leads { Passes (any_name ∷ []) ts.now (λ x. x.now) result }
    ensures shorter { IfOk result (λ x. length x.now < length ts.now) }
{
    let Some((first, after)) = split(ts) else {
        return Err(Refused::Unfinished);
    };
    match &first.form {
        TokenForm::Name(_) => Ok(after),
        _ => Err(Refused::Syntax(first.place)),
    }
}

// The names behind dots.
#[tactic(auto, using(crate::proofs::ModuleRows::dot_rows))]
fn dots(ts: &[Token]) -> Result<&[Token], Refused>
    ensures leads { Passes (dots ∷ []) ts.now (λ x. x.now) result }
    ensures shorter { IfOk result (λ x. length x.now ≤ length ts.now) }
{
    let mut rest = ts;
    'dots: while let Some((first, after)) = split(rest) {
        let TokenForm::Mark(Mark::Dot) = &first.form else {
            return Ok(rest);
        };
        rest = match any_name(after) {
            Ok(x) => x,
            Err(f) => return Err(f),
        };
    }
    Err(Refused::Unfinished)
}

// The names behind commas.
#[tactic(auto, using(crate::proofs::ModuleRows::comma_rows))]
fn commas(ts: &[Token]) -> Result<&[Token], Refused>
    ensures leads { Passes (commas ∷ []) ts.now (λ x. x.now) result }
    ensures shorter { IfOk result (λ x. length x.now ≤ length ts.now) }
{
    let mut rest = ts;
    'commas: while let Some((first, after)) = split(rest) {
        let TokenForm::Mark(Mark::Comma) = &first.form else {
            return Ok(rest);
        };
        rest = match any_name(after) {
            Ok(x) => x,
            Err(f) => return Err(f),
        };
    }
    Err(Refused::Unfinished)
}

// What is imported: everything, or some names.
#[tactic(auto, using(crate::proofs::ModuleRows::imported_rows))]
fn imported(ts: &[Token]) -> Result<&[Token], Refused>
    ensures leads { Passes (imported ∷ []) ts.now (λ x. x.now) result }
    ensures shorter { IfOk result (λ x. length x.now < length ts.now) }
{
    let Some((first, after)) = split(ts) else {
        return Err(Refused::Unfinished);
    };
    match &first.form {
        TokenForm::Mark(Mark::Star) => Ok(after),
        TokenForm::Name(_) => commas(after),
        _ => Err(Refused::Syntax(first.place)),
    }
}

// An import, behind the word `from`.
fn import(ts: &[Token]) -> Result<&[Token], Refused>
    ensures leads { Passes (any_name ∷ dots ∷ fixed word_import ∷ imported ∷ fixed newline ∷ []) ts.now (λ x. x.now) result }
    ensures shorter { IfOk result (λ x. length x.now < length ts.now) }
{
    let rest = match any_name(ts) {
        Ok(x) => x,
        Err(f) => return Err(f),
    };
    let rest = match dots(rest) {
        Ok(x) => x,
        Err(f) => return Err(f),
    };
    let rest = match past(Wanted::Import, rest) {
        Ok(x) => x,
        Err(f) => return Err(f),
    };
    let rest = match imported(rest) {
        Ok(x) => x,
        Err(f) => return Err(f),
    };
    past(Wanted::Newline, rest)
}

/// Past the imports.
#[tactic(auto, using(crate::proofs::ModuleRows::import_rows))]
pub fn imports(ts: &[Token]) -> Result<&[Token], Refused>
    ensures leads { Passes (imports ∷ []) ts.now (λ x. x.now) result }
    ensures shorter { IfOk result (λ x. length x.now ≤ length ts.now) }
{
    let mut rest = ts;
    'imports: while let Some((first, after)) = split(rest) {
        let TokenForm::Key(Keyword::From) = &first.form else {
            return Ok(rest);
        };
        rest = match import(after) {
            Ok(x) => x,
            Err(f) => return Err(f),
        };
    }
    Err(Refused::Unfinished)
}
