// Statements of one line.
ghost use Rattle.std.specs.Prelude.{◌≡◌, ◌<◌, ◌≤◌, IfOk, length, [], ◌∷◌};
ghost use Rattle.py_grammar.specs.Symbols.{vexpr, vstmt, newline, assign, open_paren, close_paren, fixed, make, want_name, neg, tail_and, tail_or, ty_atom, ty_tail, simple, return_tail, simple_tail};
ghost use Rattle.py_grammar.specs.Makers.{make_value_return, make_raise, make_assert, make_declare, make_assign, make_augment};
ghost use Rattle.expr_parser.specs.Leads.{LeadsFrom};

use crate::front::{Behind, Front, begins_expression, simple_front, what_is_behind};
use crate::make::stmt_node;
use expr_parser::expr::{expression, split};
use expr_parser::fault::Refused;
use expr_parser::fixed::{Wanted, name, past};
use expr_parser::types::ty;
use py_base::Place;
use py_tokens::Token;
use raw_syntax::{Arithmetic, RawExpr, RawStmt, RawStmtForm};
use std::alloc::Global;

// The value of a `return` at this place.
#[tactic(auto, using(crate::proofs::SimpleRows::made_rows))]
fn return_value(alloc: Global, place: Place, ts: &[Token]) -> Result<(RawStmt, &[Token]), Refused>
    ensures leads { LeadsFrom (neg ∷ tail_and ∷ tail_or ∷ make (make_value_return place) ∷ []) [] ts.now (λ x. vstmt x.0) (λ x. x.1.now) result }
    ensures shorter { IfOk result (λ x. length x.1.now < length ts.now) }
{
    let (e, rest) = match expression(alloc, ts) {
        Ok(x) => x,
        Err(f) => return Err(f),
    };
    Ok((stmt_node(place, RawStmtForm::Return(Some(e))), rest))
}

// A `return` at this place, behind the word.
#[tactic(auto, using(crate::proofs::SimpleRows::return_rows))]
fn returned(alloc: Global, place: Place, ts: &[Token]) -> Result<(RawStmt, &[Token]), Refused>
    ensures leads { LeadsFrom (return_tail place ∷ []) [] ts.now (λ x. vstmt x.0) (λ x. x.1.now) result }
    ensures shorter { IfOk result (λ x. length x.1.now ≤ length ts.now) }
{
    let Some((first, _)) = split(ts) else {
        return Err(Refused::Unfinished);
    };
    if begins_expression(&first.form) {
        return_value(alloc, place, ts)
    } else {
        Ok((stmt_node(place, RawStmtForm::Return(None)), ts))
    }
}

// A `raise` at this place, behind the word.
#[tactic(auto, using(crate::proofs::SimpleRows::made_rows))]
fn raised(alloc: Global, place: Place, ts: &[Token]) -> Result<(RawStmt, &[Token]), Refused>
    ensures leads { LeadsFrom (want_name ∷ fixed open_paren ∷ fixed close_paren ∷ make (make_raise place) ∷ []) [] ts.now (λ x. vstmt x.0) (λ x. x.1.now) result }
    ensures shorter { IfOk result (λ x. length x.1.now < length ts.now) }
{
    let (class, rest) = match name(alloc, ts) {
        Ok(x) => x,
        Err(f) => return Err(f),
    };
    let rest = match past(Wanted::OpenParen, rest) {
        Ok(x) => x,
        Err(f) => return Err(f),
    };
    let rest = match past(Wanted::CloseParen, rest) {
        Ok(x) => x,
        Err(f) => return Err(f),
    };
    Ok((
        stmt_node(place, RawStmtForm::Raise(class.place, class.text)),
        rest,
    ))
}

// An `assert` at this place, behind the word.
#[tactic(auto, using(crate::proofs::SimpleRows::made_rows))]
fn asserted(alloc: Global, place: Place, ts: &[Token]) -> Result<(RawStmt, &[Token]), Refused>
    ensures leads { LeadsFrom (neg ∷ tail_and ∷ tail_or ∷ make (make_assert place) ∷ []) [] ts.now (λ x. vstmt x.0) (λ x. x.1.now) result }
    ensures shorter { IfOk result (λ x. length x.1.now < length ts.now) }
{
    let (e, rest) = match expression(alloc, ts) {
        Ok(x) => x,
        Err(f) => return Err(f),
    };
    Ok((stmt_node(place, RawStmtForm::Assert(e)), rest))
}

// The type of a target and its value, behind the colon.
#[tactic(auto, using(crate::proofs::SimpleRows::made_rows))]
fn declared(
    alloc: Global,
    place: Place,
    target: RawExpr,
    ts: &[Token],
) -> Result<(RawStmt, &[Token]), Refused>
    ensures leads { LeadsFrom (ty_atom ∷ ty_tail ∷ fixed assign ∷ neg ∷ tail_and ∷ tail_or ∷ make (make_declare place) ∷ []) (vexpr target ∷ []) ts.now (λ x. vstmt x.0) (λ x. x.1.now) result }
    ensures shorter { IfOk result (λ x. length x.1.now < length ts.now) }
{
    let (t, rest) = match ty(alloc, ts) {
        Ok(x) => x,
        Err(f) => {
            drop(target);
            return Err(f);
        }
    };
    let rest = match past(Wanted::Assign, rest) {
        Ok(x) => x,
        Err(f) => {
            drop(target);
            drop(t);
            return Err(f);
        }
    };
    let (e, rest) = match expression(alloc, rest) {
        Ok(x) => x,
        Err(f) => {
            drop(target);
            drop(t);
            return Err(f);
        }
    };
    Ok((stmt_node(place, RawStmtForm::Declare(target, t, e)), rest))
}

// The value that a target gets, behind the mark.
#[tactic(auto, using(crate::proofs::SimpleRows::made_rows))]
fn assigned(
    alloc: Global,
    place: Place,
    target: RawExpr,
    ts: &[Token],
) -> Result<(RawStmt, &[Token]), Refused>
    ensures leads { LeadsFrom (neg ∷ tail_and ∷ tail_or ∷ make (make_assign place) ∷ []) (vexpr target ∷ []) ts.now (λ x. vstmt x.0) (λ x. x.1.now) result }
    ensures shorter { IfOk result (λ x. length x.1.now < length ts.now) }
{
    let (e, rest) = match expression(alloc, ts) {
        Ok(x) => x,
        Err(f) => return Err(f),
    };
    Ok((stmt_node(place, RawStmtForm::Assign(target, e)), rest))
}

// The operand of an augmented assignment, behind its mark, whose place is the second one.
#[tactic(auto, using(crate::proofs::SimpleRows::made_rows))]
fn augmented(
    alloc: Global,
    place: Place,
    target: RawExpr,
    at: Place,
    sign: Arithmetic,
    ts: &[Token],
) -> Result<(RawStmt, &[Token]), Refused>
    ensures leads { LeadsFrom (neg ∷ tail_and ∷ tail_or ∷ make (make_augment place at sign) ∷ []) (vexpr target ∷ []) ts.now (λ x. vstmt x.0) (λ x. x.1.now) result }
    ensures shorter { IfOk result (λ x. length x.1.now < length ts.now) }
{
    let (e, rest) = match expression(alloc, ts) {
        Ok(x) => x,
        Err(f) => return Err(f),
    };
    Ok((
        stmt_node(place, RawStmtForm::Augment(target, at, sign, e)),
        rest,
    ))
}

// A statement that begins with this expression at this place, behind the expression.
#[tactic(auto, using(crate::proofs::SimpleRows::tail_rows))]
fn gone_on(
    alloc: Global,
    place: Place,
    e: RawExpr,
    ts: &[Token],
) -> Result<(RawStmt, &[Token]), Refused>
    ensures leads { LeadsFrom (simple_tail place ∷ []) (vexpr e ∷ []) ts.now (λ x. vstmt x.0) (λ x. x.1.now) result }
    ensures shorter { IfOk result (λ x. length x.1.now ≤ length ts.now) }
{
    let Some((first, after)) = split(ts) else {
        return Err(Refused::Unfinished);
    };
    match what_is_behind(first) {
        Behind::Colon => declared(alloc, place, e, after),
        Behind::Assign => assigned(alloc, place, e, after),
        Behind::Augment(sign) => augmented(alloc, place, e, first.place, sign, after),
        Behind::Nothing => Ok((stmt_node(place, RawStmtForm::Eval(e)), ts)),
    }
}

// A statement at this place that begins with an expression.
fn plain(alloc: Global, place: Place, ts: &[Token]) -> Result<(RawStmt, &[Token]), Refused>
    ensures leads { LeadsFrom (neg ∷ tail_and ∷ tail_or ∷ simple_tail place ∷ []) [] ts.now (λ x. vstmt x.0) (λ x. x.1.now) result }
    ensures shorter { IfOk result (λ x. length x.1.now < length ts.now) }
{
    let (e, rest) = match expression(alloc, ts) {
        Ok(x) => x,
        Err(f) => return Err(f),
    };
    gone_on(alloc, place, e, rest)
}

/// A statement of one line, without its end.
#[tactic(auto, using(crate::proofs::SimpleRows::simple_rows))]
pub fn simple(alloc: Global, ts: &[Token]) -> Result<(RawStmt, &[Token]), Refused>
    ensures leads { LeadsFrom (simple ∷ []) [] ts.now (λ x. vstmt x.0) (λ x. x.1.now) result }
    ensures shorter { IfOk result (λ x. length x.1.now < length ts.now) }
{
    let Some((first, after)) = split(ts) else {
        return Err(Refused::Unfinished);
    };
    match simple_front(first) {
        Front::Pass => Ok((stmt_node(first.place, RawStmtForm::Pass), after)),
        Front::Break => Ok((stmt_node(first.place, RawStmtForm::Break), after)),
        Front::Continue => Ok((stmt_node(first.place, RawStmtForm::Continue), after)),
        Front::Return => returned(alloc, first.place, after),
        Front::Raise => raised(alloc, first.place, after),
        Front::Assert => asserted(alloc, first.place, after),
        Front::Other => plain(alloc, first.place, ts),
    }
}

// The end of the line behind its statement.
fn line_end(s: RawStmt, ts: &[Token]) -> Result<(RawStmt, &[Token]), Refused>
    ensures leads { LeadsFrom (fixed newline ∷ []) (vstmt s ∷ []) ts.now (λ x. vstmt x.0) (λ x. x.1.now) result }
    ensures shorter { IfOk result (λ x. length x.1.now < length ts.now) }
{
    match past(Wanted::Newline, ts) {
        Ok(rest) => Ok((s, rest)),
        Err(f) => {
            drop(s);
            Err(f)
        }
    }
}

/// A statement of one line and its end.
pub fn line(alloc: Global, ts: &[Token]) -> Result<(RawStmt, &[Token]), Refused>
    ensures leads { LeadsFrom (simple ∷ fixed newline ∷ []) [] ts.now (λ x. vstmt x.0) (λ x. x.1.now) result }
    ensures shorter { IfOk result (λ x. length x.1.now < length ts.now) }
{
    let (s, rest) = match simple(alloc, ts) {
        Ok(x) => x,
        Err(f) => return Err(f),
    };
    line_end(s, rest)
}
