// Functions: parameters, decorators and what stands behind the word `def`.
ghost use Rattle.std.specs.Prelude.{◌≡◌, ◌<◌, ◌≤◌, IfOk, length, [], ◌∷◌};
ghost use Rattle.py_grammar.specs.Symbols.{vname, vty, vparams, vmarks, vfunc, newline, colon, arrow, word_def, fixed, make, want_name, ty_atom, ty_tail, block, params, param_tail};
ghost use Rattle.py_grammar.specs.Makers.{make_mark, make_func};
ghost use Rattle.py_grammar.specs.Moves.{func_with, decorator_with};
ghost use Rattle.expr_parser.specs.Leads.{LeadsFrom, LeadsTo};

use crate::block::block;
use crate::front::{ParamsFront, params_front};
use crate::make::{Head, func_node, head_of, push_mark, push_param};
use expr_parser::expr::split;
use expr_parser::fault::Refused;
use expr_parser::fixed::{Wanted, Word, name, past};
use expr_parser::start::{Follow, what_follows};
use expr_parser::types::ty;
use py_base::Text;
use py_tokens::{Mark, Token, TokenForm};
use raw_syntax::{RawFunc, RawParam, RawTy};
use sqlite_items::Items;
use std::alloc::Global;

// A parameter, behind its name.
#[tactic(auto, using(crate::proofs::FunctionRows::param_rows))]
fn param<'a>(
    alloc: Global,
    list: &mut Items<RawParam>,
    word: Word,
    ts: &'a [Token],
) -> Result<&'a [Token], Refused>
    ensures leads { LeadsTo (param_tail ∷ []) (vname word.place word.text ∷ vparams list.old ∷ []) ts.now [] (vparams list.new) (λ x. x.now) result }
    ensures shorter { IfOk result (λ x. length x.now ≤ length ts.now) }
{
    let Some((first, after)) = split(ts) else {
        return Err(Refused::Unfinished);
    };
    let TokenForm::Mark(Mark::Colon) = &first.form else {
        push_param(list, word, None)?;
        return Ok(ts);
    };
    let (t, rest) = match ty(alloc, after) {
        Ok(x) => x,
        Err(f) => return Err(f),
    };
    push_param(list, word, Some(t))?;
    Ok(rest)
}

// Parameters, behind the open bracket.
#[tactic(auto, using(crate::proofs::FunctionRows::params_rows))]
fn parameters(alloc: Global, ts: &[Token]) -> Result<(Items<RawParam>, &[Token]), Refused>
    ensures leads { LeadsFrom (params ∷ []) (vparams [] ∷ []) ts.now (λ x. vparams x.0) (λ x. x.1.now) result }
    ensures shorter { IfOk result (λ x. length x.1.now < length ts.now) }
{
    let mut list: Items<RawParam> = Items::new(alloc);
    let mut rest = ts;
    'list: while let Some((first, after)) = split(rest) {
        let word = match params_front(alloc, first)? {
            ParamsFront::Close => return Ok((list, after)),
            ParamsFront::Name(word) => word,
            ParamsFront::Other => return Err(Refused::Syntax(first.place)),
        };
        let behind = match param(alloc, &mut list, word, after) {
            Ok(x) => x,
            Err(f) => return Err(f),
        };
        let Some((second, after)) = split(behind) else {
            return Err(Refused::Unfinished);
        };
        match what_follows(second) {
            Follow::Close => return Ok((list, after)),
            Follow::Comma => {}
            Follow::Other => return Err(Refused::Syntax(second.place)),
        }
        rest = after;
    }
    Err(Refused::Unfinished)
}

// The name of a decorator and the end of its line, behind the mark.
#[tactic(auto, using(crate::proofs::FunctionRows::made_mark_rows))]
fn mark<'a>(alloc: Global, list: &mut Items<Text>, ts: &'a [Token]) -> Result<&'a [Token], Refused>
    ensures leads { LeadsTo (want_name ∷ make make_mark ∷ fixed newline ∷ []) (vmarks list.old ∷ []) ts.now [] (vmarks list.new) (λ x. x.now) result }
    ensures shorter { IfOk result (λ x. length x.now < length ts.now) }
{
    let (word, rest) = match name(alloc, ts) {
        Ok(x) => x,
        Err(f) => return Err(f),
    };
    let rest = match past(Wanted::Newline, rest) {
        Ok(x) => x,
        Err(f) => return Err(f),
    };
    push_mark(list, word.text)?;
    Ok(rest)
}

// The decorators, behind the first mark.
#[tactic(auto, using(crate::proofs::FunctionRows::mark_rows))]
fn decorator_names(alloc: Global, ts: &[Token]) -> Result<(Items<Text>, &[Token]), Refused>
    ensures leads { LeadsFrom (decorator_with []) (vmarks [] ∷ []) ts.now (λ x. vmarks x.0) (λ x. x.1.now) result }
    ensures shorter { IfOk result (λ x. length x.1.now < length ts.now) }
{
    let mut list: Items<Text> = Items::new(alloc);
    let mut rest = match mark(alloc, &mut list, ts) {
        Ok(x) => x,
        Err(f) => return Err(f),
    };
    'marks: while let Some((first, after)) = split(rest) {
        let TokenForm::Mark(Mark::At) = &first.form else {
            return Ok((list, rest));
        };
        rest = match mark(alloc, &mut list, after) {
            Ok(x) => x,
            Err(f) => return Err(f),
        };
    }
    Err(Refused::Unfinished)
}

// The type of a function's result, between its arrow and its colon.
fn result_type(alloc: Global, ts: &[Token]) -> Result<(RawTy, &[Token]), Refused>
    ensures leads { LeadsFrom (fixed arrow ∷ ty_atom ∷ ty_tail ∷ fixed colon ∷ []) [] ts.now (λ x. vty x.0) (λ x. x.1.now) result }
    ensures shorter { IfOk result (λ x. length x.1.now < length ts.now) }
{
    let rest = match past(Wanted::Arrow, ts) {
        Ok(x) => x,
        Err(f) => return Err(f),
    };
    let (t, rest) = match ty(alloc, rest) {
        Ok(x) => x,
        Err(f) => return Err(f),
    };
    let rest = match past(Wanted::Colon, rest) {
        Ok(x) => x,
        Err(f) => {
            drop(t);
            return Err(f);
        }
    };
    Ok((t, rest))
}

// The block of a function.
#[tactic(auto, using(crate::proofs::SimpleRows::made_rows))]
fn with_block(
    alloc: Global,
    head: Head,
    ret: RawTy,
    ts: &[Token],
) -> Result<(RawFunc, &[Token]), Refused>
    ensures leads { LeadsFrom (block ∷ make make_func ∷ []) (vty ret ∷ vparams head.params ∷ vname head.word.place head.word.text ∷ vmarks head.marks ∷ []) ts.now (λ x. vfunc x.0) (λ x. x.1.now) result }
    ensures shorter { IfOk result (λ x. length x.1.now < length ts.now) }
{
    let (body, rest) = match block(alloc, ts) {
        Ok(x) => x,
        Err(f) => {
            drop(head);
            drop(ret);
            return Err(f);
        }
    };
    Ok((func_node(head, ret, body), rest))
}

// What stands behind the parameters of a function: its type and its block.
fn with_result(alloc: Global, head: Head, ts: &[Token]) -> Result<(RawFunc, &[Token]), Refused>
    ensures leads { LeadsFrom (fixed arrow ∷ ty_atom ∷ ty_tail ∷ fixed colon ∷ block ∷ make make_func ∷ []) (vparams head.params ∷ vname head.word.place head.word.text ∷ vmarks head.marks ∷ []) ts.now (λ x. vfunc x.0) (λ x. x.1.now) result }
    ensures shorter { IfOk result (λ x. length x.1.now < length ts.now) }
{
    let (ret, rest) = match result_type(alloc, ts) {
        Ok(x) => x,
        Err(f) => {
            drop(head);
            return Err(f);
        }
    };
    with_block(alloc, head, ret, rest)
}

/// A function with these decorators, behind the word `def`.
#[tactic(auto, using(crate::proofs::SimpleRows::made_rows))]
pub fn function(
    alloc: Global,
    marks: Items<Text>,
    ts: &[Token],
) -> Result<(RawFunc, &[Token]), Refused>
    ensures leads { LeadsFrom (func_with []) (vmarks marks ∷ []) ts.now (λ x. vfunc x.0) (λ x. x.1.now) result }
    ensures shorter { IfOk result (λ x. length x.1.now < length ts.now) }
{
    let (word, rest) = match name(alloc, ts) {
        Ok(x) => x,
        Err(f) => return Err(f),
    };
    let rest = match past(Wanted::OpenParen, rest) {
        Ok(x) => x,
        Err(f) => return Err(f),
    };
    let (list, rest) = match parameters(alloc, rest) {
        Ok(x) => x,
        Err(f) => return Err(f),
    };
    with_result(alloc, head_of(marks, word, list), rest)
}

/// A function with its decorators, behind the first decorator's mark.
pub fn decorated(alloc: Global, ts: &[Token]) -> Result<(RawFunc, &[Token]), Refused>
    ensures leads { LeadsFrom (decorator_with (fixed word_def ∷ func_with [])) (vmarks [] ∷ []) ts.now (λ x. vfunc x.0) (λ x. x.1.now) result }
    ensures shorter { IfOk result (λ x. length x.1.now < length ts.now) }
{
    let (marks, rest) = match decorator_names(alloc, ts) {
        Ok(x) => x,
        Err(f) => return Err(f),
    };
    let rest = match past(Wanted::Def, rest) {
        Ok(x) => x,
        Err(f) => return Err(f),
    };
    function(alloc, marks, rest)
}
