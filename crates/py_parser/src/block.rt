// Statements and blocks: each function does what the machine of the grammar does at its symbols.
ghost use Rattle.std.specs.Prelude.{◌≡◌, ◌<◌, ◌≤◌, IfOk, length, [], ◌∷◌};
ghost use Rattle.py_grammar.specs.Symbols.{vexpr, vstmt, vstmts, velifs, vhandlers, fixed, colon, indent, make, neg, tail_and, tail_or, want_name, stmt, block, stmts, elifs, else_part, finally_part, try_tail, handlers};
ghost use Rattle.py_grammar.specs.Makers.{push, make_only, make_if, make_elif, make_while, make_with, make_try, make_try_finally, make_handler};
ghost use Rattle.expr_parser.specs.Leads.{LeadsFrom, LeadsTo};
ghost use Rattle.py_parser.specs.Heads.{LeadsToTwo};

use crate::lead::{
    BlockStart, ListStart, StmtStart, TailStart, block_start, list_start, stmt_start, tail_start,
};
use crate::nodes::{
    if_node, one_stmt, push_elif, push_handler, push_stmt, try_node, while_node, with_node,
};
use crate::simple::line;
use expr_parser::expr::{expression, split};
use expr_parser::fault::Refused;
use expr_parser::fixed::{Wanted, name, past};
use py_base::Place;
use py_tokens::{Keyword, Token, TokenForm};
use raw_syntax::{RawElif, RawExpr, RawHandler, RawStmt};
use sqlite_items::Items;
use std::alloc::Global;

/// A block: one statement behind its colon, or an indented list.
#[cycle(block)]
#[tactic(auto, using(crate::proofs::BlockRows::block_rows))]
pub fn block(alloc: Global, ts: &[Token]) -> Result<(Items<RawStmt>, &[Token]), Refused>
    ensures leads { LeadsFrom (block ∷ []) [] ts.now (λ x. vstmts x.0) (λ x. x.1.now) result }
    ensures shorter { IfOk result (λ x. length x.1.now < length ts.now) }
{
    let Some((first, after)) = split(ts) else {
        return Err(Refused::Unfinished);
    };
    match block_start(first) {
        BlockStart::Lines => match suite(alloc, after) {
            Ok(x) => Ok(x),
            Err(f) => Err(f),
        },
        BlockStart::Line => {
            let (only, rest) = match line(alloc, ts) {
                Ok(x) => x,
                Err(f) => return Err(f),
            };
            Ok((one_stmt(alloc, only)?, rest))
        }
    }
}

// An indented list, behind the end of the line before it.
#[cycle(block)]
#[tactic(auto, using(crate::proofs::BlockRows::suite_rows))]
fn suite(alloc: Global, ts: &[Token]) -> Result<(Items<RawStmt>, &[Token]), Refused>
    ensures leads { LeadsFrom (fixed indent ∷ stmt ∷ make make_only ∷ stmts ∷ []) [] ts.now (λ x. vstmts x.0) (λ x. x.1.now) result }
    ensures shorter { IfOk result (λ x. length x.1.now < length ts.now) }
{
    let rest = match past(Wanted::Indent, ts) {
        Ok(x) => x,
        Err(f) => return Err(f),
    };
    let (first, rest) = match stmt(alloc, rest) {
        Ok(x) => x,
        Err(f) => return Err(f),
    };
    match more(alloc, one_stmt(alloc, first)?, rest) {
        Ok(x) => Ok(x),
        Err(f) => Err(f),
    }
}

// The statements of a list behind those before them.
#[cycle(block)]
#[tactic(auto, using(crate::proofs::BlockRows::list_rows))]
fn more(
    alloc: Global,
    before: Items<RawStmt>,
    ts: &[Token],
) -> Result<(Items<RawStmt>, &[Token]), Refused>
    ensures leads { LeadsFrom (stmts ∷ []) (vstmts before ∷ []) ts.now (λ x. vstmts x.0) (λ x. x.1.now) result }
    ensures shorter { IfOk result (λ x. length x.1.now < length ts.now) }
{
    let mut list = before;
    let mut rest = ts;
    'list: while let Some((first, after)) = split(rest) {
        match list_start(first) {
            ListStart::End => return Ok((list, after)),
            ListStart::More => {}
        }
        let (next, behind) = match stmt(alloc, rest) {
            Ok(x) => x,
            Err(f) => return Err(f),
        };
        push_stmt(&mut list, next)?;
        rest = behind;
    }
    Err(Refused::Unfinished)
}

// A statement.
#[cycle(block)]
#[tactic(auto, using(crate::proofs::BlockRows::stmt_rows))]
fn stmt(alloc: Global, ts: &[Token]) -> Result<(RawStmt, &[Token]), Refused>
    ensures leads { LeadsFrom (stmt ∷ []) [] ts.now (λ x. vstmt x.0) (λ x. x.1.now) result }
    ensures shorter { IfOk result (λ x. length x.1.now < length ts.now) }
{
    let Some((first, after)) = split(ts) else {
        return Err(Refused::Unfinished);
    };
    match stmt_start(first) {
        StmtStart::If => match if_of(alloc, first.place, after) {
            Ok(x) => Ok(x),
            Err(f) => Err(f),
        },
        StmtStart::While => match while_of(alloc, first.place, after) {
            Ok(x) => Ok(x),
            Err(f) => Err(f),
        },
        StmtStart::Try => match try_of(alloc, first.place, after) {
            Ok(x) => Ok(x),
            Err(f) => Err(f),
        },
        StmtStart::With => match with_of(alloc, first.place, after) {
            Ok(x) => Ok(x),
            Err(f) => Err(f),
        },
        StmtStart::Line => match line(alloc, ts) {
            Ok(x) => Ok(x),
            Err(f) => Err(f),
        },
    }
}

// A block and the colon in front of it.
#[cycle(block)]
#[tactic(auto)]
fn body(alloc: Global, ts: &[Token]) -> Result<(Items<RawStmt>, &[Token]), Refused>
    ensures leads { LeadsFrom (fixed colon ∷ block ∷ []) [] ts.now (λ x. vstmts x.0) (λ x. x.1.now) result }
    ensures shorter { IfOk result (λ x. length x.1.now < length ts.now) }
{
    let rest = match past(Wanted::Colon, ts) {
        Ok(x) => x,
        Err(f) => return Err(f),
    };
    match block(alloc, rest) {
        Ok(x) => Ok(x),
        Err(f) => Err(f),
    }
}

// An expression and the block that it heads.
#[cycle(block)]
#[tactic(auto)]
fn headed(alloc: Global, ts: &[Token]) -> Result<(RawExpr, Items<RawStmt>, &[Token]), Refused>
    ensures leads { LeadsToTwo (neg ∷ tail_and ∷ tail_or ∷ fixed colon ∷ block ∷ []) ts.now (λ x. vexpr x.0) (λ x. vstmts x.1) (λ x. x.2.now) result }
    ensures shorter { IfOk result (λ x. length x.2.now < length ts.now) }
{
    let (head, rest) = match expression(alloc, ts) {
        Ok(x) => x,
        Err(f) => return Err(f),
    };
    let (list, rest) = match body(alloc, rest) {
        Ok(x) => x,
        Err(f) => return Err(f),
    };
    Ok((head, list, rest))
}

// A loop, behind its first word.
#[cycle(block)]
#[tactic(auto, using(crate::proofs::BlockRows::while_rows))]
fn while_of(alloc: Global, place: Place, ts: &[Token]) -> Result<(RawStmt, &[Token]), Refused>
    ensures leads { LeadsFrom (neg ∷ tail_and ∷ tail_or ∷ fixed colon ∷ block ∷ make (make_while place) ∷ []) [] ts.now (λ x. vstmt x.0) (λ x. x.1.now) result }
    ensures shorter { IfOk result (λ x. length x.1.now < length ts.now) }
{
    let (condition, list, rest) = match headed(alloc, ts) {
        Ok(x) => x,
        Err(f) => return Err(f),
    };
    Ok((while_node(place, condition, list), rest))
}

// A block that holds a lock, behind its first word.
#[cycle(block)]
#[tactic(auto, using(crate::proofs::BlockRows::with_rows))]
fn with_of(alloc: Global, place: Place, ts: &[Token]) -> Result<(RawStmt, &[Token]), Refused>
    ensures leads { LeadsFrom (neg ∷ tail_and ∷ tail_or ∷ fixed colon ∷ block ∷ make (make_with place) ∷ []) [] ts.now (λ x. vstmt x.0) (λ x. x.1.now) result }
    ensures shorter { IfOk result (λ x. length x.1.now < length ts.now) }
{
    let (lock, list, rest) = match headed(alloc, ts) {
        Ok(x) => x,
        Err(f) => return Err(f),
    };
    Ok((with_node(place, lock, list), rest))
}

// A choice, behind its first word.
#[cycle(block)]
#[tactic(auto, using(crate::proofs::BlockRows::if_rows))]
fn if_of(alloc: Global, place: Place, ts: &[Token]) -> Result<(RawStmt, &[Token]), Refused>
    ensures leads { LeadsFrom (neg ∷ tail_and ∷ tail_or ∷ fixed colon ∷ block ∷ make (push (velifs [])) ∷ elifs ∷ else_part ∷ make (make_if place) ∷ []) [] ts.now (λ x. vstmt x.0) (λ x. x.1.now) result }
    ensures shorter { IfOk result (λ x. length x.1.now < length ts.now) }
{
    let (condition, list, rest) = match headed(alloc, ts) {
        Ok(x) => x,
        Err(f) => return Err(f),
    };
    let (parts, rest) = match elif_parts(alloc, rest) {
        Ok(x) => x,
        Err(f) => return Err(f),
    };
    let (other, rest) = match else_block(alloc, rest) {
        Ok(x) => x,
        Err(f) => return Err(f),
    };
    Ok((if_node(place, condition, list, parts, other), rest))
}

// A part of a choice behind its word, whose place this is, and those before it.
#[cycle(block)]
#[tactic(auto, using(crate::proofs::BlockRows::elif_rows))]
fn elif_onto<'a>(
    alloc: Global,
    parts: &mut Items<RawElif>,
    place: Place,
    ts: &'a [Token],
) -> Result<&'a [Token], Refused>
    ensures leads { LeadsTo (neg ∷ tail_and ∷ tail_or ∷ fixed colon ∷ block ∷ make (make_elif place) ∷ []) (velifs parts.old ∷ []) ts.now [] (velifs parts.new) (λ x. x.now) result }
    ensures shorter { IfOk result (λ x. length x.now < length ts.now) }
{
    let (condition, list, rest) = match headed(alloc, ts) {
        Ok(x) => x,
        Err(f) => return Err(f),
    };
    push_elif(parts, place, condition, list)?;
    Ok(rest)
}

// The parts of a choice, behind its first block.
#[cycle(block)]
#[tactic(auto, using(crate::proofs::BlockRows::elifs_rows))]
fn elif_parts(alloc: Global, ts: &[Token]) -> Result<(Items<RawElif>, &[Token]), Refused>
    ensures leads { LeadsFrom (elifs ∷ []) (velifs [] ∷ []) ts.now (λ x. velifs x.0) (λ x. x.1.now) result }
    ensures shorter { IfOk result (λ x. length x.1.now ≤ length ts.now) }
{
    let mut parts: Items<RawElif> = Items::new(alloc);
    let mut rest = ts;
    'parts: while let Some((first, after)) = split(rest) {
        let TokenForm::Key(Keyword::Elif) = &first.form else {
            return Ok((parts, rest));
        };
        rest = match elif_onto(alloc, &mut parts, first.place, after) {
            Ok(x) => x,
            Err(f) => return Err(f),
        };
    }
    Err(Refused::Unfinished)
}

// The block of `else`, where there is one.
#[cycle(block)]
#[tactic(auto, using(crate::proofs::BlockRows::else_rows))]
fn else_block(alloc: Global, ts: &[Token]) -> Result<(Items<RawStmt>, &[Token]), Refused>
    ensures leads { LeadsFrom (else_part ∷ []) [] ts.now (λ x. vstmts x.0) (λ x. x.1.now) result }
    ensures shorter { IfOk result (λ x. length x.1.now ≤ length ts.now) }
{
    let Some((first, after)) = split(ts) else {
        return Err(Refused::Unfinished);
    };
    let TokenForm::Key(Keyword::Else) = &first.form else {
        return Ok((Items::new(alloc), ts));
    };
    match body(alloc, after) {
        Ok(x) => Ok(x),
        Err(f) => Err(f),
    }
}

// The block of `finally`, where there is one.
#[cycle(block)]
#[tactic(auto, using(crate::proofs::TryRows::finally_rows))]
fn finally_block(alloc: Global, ts: &[Token]) -> Result<(Items<RawStmt>, &[Token]), Refused>
    ensures leads { LeadsFrom (finally_part ∷ []) [] ts.now (λ x. vstmts x.0) (λ x. x.1.now) result }
    ensures shorter { IfOk result (λ x. length x.1.now ≤ length ts.now) }
{
    let Some((first, after)) = split(ts) else {
        return Err(Refused::Unfinished);
    };
    let TokenForm::Key(Keyword::Finally) = &first.form else {
        return Ok((Items::new(alloc), ts));
    };
    match body(alloc, after) {
        Ok(x) => Ok(x),
        Err(f) => Err(f),
    }
}

// A handler behind its first word, and those before it.
#[cycle(block)]
#[tactic(auto, using(crate::proofs::TryRows::handler_rows))]
fn handler_onto<'a>(
    alloc: Global,
    list: &mut Items<RawHandler>,
    ts: &'a [Token],
) -> Result<&'a [Token], Refused>
    ensures leads { LeadsTo (want_name ∷ fixed colon ∷ block ∷ make make_handler ∷ []) (vhandlers list.old ∷ []) ts.now [] (vhandlers list.new) (λ x. x.now) result }
    ensures shorter { IfOk result (λ x. length x.now < length ts.now) }
{
    let (class, rest) = match name(alloc, ts) {
        Ok(x) => x,
        Err(f) => return Err(f),
    };
    let (inner, rest) = match body(alloc, rest) {
        Ok(x) => x,
        Err(f) => return Err(f),
    };
    push_handler(list, class, inner)?;
    Ok(rest)
}

// The handlers behind those before them.
#[cycle(block)]
#[tactic(auto, using(crate::proofs::TryRows::handlers_rows))]
fn more_handlers(
    alloc: Global,
    before: Items<RawHandler>,
    ts: &[Token],
) -> Result<(Items<RawHandler>, &[Token]), Refused>
    ensures leads { LeadsFrom (handlers ∷ []) (vhandlers before ∷ []) ts.now (λ x. vhandlers x.0) (λ x. x.1.now) result }
    ensures shorter { IfOk result (λ x. length x.1.now ≤ length ts.now) }
{
    let mut list = before;
    let mut rest = ts;
    'list: while let Some((first, after)) = split(rest) {
        let TokenForm::Key(Keyword::Except) = &first.form else {
            return Ok((list, rest));
        };
        rest = match handler_onto(alloc, &mut list, after) {
            Ok(x) => x,
            Err(f) => return Err(f),
        };
    }
    Err(Refused::Unfinished)
}

// The handlers behind the first `except`.
#[cycle(block)]
#[tactic(auto)]
fn all_handlers(alloc: Global, ts: &[Token]) -> Result<(Items<RawHandler>, &[Token]), Refused>
    ensures leads { LeadsFrom (want_name ∷ fixed colon ∷ block ∷ make make_handler ∷ handlers ∷ []) (vhandlers [] ∷ []) ts.now (λ x. vhandlers x.0) (λ x. x.1.now) result }
    ensures shorter { IfOk result (λ x. length x.1.now < length ts.now) }
{
    let mut list: Items<RawHandler> = Items::new(alloc);
    let rest = match handler_onto(alloc, &mut list, ts) {
        Ok(x) => x,
        Err(f) => return Err(f),
    };
    match more_handlers(alloc, list, rest) {
        Ok(x) => Ok(x),
        Err(f) => Err(f),
    }
}

// What stands behind the first `except`.
#[cycle(block)]
#[tactic(auto, using(crate::proofs::TryRows::caught_rows))]
fn caught(
    alloc: Global,
    place: Place,
    tried: Items<RawStmt>,
    ts: &[Token],
) -> Result<(RawStmt, &[Token]), Refused>
    ensures leads { LeadsFrom (want_name ∷ fixed colon ∷ block ∷ make make_handler ∷ handlers ∷ else_part ∷ finally_part ∷ make (make_try place) ∷ []) (vhandlers [] ∷ vstmts tried ∷ []) ts.now (λ x. vstmt x.0) (λ x. x.1.now) result }
    ensures shorter { IfOk result (λ x. length x.1.now < length ts.now) }
{
    let (list, rest) = match all_handlers(alloc, ts) {
        Ok(x) => x,
        Err(f) => return Err(f),
    };
    let (other, rest) = match else_block(alloc, rest) {
        Ok(x) => x,
        Err(f) => return Err(f),
    };
    let (last, rest) = match finally_block(alloc, rest) {
        Ok(x) => x,
        Err(f) => return Err(f),
    };
    Ok((try_node(place, tried, list, other, last), rest))
}

// What stands behind `finally` where there is no handler.
#[cycle(block)]
#[tactic(auto, using(crate::proofs::TryRows::uncaught_rows))]
fn uncaught(
    alloc: Global,
    place: Place,
    tried: Items<RawStmt>,
    ts: &[Token],
) -> Result<(RawStmt, &[Token]), Refused>
    ensures leads { LeadsFrom (fixed colon ∷ block ∷ make (make_try_finally place) ∷ []) (vstmts tried ∷ []) ts.now (λ x. vstmt x.0) (λ x. x.1.now) result }
    ensures shorter { IfOk result (λ x. length x.1.now < length ts.now) }
{
    let (last, rest) = match body(alloc, ts) {
        Ok(x) => x,
        Err(f) => return Err(f),
    };
    Ok((
        try_node(place, tried, Items::new(alloc), Items::new(alloc), last),
        rest,
    ))
}

// What stands behind the block of `try`.
#[cycle(block)]
#[tactic(auto, using(crate::proofs::TryRows::tail_rows))]
fn ended(
    alloc: Global,
    place: Place,
    tried: Items<RawStmt>,
    ts: &[Token],
) -> Result<(RawStmt, &[Token]), Refused>
    ensures leads { LeadsFrom (try_tail place ∷ []) (vstmts tried ∷ []) ts.now (λ x. vstmt x.0) (λ x. x.1.now) result }
    ensures shorter { IfOk result (λ x. length x.1.now < length ts.now) }
{
    let Some((first, after)) = split(ts) else {
        return Err(Refused::Unfinished);
    };
    match tail_start(first) {
        TailStart::Except => match caught(alloc, place, tried, after) {
            Ok(x) => Ok(x),
            Err(f) => Err(f),
        },
        TailStart::Finally => match uncaught(alloc, place, tried, after) {
            Ok(x) => Ok(x),
            Err(f) => Err(f),
        },
        TailStart::Other => Err(Refused::Syntax(first.place)),
    }
}

// A `try`, behind its first word.
#[cycle(block)]
#[tactic(auto)]
fn try_of(alloc: Global, place: Place, ts: &[Token]) -> Result<(RawStmt, &[Token]), Refused>
    ensures leads { LeadsFrom (fixed colon ∷ block ∷ try_tail place ∷ []) [] ts.now (λ x. vstmt x.0) (λ x. x.1.now) result }
    ensures shorter { IfOk result (λ x. length x.1.now < length ts.now) }
{
    let (tried, rest) = match body(alloc, ts) {
        Ok(x) => x,
        Err(f) => return Err(f),
    };
    match ended(alloc, place, tried, rest) {
        Ok(x) => Ok(x),
        Err(f) => Err(f),
    }
}
