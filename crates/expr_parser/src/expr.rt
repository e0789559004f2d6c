// Expressions: each function does what the machine of the grammar does at its symbols.
ghost use Rattle.std.specs.Prelude.{◌≡◌, ◌<◌, ◌≤◌, List, IfOk, MatchOption, length, [], ◌∷◌};
ghost use Rattle.py_base.specs.declared.Place.{Place};
ghost use Rattle.py_grammar.specs.Symbols.{vexpr, vexprs, vargs, vlinks, make, want_name, is_tail, neg, un, tail_post, tail_prod, tail_sum, tail_cmp, links, tail_and, tail_or, in_bracket, elements, args, arg_tail, skip, take};
ghost use Rattle.py_grammar.specs.Makers.{make_field, make_binary};
ghost use Rattle.py_grammar.specs.Moves.{next_sum, next_prod, compare_with};
ghost use Rattle.expr_parser.specs.Leads.{LeadsFrom, LeadsTo, link_symbols, BeginsWith};

use crate::fault::Refused;
use crate::make::{
    and_node, binary_node, bracket_node, call_node, chain_node, field_node, negate_node, not_node,
    one_element, or_node, push_arg, push_element, push_link, tuple_node,
};
use crate::start::{Follow, LinkStart, Start, link_sign, operand_start, what_follows};
use py_base::Place;
use py_tokens::{Keyword, Mark, Token, TokenForm};
use raw_syntax::{Arithmetic, Comparison, RawArgument, RawComparison, RawExpr};
use sqlite_items::Items;
use std::alloc::Global;

/// The first token, and what stands behind it.
pub fn split(ts: &[Token]) -> Option<(&Token, &[Token])>
    ensures { MatchOption result (ts.now ≡ []) (λ x. ts.now ≡ x.0.now ∷ x.1.now) }
{
    match ts {
        [] => None,
        [first, rest @ ..] => Some((first, rest)),
    }
}

// `+` or `-` between operands.
pub fn sum_sign(token: &Token) -> Option<Arithmetic>
    ensures { MatchOption result (next_sum token.now.place token.now.form ≡ skip) (λ o. next_sum token.now.place token.now.form ≡ take (un ∷ tail_prod ∷ make (make_binary token.now.place o) ∷ tail_sum ∷ []) []) }
{
    match &token.form {
        TokenForm::Mark(Mark::Plus) => Some(Arithmetic::Plus),
        TokenForm::Mark(Mark::Minus) => Some(Arithmetic::Minus),
        _ => None,
    }
}

// `*`, `/`, `//` or `%`
pub fn prod_sign(token: &Token) -> Option<Arithmetic>
    ensures { MatchOption result (next_prod token.now.place token.now.form ≡ skip) (λ o. next_prod token.now.place token.now.form ≡ take (un ∷ make (make_binary token.now.place o) ∷ tail_prod ∷ []) []) }
{
    match &token.form {
        TokenForm::Mark(Mark::Star) => Some(Arithmetic::Times),
        TokenForm::Mark(Mark::Slash) => Some(Arithmetic::Divide),
        TokenForm::Mark(Mark::TwoSlashes) => Some(Arithmetic::FloorDivide),
        TokenForm::Mark(Mark::Percent) => Some(Arithmetic::Modulo),
        _ => None,
    }
}

// The field of an object, behind the dot.
#[tactic(auto, using(crate::proofs::Rows::name_rows))]
pub fn named(alloc: Global, object: RawExpr, ts: &[Token]) -> Result<(RawExpr, &[Token]), Refused>
    ensures leads { LeadsFrom (want_name ∷ make make_field ∷ []) (vexpr object ∷ []) ts.now (λ x. vexpr x.0) (λ x. x.1.now) result }
    ensures shorter { IfOk result (λ x. length x.1.now < length ts.now) }
{
    let Some((first, rest)) = split(ts) else {
        return Err(Refused::Unfinished);
    };
    match &first.form {
        TokenForm::Name(name) => Ok((field_node(alloc, first.place, object, name)?, rest)),
        _ => Err(Refused::Syntax(first.place)),
    }
}

// A call, behind the open bracket.
#[cycle(parse)]
#[tactic(auto, using(crate::proofs::Rows::call_rows))]
fn called(alloc: Global, callee: RawExpr, ts: &[Token]) -> Result<(RawExpr, &[Token]), Refused>
    ensures leads { LeadsFrom (args ∷ []) (vargs [] ∷ vexpr callee ∷ []) ts.now (λ x. vexpr x.0) (λ x. x.1.now) result }
    ensures shorter { IfOk result (λ x. length x.1.now < length ts.now) }
{
    let mut list: Items<RawArgument> = Items::new(alloc);
    let mut rest = ts;
    'list: while let Some((first, after)) = split(rest) {
        if let TokenForm::Mark(Mark::CloseParen) = &first.form {
            return Ok((call_node(alloc, callee, list)?, after));
        }
        let behind = match arg(alloc, &mut list, rest) {
            Ok(x) => x,
            Err(f) => return Err(f),
        };
        let Some((second, after)) = split(behind) else {
            return Err(Refused::Unfinished);
        };
        match what_follows(second) {
            Follow::Close => return Ok((call_node(alloc, callee, list)?, after)),
            Follow::Comma => {}
            Follow::Other => return Err(Refused::Syntax(second.place)),
        }
        rest = after;
    }
    Err(Refused::Unfinished)
}

// An argument, behind those before it.
#[cycle(parse)]
#[tactic(auto, using(crate::proofs::Rows::arg_rows))]
fn arg<'a>(
    alloc: Global,
    list: &mut Items<RawArgument>,
    ts: &'a [Token],
) -> Result<&'a [Token], Refused>
    ensures leads { LeadsTo (neg ∷ tail_and ∷ tail_or ∷ arg_tail ∷ []) (vargs list.old ∷ []) ts.now [] (vargs list.new) (λ x. x.now) result }
    ensures shorter { IfOk result (λ x. length x.now < length ts.now) }
{
    let (e, rest) = match expression(alloc, ts) {
        Ok(x) => x,
        Err(f) => return Err(f),
    };
    let Some((first, after)) = split(rest) else {
        return Err(Refused::Unfinished);
    };
    match &first.form {
        TokenForm::Mark(Mark::Assign) => {
            let (value, behind) = match expression(alloc, after) {
                Ok(x) => x,
                Err(f) => return Err(f),
            };
            push_arg(list, RawArgument::Named(e, value))?;
            Ok(behind)
        }
        _ => {
            push_arg(list, RawArgument::Value(e))?;
            Ok(rest)
        }
    }
}

// What stands behind an operand: fields and calls.
#[cycle(parse)]
#[tactic(auto, using(crate::proofs::Rows::post_rows))]
fn post(alloc: Global, operand: RawExpr, ts: &[Token]) -> Result<(RawExpr, &[Token]), Refused>
    ensures leads { LeadsFrom (tail_post ∷ []) (vexpr operand ∷ []) ts.now (λ x. vexpr x.0) (λ x. x.1.now) result }
    ensures shorter { IfOk result (λ x. length x.1.now ≤ length ts.now) }
{
    let mut acc = operand;
    let mut rest = ts;
    'posts: while let Some((first, after)) = split(rest) {
        match &first.form {
            TokenForm::Mark(Mark::Dot) => {
                let (e, behind) = match named(alloc, acc, after) {
                    Ok(x) => x,
                    Err(f) => return Err(f),
                };
                acc = e;
                rest = behind;
            }
            TokenForm::Mark(Mark::OpenParen) => {
                let (e, behind) = match called(alloc, acc, after) {
                    Ok(x) => x,
                    Err(f) => return Err(f),
                };
                acc = e;
                rest = behind;
            }
            _ => return Ok((acc, rest)),
        }
    }
    Err(Refused::Unfinished)
}

// The elements of a tuple behind the first one and its comma.
#[cycle(parse)]
#[tactic(auto, using(crate::proofs::Rows::element_rows))]
fn more_elements(
    alloc: Global,
    place: Place,
    first: RawExpr,
    ts: &[Token],
) -> Result<(RawExpr, &[Token]), Refused>
    ensures leads { LeadsFrom (elements place ∷ []) (vexprs (first ∷ []) ∷ []) ts.now (λ x. vexpr x.0) (λ x. x.1.now) result }
    ensures shorter { IfOk result (λ x. length x.1.now < length ts.now) }
{
    let mut list = one_element(alloc, first)?;
    let mut rest = ts;
    'list: while let Some((head, after)) = split(rest) {
        if let TokenForm::Mark(Mark::CloseParen) = &head.form {
            return Ok((tuple_node(place, list), after));
        }
        let (e, behind) = match expression(alloc, rest) {
            Ok(x) => x,
            Err(f) => return Err(f),
        };
        push_element(&mut list, e)?;
        let Some((second, after)) = split(behind) else {
            return Err(Refused::Unfinished);
        };
        match what_follows(second) {
            Follow::Close => return Ok((tuple_node(place, list), after)),
            Follow::Comma => {}
            Follow::Other => return Err(Refused::Syntax(second.place)),
        }
        rest = after;
    }
    Err(Refused::Unfinished)
}

// What stands in brackets, behind the open one, whose place this is.
#[cycle(parse)]
#[tactic(auto, using(crate::proofs::Rows::bracket_rows))]
fn bracketed(alloc: Global, place: Place, ts: &[Token]) -> Result<(RawExpr, &[Token]), Refused>
    ensures leads { LeadsFrom (in_bracket place ∷ []) [] ts.now (λ x. vexpr x.0) (λ x. x.1.now) result }
    ensures shorter { IfOk result (λ x. length x.1.now < length ts.now) }
{
    let Some((first, after)) = split(ts) else {
        return Err(Refused::Unfinished);
    };
    if let TokenForm::Mark(Mark::CloseParen) = &first.form {
        return Ok((tuple_node(place, Items::new(alloc)), after));
    }
    let (e, rest) = match expression(alloc, ts) {
        Ok(x) => x,
        Err(f) => return Err(f),
    };
    let Some((second, after)) = split(rest) else {
        return Err(Refused::Unfinished);
    };
    match what_follows(second) {
        Follow::Close => Ok((bracket_node(alloc, place, e)?, after)),
        Follow::Comma => match more_elements(alloc, place, e, after) {
            Ok(x) => Ok(x),
            Err(f) => Err(f),
        },
        Follow::Other => Err(Refused::Syntax(second.place)),
    }
}

#[cycle(parse)]
#[tactic(auto, using(crate::proofs::Rows::un_rows))]
fn unary(alloc: Global, ts: &[Token]) -> Result<(RawExpr, &[Token]), Refused>
    ensures leads { LeadsFrom (un ∷ []) [] ts.now (λ x. vexpr x.0) (λ x. x.1.now) result }
    ensures shorter { IfOk result (λ x. length x.1.now < length ts.now) }
{
    let Some((first, after)) = split(ts) else {
        return Err(Refused::Unfinished);
    };
    match operand_start(alloc, first)? {
        Start::Minus => {
            let (e, rest) = match unary(alloc, after) {
                Ok(x) => x,
                Err(f) => return Err(f),
            };
            Ok((negate_node(alloc, first.place, e)?, rest))
        }
        Start::Open => {
            let (e, rest) = match bracketed(alloc, first.place, after) {
                Ok(x) => x,
                Err(f) => return Err(f),
            };
            match post(alloc, e, rest) {
                Ok(x) => Ok(x),
                Err(f) => Err(f),
            }
        }
        Start::Leaf(e) => match post(alloc, e, after) {
            Ok(x) => Ok(x),
            Err(f) => Err(f),
        },
        Start::Other => Err(Refused::Syntax(first.place)),
    }
}

#[cycle(parse)]
#[tactic(auto, using(crate::proofs::Rows::prod_rows))]
fn product(alloc: Global, ts: &[Token]) -> Result<(RawExpr, &[Token]), Refused>
    ensures leads { LeadsFrom (un ∷ tail_prod ∷ []) [] ts.now (λ x. vexpr x.0) (λ x. x.1.now) result }
    ensures shorter { IfOk result (λ x. length x.1.now < length ts.now) }
{
    let (mut acc, mut rest) = match unary(alloc, ts) {
        Ok(x) => x,
        Err(f) => return Err(f),
    };
    'products: while let Some((first, after)) = split(rest) {
        let Some(sign) = prod_sign(first) else {
            return Ok((acc, rest));
        };
        let (b, behind) = match unary(alloc, after) {
            Ok(x) => x,
            Err(f) => return Err(f),
        };
        acc = binary_node(alloc, first.place, sign, acc, b)?;
        rest = behind;
    }
    Err(Refused::Unfinished)
}

#[cycle(parse)]
#[tactic(auto, using(crate::proofs::Rows::sum_rows))]
fn sum(alloc: Global, ts: &[Token]) -> Result<(RawExpr, &[Token]), Refused>
    ensures leads { LeadsFrom (un ∷ tail_prod ∷ tail_sum ∷ []) [] ts.now (λ x. vexpr x.0) (λ x. x.1.now) result }
    ensures shorter { IfOk result (λ x. length x.1.now < length ts.now) }
{
    let (mut acc, mut rest) = match product(alloc, ts) {
        Ok(x) => x,
        Err(f) => return Err(f),
    };
    'sums: while let Some((first, after)) = split(rest) {
        let Some(sign) = sum_sign(first) else {
            return Ok((acc, rest));
        };
        let (b, behind) = match product(alloc, after) {
            Ok(x) => x,
            Err(f) => return Err(f),
        };
        acc = binary_node(alloc, first.place, sign, acc, b)?;
        rest = behind;
    }
    Err(Refused::Unfinished)
}

// A link of a chain behind its operator, whose place this is.
#[cycle(parse)]
#[tactic(auto, using(crate::proofs::Rows::link_rows))]
fn plain_link<'a>(
    alloc: Global,
    list: &mut Items<RawComparison>,
    place: Place,
    sign: Comparison,
    ts: &'a [Token],
) -> Result<&'a [Token], Refused>
    ensures leads { LeadsTo (compare_with place sign) (vlinks list.old ∷ []) ts.now (links ∷ []) (vlinks list.new) (λ x. x.now) result }
    ensures shorter { IfOk result (λ x. length x.now < length ts.now) }
    ensures first { IfOk result (λ x. list.old ≡ [] → BeginsWith place list.new) }
    ensures more { IfOk result (λ x. (p : Place) → BeginsWith p list.old → BeginsWith p list.new) }
{
    let (e, rest) = match sum(alloc, ts) {
        Ok(x) => x,
        Err(f) => return Err(f),
    };
    push_link(list, place, sign, e)?;
    Ok(rest)
}

// A link of a chain behind the word `is`.
#[cycle(parse)]
#[tactic(auto, using(crate::proofs::Rows::is_rows))]
fn is_link<'a>(
    alloc: Global,
    list: &mut Items<RawComparison>,
    place: Place,
    ts: &'a [Token],
) -> Result<&'a [Token], Refused>
    ensures leads { LeadsTo (is_tail place ∷ []) (vlinks list.old ∷ []) ts.now (links ∷ []) (vlinks list.new) (λ x. x.now) result }
    ensures shorter { IfOk result (λ x. length x.now < length ts.now) }
    ensures first { IfOk result (λ x. list.old ≡ [] → BeginsWith place list.new) }
    ensures more { IfOk result (λ x. (p : Place) → BeginsWith p list.old → BeginsWith p list.new) }
{
    let Some((first, after)) = split(ts) else {
        return Err(Refused::Unfinished);
    };
    match &first.form {
        TokenForm::Key(Keyword::Not) => match plain_link(
            alloc,
            list,
            place,
            Comparison::IsNot,
            after,
        ) {
            Ok(rest) => Ok(rest),
            Err(f) => Err(f),
        },
        _ => match plain_link(alloc, list, place, Comparison::Is, ts) {
            Ok(rest) => Ok(rest),
            Err(f) => Err(f),
        },
    }
}

// A link of a chain, behind the first word of its operator, whose place this is.
#[cycle(parse)]
#[tactic(auto)]
fn linked<'a>(
    alloc: Global,
    list: &mut Items<RawComparison>,
    place: Place,
    sign: LinkStart,
    ts: &'a [Token],
) -> Result<&'a [Token], Refused>
    ensures leads { LeadsTo (link_symbols place sign) (vlinks list.old ∷ []) ts.now (links ∷ []) (vlinks list.new) (λ x. x.now) result }
    ensures shorter { IfOk result (λ x. length x.now < length ts.now) }
    ensures first { IfOk result (λ x. list.old ≡ [] → BeginsWith place list.new) }
    ensures more { IfOk result (λ x. (p : Place) → BeginsWith p list.old → BeginsWith p list.new) }
{
    match sign {
        LinkStart::Is => match is_link(alloc, list, place, ts) {
            Ok(rest) => Ok(rest),
            Err(f) => Err(f),
        },
        LinkStart::Plain(sign) => match plain_link(alloc, list, place, sign, ts) {
            Ok(rest) => Ok(rest),
            Err(f) => Err(f),
        },
    }
}

#[cycle(parse)]
#[tactic(auto, using(crate::proofs::Rows::cmp_rows))]
fn comparison(alloc: Global, ts: &[Token]) -> Result<(RawExpr, &[Token]), Refused>
    ensures leads { LeadsFrom (un ∷ tail_prod ∷ tail_sum ∷ tail_cmp ∷ []) [] ts.now (λ x. vexpr x.0) (λ x. x.1.now) result }
    ensures shorter { IfOk result (λ x. length x.1.now < length ts.now) }
{
    let (e, behind) = match sum(alloc, ts) {
        Ok(x) => x,
        Err(f) => return Err(f),
    };
    let Some((first, after)) = split(behind) else {
        return Err(Refused::Unfinished);
    };
    let Some(sign) = link_sign(first) else {
        return Ok((e, behind));
    };
    let mut list: Items<RawComparison> = Items::new(alloc);
    let mut rest = match linked(alloc, &mut list, first.place, sign, after) {
        Ok(x) => x,
        Err(f) => return Err(f),
    };
    'links: while let Some((head, after)) = split(rest) {
        let Some(sign) = link_sign(head) else {
            return Ok((chain_node(alloc, first.place, e, list)?, rest));
        };
        rest = match linked(alloc, &mut list, head.place, sign, after) {
            Ok(x) => x,
            Err(f) => return Err(f),
        };
    }
    Err(Refused::Unfinished)
}

#[cycle(parse)]
#[tactic(auto, using(crate::proofs::Rows::neg_rows))]
fn negation(alloc: Global, ts: &[Token]) -> Result<(RawExpr, &[Token]), Refused>
    ensures leads { LeadsFrom (neg ∷ []) [] ts.now (λ x. vexpr x.0) (λ x. x.1.now) result }
    ensures shorter { IfOk result (λ x. length x.1.now < length ts.now) }
{
    let Some((first, after)) = split(ts) else {
        return Err(Refused::Unfinished);
    };
    let TokenForm::Key(Keyword::Not) = &first.form else {
        return comparison(alloc, ts);
    };
    let (e, rest) = match negation(alloc, after) {
        Ok(x) => x,
        Err(f) => return Err(f),
    };
    Ok((not_node(alloc, first.place, e)?, rest))
}

#[cycle(parse)]
#[tactic(auto, using(crate::proofs::Rows::and_rows))]
fn conjunction(alloc: Global, ts: &[Token]) -> Result<(RawExpr, &[Token]), Refused>
    ensures leads { LeadsFrom (neg ∷ tail_and ∷ []) [] ts.now (λ x. vexpr x.0) (λ x. x.1.now) result }
    ensures shorter { IfOk result (λ x. length x.1.now < length ts.now) }
{
    let (mut acc, mut rest) = match negation(alloc, ts) {
        Ok(x) => x,
        Err(f) => return Err(f),
    };
    'ands: while let Some((first, after)) = split(rest) {
        let TokenForm::Key(Keyword::And) = &first.form else {
            return Ok((acc, rest));
        };
        let (b, behind) = match negation(alloc, after) {
            Ok(x) => x,
            Err(f) => return Err(f),
        };
        acc = and_node(alloc, first.place, acc, b)?;
        rest = behind;
    }
    Err(Refused::Unfinished)
}

/// An expression in front of the tokens, and what stands behind it.
#[cycle(parse)]
#[tactic(auto, using(crate::proofs::Rows::or_rows))]
pub fn expression(alloc: Global, ts: &[Token]) -> Result<(RawExpr, &[Token]), Refused>
    ensures leads { LeadsFrom (neg ∷ tail_and ∷ tail_or ∷ []) [] ts.now (λ x. vexpr x.0) (λ x. x.1.now) result }
    ensures shorter { IfOk result (λ x. length x.1.now < length ts.now) }
{
    let (mut acc, mut rest) = match conjunction(alloc, ts) {
        Ok(x) => x,
        Err(f) => return Err(f),
    };
    'ors: while let Some((first, after)) = split(rest) {
        let TokenForm::Key(Keyword::Or) = &first.form else {
            return Ok((acc, rest));
        };
        let (b, behind) = match conjunction(alloc, after) {
            Ok(x) => x,
            Err(f) => return Err(f),
        };
        acc = or_node(alloc, first.place, acc, b)?;
        rest = behind;
    }
    Err(Refused::Unfinished)
}
