// Long chains of replacements. There are 40 equalities, each between a term of one symbol and a term of the next. Behind them come
// a literal that speaks of the first symbol, as the assumption 40, the literal that it is to clash with, and the opposite of the
// goal. A sum put for a sum that is part of what is put for it is read quickly where each equality is put into the one before it;
// in the other orders each such replacement makes the reading longer by half and more, so there the chain has ten.
use crate::plans::{add, replace};
use lin_rows::RowFault;
use proof_checker::{Condition, Derivation, check_derivation};
use sqlite_items::Items;
use std::alloc::Global;
use std::test::Fail;
use terms::{Literal, Term};

/// What an equality puts for what.
#[derive(Clone, Copy)]
enum Link {
    /// A symbol and a unit for a symbol.
    OneMore,
    /// Twice a symbol for a symbol.
    Twice,
    /// A symbol and a unit for a symbol and a unit.
    Sum,
    /// A symbol and two units for a symbol and a unit.
    SumMore,
    /// Twice a symbol and a unit for a symbol and a unit.
    TwiceSum,
}

fn one_more(alloc: Global, symbol: u32) -> Result<Term, RowFault> {
    add(alloc, Term::Sym(symbol), Term::Lit(1))
}

fn left(alloc: Global, link: Link, symbol: u32) -> Result<Term, RowFault> {
    match link {
        Link::OneMore => Ok(Term::Sym(symbol)),
        Link::Twice => Ok(Term::Sym(symbol)),
        Link::Sum => one_more(alloc, symbol),
        Link::SumMore => one_more(alloc, symbol),
        Link::TwiceSum => one_more(alloc, symbol),
    }
}

fn right(alloc: Global, link: Link, symbol: u32) -> Result<Term, RowFault> {
    match link {
        Link::OneMore => one_more(alloc, symbol),
        Link::Twice => add(alloc, Term::Sym(symbol), Term::Sym(symbol)),
        Link::Sum => one_more(alloc, symbol),
        Link::SumMore => tower(alloc, symbol, 2),
        Link::TwiceSum => {
            let first = one_more(alloc, symbol)?;
            add(alloc, first, one_more(alloc, symbol)?)
        }
    }
}

/// The equalities, `t <= 0` for the term `t` of the first symbol, and `0 + 1 <= u`. The goal is `1 <= 0`.
fn chained(alloc: Global, link: Link, u: Term) -> Result<Condition, RowFault> {
    let mut hyps = Items::new(alloc);
    for k in 0..40_u32 {
        hyps.push(Literal::Same(left(alloc, link, k)?, right(alloc, link, k + 1)?))?;
    }
    hyps.push(Literal::AtMost(left(alloc, link, 0)?, Term::Lit(0)))?;
    hyps.push(Literal::AtMost(one_more_than_0(alloc)?, u))?;
    Ok(Condition {
        hyps,
        goal: Literal::AtMost(Term::Lit(1), Term::Lit(0)),
    })
}

fn one_more_than_0(alloc: Global) -> Result<Term, RowFault> {
    add(alloc, Term::Lit(0), Term::Lit(1))
}

/// The first equalities put in turn into the literal, and then the end. They add the assumptions from 43 on.
fn forward(alloc: Global, count: u8, end: Derivation) -> Result<Derivation, RowFault> {
    let mut d = end;
    for k in (1..count).rev() {
        d = replace(alloc, k as u32, 42 + k as u32, d)?;
    }
    replace(alloc, 0, 40, d)
}

/// Each equality put into the first one, this one into the literal, which is then the assumption 82, and then the end.
fn into_the_first(alloc: Global, end: Derivation) -> Result<Derivation, RowFault> {
    let mut d = replace(alloc, 81, 40, end)?;
    for k in (2..40_u8).rev() {
        d = replace(alloc, k as u32, 41 + k as u32, d)?;
    }
    replace(alloc, 1, 0, d)
}

/// Each equality put into the one before it, from the last one on, and the first one into the literal.
fn from_the_last(alloc: Global, end: Derivation) -> Result<Derivation, RowFault> {
    let mut d = replace(alloc, 81, 40, end)?;
    for k in 0..38_u8 {
        d = replace(alloc, 80 - k as u32, k as u32, d)?;
    }
    replace(alloc, 39, 38, d)
}

/// A symbol and one unit, so many times.
fn tower(alloc: Global, symbol: u32, units: u32) -> Result<Term, RowFault> {
    let mut t = Term::Sym(symbol);
    for _ in 0..units {
        t = add(alloc, t, Term::Lit(1))?;
    }
    Ok(t)
}

/// Twice a symbol, twice that, and so on, so many times.
fn doubled(alloc: Global, symbol: u32, times: u32) -> Result<Term, RowFault> {
    let mut t = Term::Sym(symbol);
    for _ in 0..times {
        let copy = t.copy(alloc)?;
        t = add(alloc, t, copy)?;
    }
    Ok(t)
}

/// Whether a derivation is accepted of the equalities, the literal and `0 + 1 <= u`.
fn is_accepted(alloc: Global, link: Link, u: Term, d: Derivation) -> Result<bool, RowFault> {
    let c = chained(alloc, link, u)?;
    Ok(check_derivation(&c, &d))
}

/// The three orders in which the equalities are put.
#[derive(Clone, Copy)]
enum Order {
    Forward,
    IntoTheFirst,
    FromTheLast,
}

const ORDERS: [Order; 3] = [Order::Forward, Order::IntoTheFirst, Order::FromTheLast];

/// All equalities put in this order, and then the clash of two assumptions.
fn replacements(alloc: Global, order: Order, i: u32, j: u32) -> Result<Derivation, RowFault> {
    let end = Derivation::Clash(i, j);
    match order {
        Order::Forward => forward(alloc, 40, end),
        Order::IntoTheFirst => into_the_first(alloc, end),
        Order::FromTheLast => from_the_last(alloc, end),
    }
}

/// Whether the literal with all equalities put into it clashes with `0 + 1 <= u`.
fn do_end(alloc: Global, link: Link, u: Term, order: Order) -> Result<bool, RowFault> {
    is_accepted(alloc, link, u, replacements(alloc, order, 41, 82)?)
}

/// Whether all equalities may be put, where the literal clashes with `0 + 1 <= u` before that.
fn are_allowed(alloc: Global, link: Link, u: Term, order: Order) -> Result<bool, RowFault> {
    is_accepted(alloc, link, u, replacements(alloc, order, 40, 41)?)
}

#[test]
fn units_are_added_up(rt: HostRuntime) -> Result<(), Fail> {
    let alloc = rt.alloc();
    for order in ORDERS {
        let units = tower(alloc, 40, 40)?;
        assert!(rt; do_end(alloc, Link::OneMore, units, order)?);
        let less = tower(alloc, 40, 39)?;
        assert!(rt; !do_end(alloc, Link::OneMore, less, order)?);
    }
    Ok(())
}

#[test]
fn sums_are_put_for_sums(rt: HostRuntime) -> Result<(), Fail> {
    let alloc = rt.alloc();
    for order in ORDERS {
        let last = one_more(alloc, 40)?;
        assert!(rt; do_end(alloc, Link::Sum, last, order)?);
        let other = one_more(alloc, 39)?;
        assert!(rt; !do_end(alloc, Link::Sum, other, order)?);
    }
    Ok(())
}

#[test]
fn ten_doublings_are_read_whole(rt: HostRuntime) -> Result<(), Fail> {
    let alloc = rt.alloc();
    let d = forward(alloc, 10, Derivation::Clash(41, 52))?;
    assert!(rt; is_accepted(alloc, Link::Twice, doubled(alloc, 10, 10)?, d)?);
    let d = forward(alloc, 10, Derivation::Clash(41, 52))?;
    assert!(rt; !is_accepted(alloc, Link::Twice, doubled(alloc, 10, 9)?, d)?);
    Ok(())
}

#[test]
fn forty_doublings_of_a_symbol_are_never_built(rt: HostRuntime) -> Result<(), Fail> {
    let alloc = rt.alloc();
    for order in ORDERS {
        assert!(rt; are_allowed(alloc, Link::Twice, Term::Sym(0), order)?);
        assert!(rt; !do_end(alloc, Link::Twice, Term::Sym(0), order)?);
    }
    Ok(())
}

#[test]
fn nor_are_those_of_a_sum(rt: HostRuntime) -> Result<(), Fail> {
    let alloc = rt.alloc();
    let first = one_more(alloc, 0)?;
    assert!(rt; are_allowed(alloc, Link::TwiceSum, first, Order::FromTheLast)?);
    let first = one_more(alloc, 0)?;
    assert!(rt; !do_end(alloc, Link::TwiceSum, first, Order::FromTheLast)?);
    Ok(())
}

#[test]
fn growing_sums_are_put_for_sums(rt: HostRuntime) -> Result<(), Fail> {
    let alloc = rt.alloc();
    let units = tower(alloc, 40, 41)?;
    assert!(rt; do_end(alloc, Link::SumMore, units, Order::FromTheLast)?);
    let less = tower(alloc, 40, 40)?;
    assert!(rt; !do_end(alloc, Link::SumMore, less, Order::FromTheLast)?);
    Ok(())
}

#[test]
fn ten_growing_sums_are_put_forward(rt: HostRuntime) -> Result<(), Fail> {
    let alloc = rt.alloc();
    let d = forward(alloc, 10, Derivation::Clash(41, 52))?;
    assert!(rt; is_accepted(alloc, Link::SumMore, tower(alloc, 10, 11)?, d)?);
    let d = forward(alloc, 10, Derivation::Clash(41, 52))?;
    assert!(rt; !is_accepted(alloc, Link::SumMore, tower(alloc, 10, 10)?, d)?);
    Ok(())
}
