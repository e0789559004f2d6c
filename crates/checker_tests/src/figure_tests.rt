// What no clause says: the numbers and symbols of sides written out.
use proof_checker::*;
use py_base::OutOfMemory;
use sqlite_items::{Boxed, Items};
use std::alloc::Global;
use std::test::Fail;
use terms::Term;

const MAX: i128 = i128::MAX;

fn add(alloc: Global, a: Term, b: Term) -> Result<Term, OutOfMemory> {
    Ok(Term::Add(Boxed::new(alloc, a)?, Boxed::new(alloc, b)?))
}

fn scale(alloc: Global, k: i128, a: Term) -> Result<Term, OutOfMemory> {
    Ok(Term::Scale(k, Boxed::new(alloc, a)?))
}

// 2 * (x3 + 3) + x1
fn mixed(alloc: Global) -> Result<Term, OutOfMemory> {
    let left = scale(alloc, 2, add(alloc, Term::Sym(3), Term::Lit(3))?)?;
    add(alloc, left, Term::Sym(1))
}

// `first` and x7, as operand and result
fn applied(alloc: Global, first: Term) -> Result<Term, OutOfMemory> {
    let mut all = Items::new(alloc);
    all.push(first)?;
    all.push(Term::Sym(7))?;
    Ok(Term::App(4, all))
}

#[test]
fn a_side_has_the_numbers_of_its_linear_form(rt: HostRuntime) -> Result<(), Fail> {
    let t = mixed(rt.alloc()).map_err(|_| "no term")?;
    let side = whole(&t);
    assert_eq!(rt; figure(&side, Figure::Coefficient(3)), Some(2));
    assert_eq!(rt; figure(&side, Figure::Coefficient(1)), Some(1));
    assert_eq!(rt; figure(&side, Figure::Coefficient(2)), Some(0));
    assert_eq!(rt; figure(&side, Figure::Units), Some(6));
    Ok(())
}

#[test]
fn the_symbols_of_a_side_come_in_order(rt: HostRuntime) -> Result<(), Fail> {
    let t = mixed(rt.alloc()).map_err(|_| "no term")?;
    let side = whole(&t);
    assert_eq!(rt; next_symbol(&side, 0), Some(1));
    assert_eq!(rt; next_symbol(&side, 2), Some(3));
    assert_eq!(rt; next_symbol(&side, 4), None);
    Ok(())
}

#[test]
fn the_greatest_symbol_is_the_last(rt: HostRuntime) -> Result<(), Fail> {
    let t = Term::Sym(u32::MAX);
    let side = whole(&t);
    assert_eq!(rt; next_symbol(&side, 0), Some(u32::MAX));
    assert_eq!(rt; next_symbol(&side, u32::MAX as u64 + 1), None);
    assert!(rt; has_row(&side, &side));
    Ok(())
}

#[test]
fn an_operand_too_large_has_no_row(rt: HostRuntime) -> Result<(), Fail> {
    let alloc = rt.alloc();
    let sum = add(alloc, Term::Lit(MAX), Term::Lit(1)).map_err(|_| "no term")?;
    let t = applied(alloc, sum).map_err(|_| "no term")?;
    let side = whole(&t);
    assert_eq!(rt; figure(&side, Figure::Units), None);
    assert_eq!(rt; figure(&side, Figure::Coefficient(7)), Some(1));
    assert!(rt; !has_row(&side, &side));
    Ok(())
}

// `k` times x2
fn multiple_of(alloc: Global, k: i128) -> Result<Term, OutOfMemory> {
    scale(alloc, k, Term::Sym(2))
}

#[test]
fn a_difference_just_within_has_a_row(rt: HostRuntime) -> Result<(), Fail> {
    let alloc = rt.alloc();
    let large = multiple_of(alloc, MAX).map_err(|_| "no term")?;
    let less = multiple_of(alloc, -1).map_err(|_| "no term")?;
    let none = multiple_of(alloc, 0).map_err(|_| "no term")?;
    assert!(rt; has_row(&whole(&large), &whole(&none)));
    assert!(rt; !has_row(&whole(&large), &whole(&less)));
    Ok(())
}

#[test]
fn a_replaced_side_has_the_numbers_of_what_was_put(rt: HostRuntime) -> Result<(), Fail> {
    let t = mixed(rt.alloc()).map_err(|_| "no term")?;
    let from = Term::Sym(3);
    let to = Term::Lit(5);
    let old = whole(&from);
    let new = whole(&to);
    let of = whole(&t);
    let side = put_in_side(&old, &new, &of);
    assert_eq!(rt; figure(&side, Figure::Units), Some(16));
    assert_eq!(rt; figure(&side, Figure::Coefficient(3)), Some(0));
    assert_eq!(rt; next_symbol(&side, 2), None);
    Ok(())
}
