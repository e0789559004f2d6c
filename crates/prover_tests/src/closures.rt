// What no clause says: that calls succeed.
ghost use Rattle.std.specs.Prelude.{◌^◌, ◌<◌, length};

use py_base::OutOfMemory;
use ref_solver::*;
use sqlite_items::Items;
use std::alloc::Global;
use std::test::Fail;
use terms::{Literal, Term};

fn same(a: u32, b: u32) -> Literal {
    Literal::Same(Term::RefSym(a), Term::RefSym(b))
}

fn apply(alloc: Global, operand: Term, last: Term) -> Result<Term, OutOfMemory> {
    let mut all = Items::new(alloc);
    all.push(operand)?;
    all.push(last)?;
    Ok(Term::App(4, all))
}

// r0 = r1, r1 = r2, and r3 apart from r4
fn chain(alloc: Global) -> Result<Items<Literal>, OutOfMemory> {
    let mut lits = Items::new(alloc);
    lits.push(same(0, 1))?;
    lits.push(same(1, 2))?;
    lits.push(Literal::Apart(Term::RefSym(3), Term::RefSym(4)))?;
    Ok(lits)
}

// x0 = x1, f(x0) is x2, f(x1) is x3
fn applied(alloc: Global) -> Result<Items<Literal>, OutOfMemory> {
    let left = apply(alloc, Term::Sym(0), Term::Sym(2))?;
    let right = apply(alloc, Term::Sym(1), Term::Sym(3))?;
    let mut lits = Items::new(alloc);
    lits.push(Literal::AtMost(left, right))?;
    lits.push(Literal::Same(Term::Sym(0), Term::Sym(1)))?;
    Ok(lits)
}

// r0 is None, r1 is the reference 0
fn nothing(alloc: Global) -> Result<Items<Literal>, OutOfMemory> {
    let mut lits = Items::new(alloc);
    lits.push(Literal::Same(Term::RefSym(0), Term::Nil))?;
    lits.push(Literal::Same(Term::RefSym(1), Term::RefLit(0)))?;
    lits.push(Literal::Flag(7, true))?;
    Ok(lits)
}

#[test]
fn equal_references_stand_in_one_class(rt: HostRuntime) -> Result<(), Fail> {
    let alloc = rt.alloc();
    let lits = chain(alloc).map_err(|_| "no literals")?;
    let classes = equal_classes(alloc, lits.as_slice()).map_err(|_| "no classes")?;
    assert_eq!(rt; classes.len(), 3);
    Ok(())
}

#[test]
fn results_of_equal_operands_are_equal(rt: HostRuntime) -> Result<(), Fail> {
    let alloc = rt.alloc();
    let lits = applied(alloc).map_err(|_| "no literals")?;
    let classes = equal_classes(alloc, lits.as_slice()).map_err(|_| "no classes")?;
    assert_eq!(rt; classes.len(), 2);
    Ok(())
}

#[test]
fn none_is_the_reference_0(rt: HostRuntime) -> Result<(), Fail> {
    let alloc = rt.alloc();
    let lits = nothing(alloc).map_err(|_| "no literals")?;
    let classes = equal_classes(alloc, lits.as_slice()).map_err(|_| "no classes")?;
    assert_eq!(rt; classes.len(), 1);
    Ok(())
}

#[test]
fn no_literals_have_no_classes(rt: HostRuntime) -> Result<(), Fail> {
    let alloc = rt.alloc();
    let classes = equal_classes(alloc, &[]).map_err(|_| "no classes")?;
    assert_eq!(rt; classes.len(), 0);
    Ok(())
}

fn apart(a: u32, b: u32) -> Literal {
    Literal::Apart(Term::RefSym(a), Term::RefSym(b))
}

// The place of the first clash.
fn first_clash_in(alloc: Global, lits: &[Literal]) -> Result<Option<u32>, OutOfMemory>
    requires { length lits.now < 2 ^ 32 }
{
    let closure = close(alloc, lits)?;
    Ok(closure.clash())
}

// f(x0) is x1 and equal to x0, and f(x1) is x2
fn fixed_point(alloc: Global) -> Result<Items<Literal>, OutOfMemory> {
    let first = apply(alloc, Term::Sym(0), Term::Sym(1))?;
    let second = apply(alloc, Term::Sym(1), Term::Sym(2))?;
    let mut lits = Items::new(alloc);
    lits.push(Literal::Same(first, Term::Sym(0)))?;
    lits.push(Literal::AtMost(second, Term::Lit(0)))?;
    lits.push(Literal::Apart(Term::Sym(0), Term::Sym(2)))?;
    Ok(lits)
}

// f(f(x)), where f(x) is y and f(y) is z
fn applied_twice(alloc: Global, x: u32, y: u32, z: u32) -> Result<Term, OutOfMemory> {
    let inner = apply(alloc, Term::Sym(x), Term::Sym(y))?;
    apply(alloc, inner, Term::Sym(z))
}

// f(f(x0)) is x3, f(f(x4)) is x6, these differ, and last x0 is x4
fn deep(alloc: Global) -> Result<Items<Literal>, OutOfMemory> {
    let left = applied_twice(alloc, 0, 2, 3)?;
    let right = applied_twice(alloc, 4, 5, 6)?;
    let mut lits = Items::new(alloc);
    lits.push(Literal::AtMost(left, right))?;
    lits.push(Literal::Apart(Term::Sym(3), Term::Sym(6)))?;
    lits.push(Literal::AtMost(Term::Lit(1), Term::Sym(3)))?;
    lits.push(Literal::Same(Term::Sym(0), Term::Sym(4)))?;
    lits.push(Literal::Flag(1, true))?;
    Ok(lits)
}

// The closure of a list of a length that a test has.
fn closed(alloc: Global, lits: &[Literal]) -> Result<Closure, OutOfMemory> {
    if 1_000 < lits.len() {
        return Err(OutOfMemory);
    }
    close(alloc, lits)
}

// The first so many literals, or all where there are fewer.
fn front(lits: &[Literal], count: usize) -> &[Literal] {
    if count < lits.len() {
        return &lits[..count];
    }
    lits
}

#[test]
fn a_function_has_one_value_at_its_own_value(rt: HostRuntime) -> Result<(), Fail> {
    let alloc = rt.alloc();
    let lits = fixed_point(alloc).map_err(|_| "no literals")?;
    let closure = closed(alloc, front(lits.as_slice(), 2)).map_err(|_| "no closure")?;
    assert_eq!(rt; closure.are_equal(&Term::Sym(0), &Term::Sym(2)), true);
    assert_eq!(rt; closure.are_equal(&Term::Sym(0), &Term::Lit(0)), false);
    assert_eq!(rt; closure.classes().len(), 2);
    assert_eq!(rt; closure.clash(), None);
    Ok(())
}

#[test]
fn the_first_clash_is_at_the_literal_that_makes_it(rt: HostRuntime) -> Result<(), Fail> {
    let alloc = rt.alloc();
    let lits = fixed_point(alloc).map_err(|_| "no literals")?;
    let closure = closed(alloc, lits.as_slice()).map_err(|_| "no closure")?;
    assert_eq!(rt; closure.clash(), Some(2));
    let own = [same(0, 1), same(1, 2), apart(0, 2), same(3, 4)];
    let place = first_clash_in(alloc, &own).map_err(|_| "no closure")?;
    assert_eq!(rt; place, Some(2));
    let first = [apart(5, 5), same(0, 1)];
    let place = first_clash_in(alloc, &first).map_err(|_| "no closure")?;
    assert_eq!(rt; place, Some(0));
    Ok(())
}

#[test]
fn a_later_equality_makes_a_clash_through_two_applications(rt: HostRuntime) -> Result<(), Fail> {
    let alloc = rt.alloc();
    let lits = deep(alloc).map_err(|_| "no literals")?;
    let closure = closed(alloc, lits.as_slice()).map_err(|_| "no closure")?;
    assert_eq!(rt; closure.are_equal(&Term::Sym(2), &Term::Sym(5)), true);
    assert_eq!(rt; closure.are_equal(&Term::Sym(3), &Term::Sym(6)), true);
    assert_eq!(rt; closure.are_equal(&Term::Sym(0), &Term::Sym(3)), false);
    assert_eq!(rt; closure.clash(), Some(3));
    Ok(())
}

#[test]
fn different_reference_numbers_clash(rt: HostRuntime) -> Result<(), Fail> {
    let alloc = rt.alloc();
    let numbers = [Literal::Same(Term::RefLit(1), Term::RefLit(2))];
    let place = first_clash_in(alloc, &numbers).map_err(|_| "no closure")?;
    assert_eq!(rt; place, Some(0));
    let none = [same(0, 1), Literal::Same(Term::Nil, Term::RefLit(1))];
    let place = first_clash_in(alloc, &none).map_err(|_| "no closure")?;
    assert_eq!(rt; place, Some(1));
    let zero = [Literal::Same(Term::Nil, Term::RefLit(0)), same(0, 1)];
    let place = first_clash_in(alloc, &zero).map_err(|_| "no closure")?;
    assert_eq!(rt; place, None);
    Ok(())
}

#[test]
fn a_flag_both_ways_clashes(rt: HostRuntime) -> Result<(), Fail> {
    let alloc = rt.alloc();
    let both = [
        Literal::Flag(7, true),
        Literal::Flag(8, false),
        Literal::Flag(7, true),
        Literal::Flag(7, false),
        Literal::Flag(8, true),
    ];
    let place = first_clash_in(alloc, &both).map_err(|_| "no closure")?;
    assert_eq!(rt; place, Some(3));
    let other = [Literal::Flag(7, true), Literal::Flag(8, false)];
    let place = first_clash_in(alloc, &other).map_err(|_| "no closure")?;
    assert_eq!(rt; place, None);
    Ok(())
}

#[test]
fn literals_that_do_not_clash_have_no_place(rt: HostRuntime) -> Result<(), Fail> {
    let alloc = rt.alloc();
    let lits = chain(alloc).map_err(|_| "no literals")?;
    let closure = closed(alloc, lits.as_slice()).map_err(|_| "no closure")?;
    assert_eq!(rt; closure.clash(), None);
    assert_eq!(rt; closure.classes().len(), 3);
    let place = first_clash_in(alloc, &[]).map_err(|_| "no closure")?;
    assert_eq!(rt; place, None);
    Ok(())
}
