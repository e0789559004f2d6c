// What no clause says: that calls succeed, at numbers near the ends of 128 bits too.
use lin_rows::RowFault;
use py_base::OutOfMemory;
use sqlite_items::{Boxed, Items};
use std::alloc::Global;
use std::test::Fail;
use terms::{Literal, Term, normal};

const MIN: i128 = i128::MIN;

const MAX: i128 = i128::MAX;

const HALF: i128 = 1 << 126;

fn add(alloc: Global, a: Term, b: Term) -> Result<Term, OutOfMemory> {
    Ok(Term::Add(Boxed::new(alloc, a)?, Boxed::new(alloc, b)?))
}

fn scale(alloc: Global, k: i128, a: Term) -> Result<Term, OutOfMemory> {
    Ok(Term::Scale(k, Boxed::new(alloc, a)?))
}

fn apply(alloc: Global, operand: Term, last: Term) -> Result<Term, OutOfMemory> {
    let mut all = Items::new(alloc);
    all.push(operand)?;
    all.push(last)?;
    Ok(Term::App(4, all))
}

// 2 * (x3 + 3) + (x1 - 5 * x3)
fn mixed(alloc: Global) -> Result<Term, OutOfMemory> {
    let left = scale(alloc, 2, add(alloc, Term::Sym(3), Term::Lit(3))?)?;
    let right = add(alloc, Term::Sym(1), scale(alloc, -5, Term::Sym(3))?)?;
    add(alloc, left, right)
}

// x2 - x2 + MAX + MIN
fn cancelled(alloc: Global) -> Result<Term, OutOfMemory> {
    let left = add(alloc, Term::Sym(2), scale(alloc, -1, Term::Sym(2))?)?;
    let right = add(alloc, Term::Lit(MAX), Term::Lit(MIN))?;
    add(alloc, left, right)
}

// an application of 9 to x7, as the symbol of its result
fn applied(alloc: Global) -> Result<Term, OutOfMemory> {
    apply(alloc, Term::Lit(9), Term::Sym(7))
}

fn too_large(alloc: Global) -> Result<Term, OutOfMemory> {
    add(alloc, Term::Lit(MAX), Term::Lit(1))
}

#[test]
fn forms_have_the_coefficients_in_order(rt: HostRuntime) -> Result<(), Fail> {
    let alloc = rt.alloc();
    let t = mixed(alloc).map_err(|_| "no term")?;
    let form = normal(alloc, &t).map_err(|_| "no form")?;
    assert_eq!(rt; form.coefs.as_slice(), [(1, 1), (3, -3)].as_slice());
    assert_eq!(rt; form.bound, 6);
    Ok(())
}

#[test]
fn a_coefficient_that_is_cancelled_is_not_kept(rt: HostRuntime) -> Result<(), Fail> {
    let alloc = rt.alloc();
    let t = cancelled(alloc).map_err(|_| "no term")?;
    let form = normal(alloc, &t).map_err(|_| "no form")?;
    assert_eq!(rt; form.coefs.as_slice().len(), 0);
    assert_eq!(rt; form.bound, -1);
    Ok(())
}

#[test]
fn an_application_has_the_form_of_its_last_term(rt: HostRuntime) -> Result<(), Fail> {
    let alloc = rt.alloc();
    let t = applied(alloc).map_err(|_| "no term")?;
    let form = normal(alloc, &t).map_err(|_| "no form")?;
    assert_eq!(rt; form.coefs.as_slice(), [(7, 1)].as_slice());
    assert_eq!(rt; form.bound, 0);
    Ok(())
}

// Whether the form of the term is too wide.
fn is_wide(alloc: Global, t: &Term) -> bool {
    match normal(alloc, t) {
        Ok(_) => false,
        Err(fault) => fault == RowFault::Wide,
    }
}

#[test]
fn a_number_outside_128_bits_is_wide(rt: HostRuntime) -> Result<(), Fail> {
    let alloc = rt.alloc();
    let sum = too_large(alloc).map_err(|_| "no sum")?;
    assert!(rt; is_wide(alloc, &sum));
    let twice = scale(alloc, 4, Term::Sym(0)).map_err(|_| "no multiple")?;
    let multiple = scale(alloc, HALF, twice).map_err(|_| "no multiple")?;
    assert!(rt; is_wide(alloc, &multiple));
    Ok(())
}

#[test]
fn so_is_one_of_a_term_within(rt: HostRuntime) -> Result<(), Fail> {
    let alloc = rt.alloc();
    let inner = too_large(alloc).map_err(|_| "no sum")?;
    let none = scale(alloc, 0, inner).map_err(|_| "no multiple")?;
    assert!(rt; is_wide(alloc, &none));
    let inner = too_large(alloc).map_err(|_| "no sum")?;
    let back = add(alloc, inner, Term::Lit(-1)).map_err(|_| "no sum")?;
    assert!(rt; is_wide(alloc, &back));
    let inner = too_large(alloc).map_err(|_| "no sum")?;
    let applied = apply(alloc, inner, Term::Sym(0)).map_err(|_| "no application")?;
    assert!(rt; is_wide(alloc, &applied));
    Ok(())
}

#[test]
fn a_copy_is_equal(rt: HostRuntime) -> Result<(), Fail> {
    let alloc = rt.alloc();
    let t = mixed(alloc).map_err(|_| "no term")?;
    let copy = t.copy(alloc).map_err(|_| "no copy")?;
    assert!(rt; t.is_same(&copy));
    let literal = Literal::AtMost(t, Term::Lit(MIN));
    let copy = literal.copy(alloc).map_err(|_| "no copy")?;
    assert!(rt; literal.is_same(&copy));
    Ok(())
}

#[test]
fn terms_that_differ_within_are_not_the_same(rt: HostRuntime) -> Result<(), Fail> {
    let alloc = rt.alloc();
    let first = apply(alloc, Term::Sym(1), Term::Sym(7)).map_err(|_| "no application")?;
    let other = apply(alloc, Term::Sym(2), Term::Sym(7)).map_err(|_| "no application")?;
    let short = Term::App(4, Items::new(alloc));
    assert!(rt; first.is_same(&first));
    assert!(rt; !first.is_same(&other));
    assert!(rt; !first.is_same(&short));
    assert!(rt; !Term::Nil.is_same(&Term::RefLit(0)));
    assert!(rt; !Term::Sym(3).is_same(&Term::RefSym(3)));
    let same = Literal::Same(first, Term::Nil);
    let apart = Literal::Apart(other, Term::Nil);
    assert!(rt; !same.is_same(&apart));
    Ok(())
}

#[test]
fn sorts_tell_numbers_from_references(rt: HostRuntime) -> Result<(), Fail> {
    let alloc = rt.alloc();
    let number = mixed(alloc).map_err(|_| "no term")?;
    let mixture = apply(alloc, Term::Nil, Term::Sym(0)).map_err(|_| "no application")?;
    let empty = Term::App(4, Items::new(alloc));
    assert!(rt; number.is_of_numbers());
    assert!(rt; !number.is_of_references());
    assert!(rt; !mixture.is_of_numbers());
    assert!(rt; !mixture.is_of_references());
    assert!(rt; !empty.is_of_numbers());
    assert!(rt; Term::RefLit(0).is_of_references());
    assert!(rt; !Literal::AtMost(number, Term::Nil).is_sorted());
    assert!(rt; Literal::Same(Term::RefSym(1), Term::Nil).is_sorted());
    assert!(rt; Literal::Apart(Term::Sym(1), Term::Lit(0)).is_sorted());
    assert!(rt; !Literal::Same(Term::RefSym(1), Term::Lit(0)).is_sorted());
    assert!(rt; Literal::Flag(0, true).is_sorted());
    Ok(())
}
