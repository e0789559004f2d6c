// Whether literals clash, by the classes of their terms.
ghost use Rattle.std.specs.Prelude.{◌≡◌, ◌↔◌, IsTrue, IfOk};
ghost use Rattle.std.specs.List.{list_any};
ghost use Rattle.ref_solver.specs.Classes.{AreClasses};
ghost use Rattle.ref_solver.specs.Clashing.{reference_number, Clash};
ghost use Rattle.ref_solver.specs.Opposites.{denies, other_numbers, has_other, mixes, is_false, is_opposed, are_opposed};

use crate::linked::together;
use crate::merging::equal_classes;
use py_base::OutOfMemory;
use sqlite_items::Items;
use std::alloc::Global;
use terms::{Literal, Term};

// Whether the literal says that two terms differ, which are equal.
fn denies(classes: &[Items<Term>], l: &Literal) -> bool
    ensures { result ≡ denies classes.now l.now }
{
    match l {
        Literal::Apart(a, b) => together(classes, a, b),
        _ => false,
    }
}

fn some_denies(lits: &[Literal], classes: &[Items<Term>]) -> bool
    ensures { result ≡ list_any (denies classes.now) lits.now }
{
    lits.iter().any(|l| denies(classes, l))
}

// The number of a reference that is known by its number.
fn reference_number(t: &Term) -> Option<u32>
    ensures { result ≡ reference_number t.now }
{
    match t {
        Term::RefLit(n) => Some(*n),
        Term::Nil => Some(0),
        _ => None,
    }
}

// Whether both are references known by their numbers, and these differ.
fn other_numbers(s: &Term, t: &Term) -> bool
    ensures { result ≡ other_numbers s.now t.now }
{
    match reference_number(s) {
        Some(m) => match reference_number(t) {
            Some(n) => !(m == n),
            None => false,
        },
        None => false,
    }
}

fn has_other(c: &Items<Term>, s: &Term) -> bool
    ensures { result ≡ has_other c.now s.now }
{
    c.as_slice().iter().any(|t| other_numbers(s, t))
}

fn mixes(c: &Items<Term>) -> bool
    ensures { result ≡ mixes c.now }
{
    c.as_slice().iter().any(|s| has_other(c, s))
}

fn some_mixes(classes: &[Items<Term>]) -> bool
    ensures { result ≡ list_any mixes classes.now }
{
    classes.iter().any(mixes)
}

fn is_false(n: u32, l: &Literal) -> bool
    ensures { result ≡ is_false n l.now }
{
    match l {
        Literal::Flag(m, held) => n == *m && !*held,
        _ => false,
    }
}

fn some_is_false(n: u32, lits: &[Literal]) -> bool
    ensures { result ≡ list_any (is_false n) lits.now }
{
    lits.iter().any(|l| is_false(n, l))
}

// Whether the literal says that a flag is true, which another says to be false.
fn is_opposed(lits: &[Literal], l: &Literal) -> bool
    ensures { result ≡ is_opposed lits.now l.now }
{
    match l {
        Literal::Flag(n, held) => *held && some_is_false(*n, lits),
        _ => false,
    }
}

fn some_is_opposed(lits: &[Literal]) -> bool
    ensures { result ≡ list_any (is_opposed lits.now) lits.now }
{
    lits.iter().any(|l| is_opposed(lits, l))
}

fn are_opposed(lits: &[Literal], classes: &[Items<Term>]) -> bool
    ensures { result ≡ are_opposed lits.now classes.now }
{
    some_denies(lits, classes) || some_mixes(classes) || some_is_opposed(lits)
}

// Whether literals with these classes clash.
pub(crate) fn clash(lits: &[Literal], classes: &[Items<Term>]) -> bool
    requires { AreClasses lits.now classes.now }
    ensures { IsTrue result ↔ Clash lits.now }
{
    are_opposed(lits, classes)
}

// Whether literals clash.
pub(crate) fn do_clash(alloc: Global, lits: &[Literal]) -> Result<bool, OutOfMemory>
    ensures { IfOk result (λ b. IsTrue b ↔ Clash lits.now) }
{
    let classes = equal_classes(alloc, lits)?;
    Ok(clash(lits, classes.as_slice()))
}
