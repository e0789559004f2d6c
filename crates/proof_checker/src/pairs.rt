// Terms that a condition compares.
ghost use Rattle.std.specs.Prelude.{◌≡◌, ◌↔◌, ◌&&◌, IsTrue, Some};
ghost use Rattle.terms.specs.Fitting.{sides_of};
ghost use Rattle.terms.specs.Sameness.{same_term};
ghost use Rattle.proof_checker.specs.Conditions.{literals_of};
ghost use Rattle.proof_checker.specs.Derivations.{ArePair};
ghost use Rattle.proof_checker.specs.Uses.{application_of};
ghost use Rattle.proof_checker.specs.Pairs.{AreSides, AreOperands, placed, anywhere, is_applied, is_applying};

use crate::condition::Condition;
use crate::walk::{Before, Choice, Use, is_any, same_terms, sides};
use terms::{Literal, Term};

// The applications that have the second term where another application has the first one.
#[derive(Clone, Copy)]
struct Applied<'a> {
    f: Use<'a>,
    a: &'a Term,
    b: &'a Term,
}

impl<'c> Choice for Applied<'c> {
    ghost chooses = { λ s. anywhere (is_applied (application_of s.f) s.a.now s.b.now) };

    fn is_chosen<'a, 'b>(&self, _: &'b Before<'b>, _: &'a Term, u: Use<'a>) -> bool {
        self.f.operator == u.operator && are_placed(self.f.operands, u.operands, self.a, self.b)
    }
}

// The applications for which there is such another one.
#[derive(Clone, Copy)]
struct Applying<'a> {
    c: &'a Condition,
    a: &'a Term,
    b: &'a Term,
}

impl<'c> Choice for Applying<'c> {
    ghost chooses = { λ s. anywhere (is_applying s.c.now s.a.now s.b.now) };

    fn is_chosen<'a, 'b>(&self, _: &'b Before<'b>, _: &'a Term, u: Use<'a>) -> bool {
        is_any(
            &Applied {
                f: u,
                a: self.a,
                b: self.b,
            },
            self.c,
        )
    }
}

fn are_both(x: &Term, a: &Term, y: &Term, b: &Term) -> bool
    ensures { result ≡ (same_term x.now a.now && same_term y.now b.now) }
{
    same_terms(x, a) && same_terms(y, b)
}

// Whether two lists have two terms in one place.
fn are_placed<'a, 'b>(xs: &'a [Term], ys: &'b [Term], a: &Term, b: &Term) -> bool
    ensures { result ≡ placed xs.now ys.now a.now b.now }
{
    match xs {
        [] => false,
        [x, more @ ..] => match ys {
            [] => false,
            [y, others @ ..] => {
                if are_both(x, a, y, b) {
                    true
                } else {
                    are_placed(more, others, a, b)
                }
            }
        },
    }
}

// Whether two terms are the sides of a literal.
fn are_sides_of(l: &Literal, a: &Term, b: &Term) -> bool
    ensures { IsTrue result ↔ (sides_of l.now ≡ Some (a.now, b.now)) }
{
    match sides(l) {
        None => false,
        Some((x, y)) => are_both(x, a, y, b),
    }
}

// Whether two terms are the sides of one of the literals.
fn are_sides_in(ls: &[Literal], a: &Term, b: &Term) -> bool
    ensures { IsTrue result ↔ AreSides ls.now a.now b.now }
{
    match ls {
        [] => false,
        [l, more @ ..] => {
            if are_sides_of(l, a, b) {
                true
            } else {
                are_sides_in(more, a, b)
            }
        }
    }
}

fn are_sides(c: &Condition, a: &Term, b: &Term) -> bool
    ensures { IsTrue result ↔ AreSides (literals_of c.now) a.now b.now }
{
    if are_sides_of(&c.goal, a, b) {
        true
    } else {
        are_sides_in(c.hyps.as_slice(), a, b)
    }
}

fn are_operands(c: &Condition, a: &Term, b: &Term) -> bool
    ensures { IsTrue result ↔ AreOperands (literals_of c.now) a.now b.now }
{
    is_any(&Applying { c, a, b }, c)
}

/// Whether a condition compares two terms, in either order.
pub fn are_pair(c: &Condition, a: &Term, b: &Term) -> bool
    ensures { IsTrue result ↔ ArePair c.now a.now b.now }
{
    if are_sides(c, a, b) {
        true
    } else if are_sides(c, b, a) {
        true
    } else {
        are_operands(c, a, b)
    }
}
