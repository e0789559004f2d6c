// Applications that a condition numbers, and what follows from two of them.
ghost use Rattle.std.specs.Prelude.{◌≡◌, ◌↔◌, [], IsTrue, IfSome, IfNone, MatchOption};
ghost use Rattle.terms.specs.declared.Literal.{Literal};
ghost use Rattle.terms.specs.declared.Literal.TheVariants as lit;
ghost use Rattle.terms.specs.Fitting.{Application, terms_in};
ghost use Rattle.proof_checker.specs.Conditions.{literals_of, plain_literal};
ghost use Rattle.proof_checker.specs.Derivations.{Numbered};
ghost use Rattle.proof_checker.specs.Chains.{facts, view_literal};
ghost use Rattle.proof_checker.specs.Uses.{application_of, is_new, Congruence, IsCongruent};

use crate::chain::Chain;
use crate::condition::Condition;
use crate::rules::are_equal;
use crate::side::whole;
use crate::view::{Kind, View};
use crate::walk::{Before, Choice, Counted, Use, count_in, has_before};
use terms::Term;

// The terms that don't stand before.
#[derive(Clone, Copy)]
struct New;

impl Choice for New {
    ghost chooses = { λ s. is_new };

    fn is_chosen<'a, 'b>(&self, before: &'b Before<'b>, t: &'a Term, _: Use<'a>) -> bool {
        !has_before(&*before, t)
    }
}

/// The application of a number in a condition.
pub fn application<'a>(c: &'a Condition, n: u32) -> Option<Use<'a>>
    ensures some { IfSome result (λ u. Numbered [] (terms_in (literals_of c.now)) n (application_of u)) }
    ensures none { IfNone result ((f : Application) → ¬ (Numbered [] (terms_in (literals_of c.now)) n f)) }
{
    match count_in(&New, c, n) {
        Counted::Is(found) => Some(found),
        Counted::Past(_) => None,
    }
}

// The equality of the results of two applications.
fn same_results<'a>(f: Use<'a>, g: Use<'a>) -> View<'a>
    ensures { view_literal result ≡ plain_literal (lit.Same f.entry.result.now g.entry.result.now) }
{
    View::Sides(Kind::Same, whole(f.result), whole(g.result))
}

// Whether two applications are of one operator, their operands the same or assumed to be so.
fn are_congruent<'a>(chain: &'a Chain<'a>, f: Use<'a>, g: Use<'a>) -> bool
    ensures { IsTrue result ↔ IsCongruent (facts chain.now) (application_of f.entry) (application_of g.entry) }
{
    f.operator == g.operator && are_equal(&*chain, f.operands, g.operands)
}

// The equality of the results of two applications, where it follows.
fn follows<'a>(chain: &'a Chain<'a>, f: Use<'a>, g: Use<'a>) -> Option<View<'a>>
    ensures { MatchOption result (¬ (IsCongruent (facts chain.now) (application_of f.entry) (application_of g.entry)))
        (λ v. IsCongruent (facts chain.now) (application_of f.entry) (application_of g.entry) × (view_literal v ≡ plain_literal (lit.Same f.entry.result.now g.entry.result.now))) }
{
    if are_congruent(&*chain, f, g) {
        Some(same_results(f, g))
    } else {
        None
    }
}

/// The equality of the results of two applications of one operator whose operands are the same or
/// assumed to be so.
#[inline(never)]
pub fn congruence<'a>(c: &'a Condition, chain: &'a Chain<'a>, i: u32, j: u32) -> Option<View<'a>>
    ensures some { IfSome result (λ v. (k : Literal) → Congruence c.now (facts chain.now) i j k ↔ (k ≡ view_literal v)) }
    ensures none { IfNone result ((k : Literal) → ¬ (Congruence c.now (facts chain.now) i j k)) }
{
    match application(c, i) {
        None => None,
        Some(f) => match application(c, j) {
            None => None,
            Some(g) => follows(&*chain, f, g),
        },
    }
}
