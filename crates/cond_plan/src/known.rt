// What is known of two numbers at a point where the orders and equalities among assumptions hold.
ghost use Rattle.std.specs.Prelude.{MatchBool};
ghost use Rattle.proof_checker.specs.Derivations.{AreNumbers};
ghost use Rattle.cond_plan.specs.PointValues.{IsMet, AreApartAt, AreEqualAt};
ghost use Rattle.cond_plan.specs.Known.{AreAssumedSame, AreNotOrdered};

use crate::assumed::{Relation, are_assumed};
use crate::gap::{Gap, gap_of};
use lin_rows::Point;
use terms::{Literal, Term};

/// Whether two numbers are known to be apart, by an order that is assumed or by what they are.
pub(crate) fn are_known_apart(p: &Point, facts: &[Literal], a: &Term, b: &Term) -> bool
    requires met { IsMet facts.now p.now }
    requires numbers { AreNumbers a.now b.now }
    ensures { MatchBool result (AreApartAt p.now a.now b.now) (AreNotOrdered facts.now a.now b.now) }
{
    if are_assumed(facts, Relation::Below, a, b) {
        true
    } else if are_assumed(facts, Relation::Below, b, a) {
        true
    } else {
        match gap_of(p, a, b) {
            Gap::Far => true,
            Gap::Equal | Gap::Unknown => false,
        }
    }
}

/// Whether two numbers are known to be equal, by what they are or as it is assumed.
pub(crate) fn are_known_equal(p: &Point, facts: &[Literal], a: &Term, b: &Term) -> bool
    requires met { IsMet facts.now p.now }
    requires numbers { AreNumbers a.now b.now }
    ensures { MatchBool result (AreEqualAt p.now a.now b.now) (¬ (AreAssumedSame facts.now a.now b.now)) }
{
    match gap_of(p, a, b) {
        Gap::Equal => true,
        Gap::Far | Gap::Unknown => are_assumed(facts, Relation::Same, a, b),
    }
}
