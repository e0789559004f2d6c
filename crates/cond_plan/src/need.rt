// Comparisons that aren't settled at a point.
ghost use Rattle.std.specs.Prelude.{All, MatchOption};
ghost use Rattle.proof_checker.specs.Derivations.{AreNumbers};
ghost use Rattle.cond_plan.specs.PointValues.{IsMet};
ghost use Rattle.cond_plan.specs.Needs.{IsSettled, IsNeeded, IsNeededAmong};

use crate::assumed::{Relation, are_assumed};
use crate::known::{are_known_apart, are_known_equal};
use crate::plan::Comparison;
use lin_rows::Point;
use terms::Literal;

/// What is to be split on for two numbers.
#[derive(Clone, Copy, Debug, PartialEq, Eq, Drop)]
pub enum Need {
    /// Whether they are equal.
    Equality,
    /// Which of them is the lesser one.
    Side,
}

/// The place of a comparison, and what is to be split on for it.
#[derive(Clone, Copy, Debug, PartialEq, Eq, Drop)]
pub struct Needed {
    pub place: usize,
    pub need: Need,
}

/// The first comparison that isn't settled at a point where the orders and equalities among the
/// assumptions hold.
pub fn first_need(p: &Point, facts: &[Literal], comparisons: &[Comparison]) -> Option<Needed>
    requires met { IsMet facts.now p.now }
    requires numbers { All (λ k. AreNumbers k.left k.right) comparisons.now }
    ensures { MatchOption result (All (IsSettled p.now facts.now) comparisons.now) (IsNeededAmong facts.now comparisons.now) }
{
    for (place, k) in comparisons.iter().enumerate() {
        if let Some(need) = need_of(p, facts, k) {
            return Some(Needed { place, need });
        }
    }
    None
}

fn need_of(p: &Point, facts: &[Literal], k: &Comparison) -> Option<Need>
    requires met { IsMet facts.now p.now }
    requires numbers { AreNumbers k.now.left k.now.right }
    ensures { MatchOption result (IsSettled p.now facts.now k.now) (IsNeeded facts.now k.now) }
{
    if are_known_apart(p, facts, &k.left, &k.right) {
        None
    } else if are_assumed(facts, Relation::Apart, &k.left, &k.right) {
        Some(Need::Side)
    } else if are_known_equal(p, facts, &k.left, &k.right) {
        None
    } else {
        Some(Need::Equality)
    }
}
