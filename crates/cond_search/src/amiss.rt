// What is amiss at a point.
ghost use Rattle.std.specs.Prelude.{All, MatchOption};
ghost use Rattle.cond_plan.specs.PointValues.{IsMet};
ghost use Rattle.cond_plan.specs.Needs.{IsSettled, IsNeededAmong, AreCongruentAt, IsRepair};
ghost use Rattle.cond_facts.specs.Decisions.{IsFittingPoint};
ghost use Rattle.cond_search.specs.Steps.{IsBegun, IsAmiss};

use cond_plan::{Needed, Plan, Repair, first_need, first_repair};
use lin_rows::Point;
use proof_checker::Condition;
use terms::Literal;

/// What is amiss at a point where the orders and equalities among assumptions hold.
#[derive(Clone, Copy, Debug, Drop)]
pub(crate) enum Amiss {
    /// A comparison isn't settled.
    Comparison(Needed),
    /// Two applications aren't congruent.
    Applications(Repair),
}

// The first comparison that isn't settled at a point.
fn need_at(c: &Condition, plan: &Plan, facts: &[Literal], p: &Point) -> Option<Needed>
    requires begun { IsBegun c.now plan.now facts.now }
    requires met { IsMet facts.now p.now }
    ensures { MatchOption result (All (IsSettled p.now facts.now) plan.now.comparisons) (IsNeededAmong facts.now plan.now.comparisons) }
{
    first_need(p, facts, plan.comparisons.as_slice())
}

// What two applications ask for there, where the comparisons are settled.
fn repair_at(c: &Condition, plan: &Plan, facts: &[Literal], p: &Point) -> Option<Repair>
    requires begun { IsBegun c.now plan.now facts.now }
    requires met { IsMet facts.now p.now }
    requires settled { All (IsSettled p.now facts.now) plan.now.comparisons }
    ensures { MatchOption result (AreCongruentAt p.now plan.now.applications) (IsRepair facts.now plan.now.applications) }
{
    first_repair(p, facts, plan.applications.as_slice())
}

/// What is amiss at a point where the orders and equalities among the assumptions hold, unless it fits the
/// condition.
pub(crate) fn amiss_at(c: &Condition, plan: &Plan, facts: &[Literal], p: &Point) -> Option<Amiss>
    requires begun { IsBegun c.now plan.now facts.now }
    requires met { IsMet facts.now p.now }
    ensures { MatchOption result (IsFittingPoint c.now facts.now p.now) (IsAmiss facts.now plan.now) }
{
    match need_at(c, plan, facts, p) {
        Some(needed) => Some(Amiss::Comparison(needed)),
        None => match repair_at(c, plan, facts, p) {
            Some(repair) => Some(Amiss::Applications(repair)),
            None => None,
        },
    }
}
