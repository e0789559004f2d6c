// The search.
ghost use Rattle.std.specs.Prelude.{◌++◌, ◌∷◌, [], All, IfOk};
ghost use Rattle.proof_checker.specs.Conditions.{IsSorted};
ghost use Rattle.proof_checker.specs.Derivations.{DerivesFrom};
ghost use Rattle.cond_plan.specs.Plans.{IsPlan};
ghost use Rattle.cond_facts.specs.ConditionPoints.{AreFormsWithin, IsNarrow};
ghost use Rattle.cond_facts.specs.Decisions.{IsFactOf, IsApartListed};
ghost use Rattle.cond_search.specs.Verdicts.{IsDecision, IsDecided};
ghost use Rattle.cond_search.specs.Steps.{IsBegun, IsNext, IsNextSplit, IsNextCongruence};

use crate::decided::Decided;
use crate::derived::{with_congruence, with_split};
use crate::literals::extended;
use crate::next::next_step;
use crate::step::{Congruence, Split, Step};
use cond_plan::Plan;
use proof_checker::{Condition, Derivation};
use py_base::OutOfMemory;
use std::alloc::Global;
use terms::Literal;

/// Decides the numbers among assumptions that a condition gives rise to: a derivation that they can't hold, a
/// point where they do and that fits the condition, or a wide point of the condition. It splits on whether compared
/// numbers or operands are equal, and on which side of each other they lie, only where a point leaves it open.
pub fn decide(
    alloc: Global,
    c: &Condition,
    plan: &Plan,
    facts: &[Literal],
) -> Result<Decided, OutOfMemory>
    requires sorted { IsSorted c.now }
    requires plan { IsPlan c.now plan.now }
    requires forms { AreFormsWithin c.now }
    requires facts { All (IsFactOf c.now) facts.now }
    requires apart { All (IsApartListed plan.now) facts.now }
    ensures answer { IfOk result (IsDecision c.now facts.now) }
    ensures narrow { IsNarrow c.now → IfOk result IsDecided }
{
    search(alloc, c, plan, facts)
}

#[cycle(search)]
fn search(
    alloc: Global,
    c: &Condition,
    plan: &Plan,
    facts: &[Literal],
) -> Result<Decided, OutOfMemory>
    requires { IsBegun c.now plan.now facts.now }
    ensures answer { IfOk result (IsDecision c.now facts.now) }
    ensures narrow { IsNarrow c.now → IfOk result IsDecided }
{
    match next_step(alloc, c, plan, facts)? {
        Step::Done(decided) => Ok(decided),
        Step::Split(split) => {
            let decided = search_split(alloc, c, plan, facts, &split);
            drop(split);
            decided
        }
        Step::Congruence(congruence) => {
            let decided = search_congruence(alloc, c, plan, facts, &congruence);
            drop(congruence);
            decided
        }
    }
}

// The search where a literal is assumed too.
#[cycle(search)]
fn search_with(
    alloc: Global,
    c: &Condition,
    plan: &Plan,
    facts: &[Literal],
    l: &Literal,
) -> Result<Decided, OutOfMemory>
    requires begun { IsBegun c.now plan.now facts.now }
    requires next { IsNext c.now plan.now facts.now l.now }
    ensures answer { IfOk result (IsDecision c.now (facts.now ++ l.now ∷ [])) }
    ensures narrow { IsNarrow c.now → IfOk result IsDecided }
{
    let more = extended(alloc, facts, l)?;
    let decided = search(alloc, c, plan, more.as_slice());
    drop(more);
    decided
}

// The search where one of two literals holds.
#[cycle(search)]
fn search_split(
    alloc: Global,
    c: &Condition,
    plan: &Plan,
    facts: &[Literal],
    split: &Split,
) -> Result<Decided, OutOfMemory>
    requires begun { IsBegun c.now plan.now facts.now }
    requires split { IsNextSplit c.now plan.now facts.now split.now }
    ensures answer { IfOk result (IsDecision c.now facts.now) }
    ensures narrow { IsNarrow c.now → IfOk result IsDecided }
{
    match search_with(alloc, c, plan, facts, &split.first)? {
        Decided::Refuted(held) => search_other(alloc, c, plan, facts, split, held),
        Decided::Fits(p) => Ok(Decided::Fits(p)),
        Decided::Wide(w) => Ok(Decided::Wide(w)),
    }
}

// The search where the first of two literals is refuted.
#[cycle(search)]
fn search_other(
    alloc: Global,
    c: &Condition,
    plan: &Plan,
    facts: &[Literal],
    split: &Split,
    held: Derivation,
) -> Result<Decided, OutOfMemory>
    requires begun { IsBegun c.now plan.now facts.now }
    requires split { IsNextSplit c.now plan.now facts.now split.now }
    requires held { DerivesFrom c.now (facts.now ++ split.now.first ∷ []) held }
    ensures answer { IfOk result (IsDecision c.now facts.now) }
    ensures narrow { IsNarrow c.now → IfOk result IsDecided }
{
    match search_with(alloc, c, plan, facts, &split.second) {
        Ok(other) => with_split(alloc, c, facts, split, held, other),
        Err(e) => {
            drop(held);
            Err(e)
        }
    }
}

// The search where two results are equal.
#[cycle(search)]
fn search_congruence(
    alloc: Global,
    c: &Condition,
    plan: &Plan,
    facts: &[Literal],
    congruence: &Congruence,
) -> Result<Decided, OutOfMemory>
    requires begun { IsBegun c.now plan.now facts.now }
    requires congruence { IsNextCongruence c.now plan.now facts.now congruence.now }
    ensures answer { IfOk result (IsDecision c.now facts.now) }
    ensures narrow { IsNarrow c.now → IfOk result IsDecided }
{
    let rest = search_with(alloc, c, plan, facts, &congruence.results)?;
    with_congruence(alloc, c, facts, congruence, rest)
}
