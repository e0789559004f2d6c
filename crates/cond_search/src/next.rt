// The next step of the search.
ghost use Rattle.std.specs.Prelude.{IfOk};
ghost use Rattle.cond_plan.specs.PointValues.{IsMet};
ghost use Rattle.cond_plan.specs.Needs.{IsNeededAmong, IsRepair};
ghost use Rattle.cond_plan.specs.declared.Repair.TheVariants as repairs;
ghost use Rattle.cond_facts.specs.ConditionPoints.{IsNarrow};
ghost use Rattle.cond_search.specs.Steps.{IsBegun, IsProposedSplit, IsProposedCongruence, IsAmiss, IsStep, IsNarrowStep};

use crate::amiss::{Amiss, amiss_at};
use crate::decided::Decided;
use crate::literals::{are_rows_within, equality, same, split_of};
use crate::members::{applied_at, comparison_at, number_of, operand_at};
use crate::step::{Congruence, Split, Step, wide_row};
use cond_facts::{RowOutcome, do_rows_fit, solve_rows};
use cond_plan::{Needed, Plan, Repair};
use lin_rows::Point;
use proof_checker::Condition;
use py_base::OutOfMemory;
use std::alloc::Global;
use terms::Literal;

// A split, unless one of its rows is too wide.
fn split_step(
    alloc: Global,
    c: &Condition,
    plan: &Plan,
    facts: &[Literal],
    split: Split,
    place: u32,
) -> Result<Step, OutOfMemory>
    requires begun { IsBegun c.now plan.now facts.now }
    requires proposed { IsProposedSplit c.now plan.now facts.now place split }
    ensures step { IfOk result (IsStep c.now plan.now facts.now) }
    ensures narrow { IsNarrow c.now → IfOk result IsNarrowStep }
{
    if are_rows_within(alloc, &split)? {
        Ok(Step::Split(split))
    } else {
        Ok(Step::Done(Decided::Wide(wide_row(place))))
    }
}

// That two results are equal, unless one of the rows is too wide.
fn results_step(
    alloc: Global,
    c: &Condition,
    plan: &Plan,
    facts: &[Literal],
    congruence: Congruence,
    place: u32,
) -> Result<Step, OutOfMemory>
    requires begun { IsBegun c.now plan.now facts.now }
    requires proposed { IsProposedCongruence c.now plan.now facts.now place congruence }
    ensures step { IfOk result (IsStep c.now plan.now facts.now) }
    ensures narrow { IsNarrow c.now → IfOk result IsNarrowStep }
{
    if do_rows_fit(alloc, &congruence.results)? {
        Ok(Step::Congruence(congruence))
    } else {
        Ok(Step::Done(Decided::Wide(wide_row(place))))
    }
}

// The step that settles a comparison.
fn comparison_step(
    alloc: Global,
    c: &Condition,
    plan: &Plan,
    facts: &[Literal],
    needed: Needed,
) -> Result<Step, OutOfMemory>
    requires begun { IsBegun c.now plan.now facts.now }
    requires needed { IsNeededAmong facts.now plan.now.comparisons needed }
    ensures step { IfOk result (IsStep c.now plan.now facts.now) }
    ensures narrow { IsNarrow c.now → IfOk result IsNarrowStep }
{
    let k = comparison_at(plan, needed.place);
    let split = split_of(alloc, needed.need, &k.left, &k.right)?;
    split_step(alloc, c, plan, facts, split, k.place)
}

// The step that settles whether two operands are equal.
fn operand_step(
    alloc: Global,
    c: &Condition,
    plan: &Plan,
    facts: &[Literal],
    i: usize,
    j: usize,
    k: usize,
) -> Result<Step, OutOfMemory>
    requires begun { IsBegun c.now plan.now facts.now }
    requires repair { IsRepair facts.now plan.now.applications (repairs.Operand i j k) }
    ensures step { IfOk result (IsStep c.now plan.now facts.now) }
    ensures narrow { IsNarrow c.now → IfOk result IsNarrowStep }
{
    let f = applied_at(plan, i);
    let g = applied_at(plan, j);
    let a = operand_at(f, k);
    let b = operand_at(g, k);
    let split = equality(alloc, a, b)?;
    split_step(alloc, c, plan, facts, split, f.place)
}

// The step that makes two results equal.
fn congruence_step(
    alloc: Global,
    c: &Condition,
    plan: &Plan,
    facts: &[Literal],
    i: usize,
    j: usize,
) -> Result<Step, OutOfMemory>
    requires begun { IsBegun c.now plan.now facts.now }
    requires repair { IsRepair facts.now plan.now.applications (repairs.Congruence i j) }
    ensures step { IfOk result (IsStep c.now plan.now facts.now) }
    ensures narrow { IsNarrow c.now → IfOk result IsNarrowStep }
{
    let f = applied_at(plan, i);
    let g = applied_at(plan, j);
    let left = number_of(i)?;
    let right = number_of(j)?;
    let results = same(alloc, &f.result, &g.result)?;
    let congruence = Congruence {
        left,
        right,
        results,
    };
    results_step(alloc, c, plan, facts, congruence, f.place)
}

// The step that two applications ask for.
fn repair_step(
    alloc: Global,
    c: &Condition,
    plan: &Plan,
    facts: &[Literal],
    repair: Repair,
) -> Result<Step, OutOfMemory>
    requires begun { IsBegun c.now plan.now facts.now }
    requires repair { IsRepair facts.now plan.now.applications repair }
    ensures step { IfOk result (IsStep c.now plan.now facts.now) }
    ensures narrow { IsNarrow c.now → IfOk result IsNarrowStep }
{
    match repair {
        Repair::Congruence(i, j) => congruence_step(alloc, c, plan, facts, i, j),
        Repair::Operand(i, j, k) => operand_step(alloc, c, plan, facts, i, j, k),
    }
}

// The step that mends what is amiss.
fn amiss_step(
    alloc: Global,
    c: &Condition,
    plan: &Plan,
    facts: &[Literal],
    amiss: Amiss,
) -> Result<Step, OutOfMemory>
    requires begun { IsBegun c.now plan.now facts.now }
    requires amiss { IsAmiss facts.now plan.now amiss }
    ensures step { IfOk result (IsStep c.now plan.now facts.now) }
    ensures narrow { IsNarrow c.now → IfOk result IsNarrowStep }
{
    match amiss {
        Amiss::Comparison(needed) => comparison_step(alloc, c, plan, facts, needed),
        Amiss::Applications(repair) => repair_step(alloc, c, plan, facts, repair),
    }
}

// The step at a point where the orders and equalities hold.
fn step_at(
    alloc: Global,
    c: &Condition,
    plan: &Plan,
    facts: &[Literal],
    p: Point,
) -> Result<Step, OutOfMemory>
    requires begun { IsBegun c.now plan.now facts.now }
    requires met { IsMet facts.now p }
    ensures step { IfOk result (IsStep c.now plan.now facts.now) }
    ensures narrow { IsNarrow c.now → IfOk result IsNarrowStep }
{
    match amiss_at(c, plan, facts, &p) {
        None => Ok(Step::Done(Decided::Fits(p))),
        Some(amiss) => amiss_step(alloc, c, plan, facts, amiss),
    }
}

/// The next step: an answer, or what is to be assumed.
pub(crate) fn next_step(
    alloc: Global,
    c: &Condition,
    plan: &Plan,
    facts: &[Literal],
) -> Result<Step, OutOfMemory>
    requires { IsBegun c.now plan.now facts.now }
    ensures step { IfOk result (IsStep c.now plan.now facts.now) }
    ensures narrow { IsNarrow c.now → IfOk result IsNarrowStep }
{
    match solve_rows(alloc, facts)? {
        RowOutcome::Refuted(d) => Ok(Step::Done(Decided::Refuted(d))),
        RowOutcome::Wide(w) => Ok(Step::Done(Decided::Wide(w))),
        RowOutcome::Met(p) => step_at(alloc, c, plan, facts, p),
        RowOutcome::Form(_) => unreachable!(),
    }
}
