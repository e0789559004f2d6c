// The steps that cancel a variable.
ghost use Rattle.std.specs.Prelude.{◌≡◌, pos, ◌+◌, ◌<ℤ◌, ◌↔◌, IsTrue, IfOk, IfErr, OnOk, All, map, Some};
ghost use Rattle.lin_rows.specs.Terms.{coef_at};
ghost use Rattle.lin_rows.specs.Rows.{IsSum, SumFits};
ghost use Rattle.lin_rows.specs.Lowest.{IsLowest, IsWideElimination};
ghost use Rattle.lin_rows.specs.Steps.{IsFalse, StepHolds, StepsHold};
ghost use Rattle.lin_rows.specs.WidePoints.{IsWidePair};
ghost use Rattle.lin_rows.specs.declared.fault.RowFault.TheVariants.{Wide};
ghost use Rattle.lin_solver.specs.Numbers.{numbered, HasRow, HaveRows, MayBeMet, IsLive, BoundsAbove, BoundsBelow, IsSumOf, IsCovered, AreCovered, IsPrefix};
ghost use Rattle.lin_solver.specs.Stops.{IsStop};

use crate::numbers::{next_number, row_at};
use crate::stop::Stop;
use lin_rows::{ComboStep, Row, RowFault, WidePoint, combine, lowest_multipliers};
use sqlite_items::Items;
use std::alloc::Global;

/// A sum of two rows that cancels a variable, with its multipliers.
#[derive(Drop)]
struct Sum {
    by_left: i128,
    by_right: i128,
    row: Row,
}

fn sum_of(alloc: Global, a: &Row, b: &Row, var: u32) -> Result<Sum, RowFault>
    requires positive { pos 0 <ℤ coef_at a.now.coefs var }
    requires negative { coef_at b.now.coefs var <ℤ pos 0 }
    ensures low { IfOk result (λ s. IsLowest (coef_at a.now.coefs var) (coef_at b.now.coefs var) s.by_left s.by_right) }
    ensures sum { IfOk result (λ s. IsSum s.by_left s.by_right a.now b.now s.row) }
    ensures fits { IfOk result (λ s. SumFits s.by_left s.by_right a.now b.now) }
    ensures wide { IfErr result (λ e. e ≡ Wide → IsWideElimination var a.now b.now) }
{
    let Some((by_left, by_right)) = lowest_multipliers(a.coefs.coef(var), b.coefs.coef(var)) else {
        return Err(RowFault::Wide);
    };
    let row = combine(alloc, by_left, a, by_right, b)?;
    Ok(Sum {
        by_left,
        by_right,
        row,
    })
}

/// Why the sum of two rows isn't made.
fn stop_at(
    alloc: Global,
    fault: RowFault,
    a: &Row,
    b: &Row,
    var: u32,
    rows: &[Row],
    steps: &[ComboStep],
) -> Stop
    requires { fault ≡ Wide → IsWidePair rows.now a.now b.now var }
    ensures { IsStop rows.now steps.now result }
{
    match fault {
        RowFault::OutOfMemory => Stop::OutOfMemory,
        RowFault::Wide => match (a.copy(alloc), b.copy(alloc)) {
            (Ok(left), Ok(right)) => Stop::Wide(WidePoint::Pair(left, right, var)),
            _ => Stop::OutOfMemory,
        },
    }
}

/// The row says that 0 is at most a negative number.
pub fn is_false(row: &Row) -> bool
    ensures is { IsTrue result ↔ IsFalse row.now }
    ensures may { ¬ (IsTrue result) → MayBeMet row.now }
{
    row.coefs.as_slice().is_empty() && row.bound < 0
}

/// The step that cancels `var` in the rows of two numbers.
fn new_step(
    alloc: Global,
    rows: &[Row],
    steps: &[ComboStep],
    left: u32,
    right: u32,
    var: u32,
) -> Result<ComboStep, Stop>
    requires left { HasRow rows.now steps.now (BoundsAbove rows.now var) left }
    requires right { HasRow rows.now steps.now (BoundsBelow rows.now var) right }
    ensures holds { IfOk result (StepHolds (numbered rows.now steps.now)) }
    ensures sum { IfOk result (λ s. IsSumOf rows.now steps.now var left right s.row) }
    ensures stops { IfErr result (IsStop rows.now steps.now) }
{
    let a = row_at(rows, steps, left);
    let b = row_at(rows, steps, right);
    match sum_of(alloc, a, b, var) {
        Ok(sum) => Ok(ComboStep {
            left,
            right,
            by_left: sum.by_left,
            by_right: sum.by_right,
            row: sum.row,
        }),
        Err(fault) => Err(stop_at(alloc, fault, a, b, var, rows, steps)),
    }
}

/// Adds the step that cancels `var` in the rows of two numbers.
fn add_sum(
    alloc: Global,
    rows: &[Row],
    steps: &mut Items<ComboStep>,
    left: u32,
    right: u32,
    var: u32,
) -> Result<u32, Stop>
    requires left { HasRow rows.now steps.old (BoundsAbove rows.now var) left }
    requires right { HasRow rows.now steps.old (BoundsBelow rows.now var) right }
    ensures kept { StepsHold (map Some rows.now) steps.old → StepsHold (map Some rows.now) steps.new }
    ensures grown { IsPrefix steps.old steps.new }
    ensures live { IfOk result (HasRow rows.now steps.new (IsLive rows.now (var + 1))) }
    ensures sum { IfOk result (HasRow rows.now steps.new (IsSumOf rows.now steps.new var left right)) }
    ensures stops { IfErr result (IsStop rows.now steps.new) }
{
    let step = new_step(alloc, rows, steps.as_slice(), left, right, var)?;
    let number = next_number(rows, steps.as_slice())?;
    let refuted = is_false(&step.row);
    steps.push(step)?;
    if refuted {
        return Err(Stop::Refuted);
    }
    Ok(number)
}

/// Adds the steps that cancel `var` in the row of a number and in each of others.
fn add_sums_of(
    alloc: Global,
    rows: &[Row],
    steps: &mut Items<ComboStep>,
    left: u32,
    below: &[u32],
    var: u32,
    next: &mut Items<u32>,
) -> Result<(), Stop>
    requires left { HasRow rows.now steps.old (BoundsAbove rows.now var) left }
    requires below { HaveRows rows.now steps.old (BoundsBelow rows.now var) below.now }
    requires live { HaveRows rows.now steps.old (IsLive rows.now (var + 1)) next.old }
    ensures kept { StepsHold (map Some rows.now) steps.old → StepsHold (map Some rows.now) steps.new }
    ensures grown { IsPrefix steps.old steps.new × IsPrefix next.old next.new }
    ensures live { OnOk result (HaveRows rows.now steps.new (IsLive rows.now (var + 1)) next.new) }
    ensures covered { OnOk result (All (IsCovered rows.now steps.new var next.new left) below.now) }
    ensures stops { IfErr result (IsStop rows.now steps.new) }
{
    for right in below {
        let number = add_sum(alloc, rows, steps, left, *right, var)?;
        next.push(number)?;
    }
    Ok(())
}

/// Adds the steps that cancel `var` in each two rows that bound it from above and below.
pub fn add_sums(
    alloc: Global,
    rows: &[Row],
    steps: &mut Items<ComboStep>,
    above: &[u32],
    below: &[u32],
    var: u32,
    next: &mut Items<u32>,
) -> Result<(), Stop>
    requires above { HaveRows rows.now steps.old (BoundsAbove rows.now var) above.now }
    requires below { HaveRows rows.now steps.old (BoundsBelow rows.now var) below.now }
    requires live { HaveRows rows.now steps.old (IsLive rows.now (var + 1)) next.old }
    ensures kept { StepsHold (map Some rows.now) steps.old → StepsHold (map Some rows.now) steps.new }
    ensures grown { IsPrefix steps.old steps.new × IsPrefix next.old next.new }
    ensures live { OnOk result (HaveRows rows.now steps.new (IsLive rows.now (var + 1)) next.new) }
    ensures covered { OnOk result (AreCovered rows.now steps.new var next.new above.now below.now) }
    ensures stops { IfErr result (IsStop rows.now steps.new) }
{
    for left in above {
        add_sums_of(alloc, rows, steps, *left, below, var, next)?;
    }
    Ok(())
}
