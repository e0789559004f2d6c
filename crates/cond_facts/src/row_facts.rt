// The literals of numbers among assumptions, handed to the solver of rows.
ghost use Rattle.std.specs.Prelude.{◌≡◌, ◌^◌, ◌<◌, length, map, Some, IfOk};
ghost use Rattle.lin_rows.specs.Steps.{IsCombination};
ghost use Rattle.proof_checker.specs.declared.Condition.{Condition};
ghost use Rattle.proof_checker.specs.Derivations.{DerivesFrom};
ghost use Rattle.cond_facts.specs.FactRows.{AreRead};
ghost use Rattle.cond_facts.specs.Outcomes.{IsOutcome, IsDecided, AreNarrow};

use crate::reading::{Reading, read};
use crate::renumbering::renumber_steps;
use lin_rows::{ComboStep, Point, WidePoint};
use lin_solver::{Solved, solve};
use proof_checker::Derivation;
use py_base::OutOfMemory;
use std::alloc::Global;
use terms::Literal;

/// What comes of the literals of numbers among assumptions.
#[derive(Debug, Drop)]
pub enum RowOutcome {
    /// Why they can't hold together.
    Refuted(Derivation),
    /// Where they hold.
    Met(Point),
    /// Where a number of the elimination is outside 128 bits.
    Wide(WidePoint),
    /// The place of an assumption with a row outside 128 bits.
    Form(usize),
}

// The derivation that combines rows of assumptions.
fn combination(
    alloc: Global,
    facts: &[Literal],
    reading: &Reading,
    steps: &[ComboStep],
) -> Result<Derivation, OutOfMemory>
    requires few { length facts.now < 2 ^ 31 }
    requires read { AreRead facts.now reading.now.rows reading.now.numbers }
    requires refuted { IsCombination (map Some reading.now.rows) steps.now }
    ensures { IfOk result (λ d. (c : Condition) → DerivesFrom c facts.now d) }
{
    let first = 2 * facts.len() as u32;
    let steps = renumber_steps(alloc, reading.numbers.as_slice(), first, steps)?;
    Ok(Derivation::Combine(steps))
}

// What comes of the assumptions whose rows were read.
fn solve_read(
    alloc: Global,
    facts: &[Literal],
    reading: &Reading,
) -> Result<RowOutcome, OutOfMemory>
    requires few { length facts.now < 2 ^ 31 }
    requires read { AreRead facts.now reading.now.rows reading.now.numbers }
    ensures outcome { IfOk result (IsOutcome facts.now) }
    ensures narrow { AreNarrow facts.now → IfOk result IsDecided }
{
    match solve(alloc, reading.rows.as_slice())? {
        Solved::Combination(steps) => {
            let derivation = combination(alloc, facts, reading, steps.as_slice())?;
            Ok(RowOutcome::Refuted(derivation))
        }
        Solved::Point(point) => Ok(RowOutcome::Met(point)),
        Solved::Wide(point) => Ok(RowOutcome::Wide(point)),
    }
}

/// A derivation from the orders and equalities of numbers among assumptions, or a point where they
/// hold, or where a number is outside 128 bits.
pub fn solve_rows(alloc: Global, facts: &[Literal]) -> Result<RowOutcome, OutOfMemory>
    ensures outcome { IfOk result (IsOutcome facts.now) }
    ensures narrow { AreNarrow facts.now → IfOk result IsDecided }
{
    if facts.len() as u128 >= 1 << 31 {
        return Err(OutOfMemory);
    }
    match read(alloc, facts)? {
        Ok(reading) => solve_read(alloc, facts, &reading),
        Err(place) => Ok(RowOutcome::Form(place)),
    }
}
