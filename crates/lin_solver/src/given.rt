// The rows handed in.
ghost use Rattle.std.specs.Prelude.{◌≡◌, ℕ, ◌+◌, ◌<◌, ◌^◌, length, map, Some, IfOk, IfErr, Contains};
ghost use Rattle.lin_rows.specs.Steps.{IsFalse, StepHolds, StepsHold};
ghost use Rattle.lin_solver.specs.Numbers.{numbered, HasRow, HaveRows, IsLive, IsPrefix};
ghost use Rattle.lin_solver.specs.Stops.{IsStop};

use crate::numbers::row_at;
use crate::stop::Stop;
use crate::sums::is_false;
use lin_rows::{ComboStep, Row, Terms};
use sqlite_items::Items;
use std::alloc::Global;

/// The step that repeats the row of a number, which can't be met.
fn false_step(alloc: Global, rows: &[Row], steps: &[ComboStep], number: u32) -> ComboStep
    requires { HasRow rows.now steps.now IsFalse number }
    ensures holds { StepHolds (numbered rows.now steps.now) result }
    ensures ends { IsFalse result.row }
{
    let row = row_at(rows, steps, number);
    ComboStep {
        left: number,
        right: number,
        by_left: 1,
        by_right: 0,
        row: Row {
            coefs: Terms::new(alloc),
            bound: row.bound,
        },
    }
}

/// The numbers of the rows handed in, where none of them says that 0 is at most a negative number.
pub fn given(alloc: Global, rows: &[Row], steps: &mut Items<ComboStep>) -> Result<Items<u32>, Stop>
    requires few { length rows.now < 2 ^ 32 }
    ensures kept { StepsHold (map Some rows.now) steps.old → StepsHold (map Some rows.now) steps.new }
    ensures grown { IsPrefix steps.old steps.new }
    ensures live { IfOk result (HaveRows rows.now steps.new (IsLive rows.now 0)) }
    ensures all { IfOk result (λ numbers. (i : ℕ) → i < length rows.now → Contains numbers i) }
    ensures stops { IfErr result (IsStop rows.now steps.new) }
{
    let mut numbers = Items::new(alloc);
    for number in 0..rows.len() as u32 {
        if is_false(&rows[number as usize]) {
            let step = false_step(alloc, rows, steps.as_slice(), number);
            steps.push(step)?;
            return Err(Stop::Refuted);
        }
        numbers.push(number)?;
    }
    Ok(numbers)
}
