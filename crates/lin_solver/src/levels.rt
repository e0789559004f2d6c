// Elimination, one variable after another.
ghost use Rattle.std.specs.Prelude.{◌≡◌, ℕ, ◌+◌, ◌<◌, ◌^◌, List, length, map, Some, IfOk, IfErr, Contains};
ghost use Rattle.lin_rows.specs.Steps.{StepsHold};
ghost use Rattle.lin_solver.specs.Numbers.{HaveRows, IsLive, IsPrefix};
ghost use Rattle.lin_solver.specs.Variables.{IsNextVariable};
ghost use Rattle.lin_solver.specs.Levels.{IsLevel, AreLevelsOf};
ghost use Rattle.lin_solver.specs.Stops.{IsStop};

use crate::given::given;
use crate::parts::{Parts, part};
use crate::stop::Stop;
use crate::strongest::strongest;
use crate::sums::add_sums;
use crate::variables::next_variable;
use lin_rows::{ComboStep, Row};
use sqlite_items::Items;
use std::alloc::Global;

/// A variable, and the numbers of the rows derived before it that bound it from above and below.
#[derive(Debug, Drop)]
pub struct Level {
    pub var: u32,
    pub above: Items<u32>,
    pub below: Items<u32>,
}

/// A level, and the numbers of the rows that are live after it.
#[derive(Drop)]
struct Step {
    level: Level,
    next: Items<u32>,
}

/// Eliminates one variable.
fn eliminate_one(
    alloc: Global,
    rows: &[Row],
    steps: &mut Items<ComboStep>,
    live: &[u32],
    var: u32,
) -> Result<Step, Stop>
    requires { HaveRows rows.now steps.old (IsLive rows.now var) live.now }
    ensures kept { StepsHold (map Some rows.now) steps.old → StepsHold (map Some rows.now) steps.new }
    ensures grown { IsPrefix steps.old steps.new }
    ensures var { IfOk result (λ s. s.level.var ≡ var) }
    ensures level { IfOk result (λ s. IsLevel rows.now steps.new live.now s.level s.next) }
    ensures live { IfOk result (λ s. HaveRows rows.now steps.new (IsLive rows.now (var + 1)) s.next) }
    ensures stops { IfErr result (IsStop rows.now steps.new) }
{
    let Parts {
        above,
        below,
        without,
    } = part(alloc, rows, steps.as_slice(), live, var)?;
    let mut next = without;
    add_sums(
        alloc,
        rows,
        steps,
        above.as_slice(),
        below.as_slice(),
        var,
        &mut next,
    )?;
    let next = strongest(alloc, rows, steps.as_slice(), next.as_slice())?;
    Ok(Step {
        level: Level { var, above, below },
        next,
    })
}

/// Eliminates the variables of rows in ascending order.
pub fn levels_of(
    alloc: Global,
    rows: &[Row],
    steps: &mut Items<ComboStep>,
) -> Result<Items<Level>, Stop>
    requires few { length rows.now < 2 ^ 32 }
    ensures kept { StepsHold (map Some rows.now) steps.old → StepsHold (map Some rows.now) steps.new }
    ensures levels { IfOk result (AreLevelsOf rows.now steps.new) }
    ensures stops { IfErr result (IsStop rows.now steps.new) }
{
    let given = given(alloc, rows, steps)?;
    let mut live = strongest(alloc, rows, steps.as_slice(), given.as_slice())?;
    let mut levels = Items::new(alloc);
    let mut from = 0;
    while let Some(var) = next_variable(rows, from) {
        let Step { level, next } = eliminate_one(alloc, rows, steps, live.as_slice(), var)?;
        levels.push(level)?;
        live = next;
        from = var as u64 + 1;
    }
    Ok(levels)
}
