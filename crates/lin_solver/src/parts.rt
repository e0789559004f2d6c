// Rows by the sign of a variable's coefficient.
ghost use Rattle.std.specs.Prelude.{◌+◌, IfOk, All};
ghost use Rattle.lin_solver.specs.Numbers.{HaveRows, IsLive, BoundsAbove, BoundsBelow};
ghost use Rattle.lin_solver.specs.Levels.{IsInPart};

use crate::numbers::row_at;
use lin_rows::{ComboStep, Row};
use py_base::OutOfMemory;
use sqlite_items::Items;
use std::alloc::Global;

/// The numbers of the rows that bound a variable from above, from below, and not at all.
#[derive(Drop)]
pub struct Parts {
    pub above: Items<u32>,
    pub below: Items<u32>,
    pub without: Items<u32>,
}

/// The rows of these numbers in parts.
pub fn part(
    alloc: Global,
    rows: &[Row],
    steps: &[ComboStep],
    live: &[u32],
    var: u32,
) -> Result<Parts, OutOfMemory>
    requires { HaveRows rows.now steps.now (IsLive rows.now var) live.now }
    ensures above { IfOk result (λ p. HaveRows rows.now steps.now (BoundsAbove rows.now var) p.above) }
    ensures below { IfOk result (λ p. HaveRows rows.now steps.now (BoundsBelow rows.now var) p.below) }
    ensures without { IfOk result (λ p. HaveRows rows.now steps.now (IsLive rows.now (var + 1)) p.without) }
    ensures all { IfOk result (λ p. All (IsInPart p.above p.below p.without) live.now) }
{
    let mut above = Items::new(alloc);
    let mut below = Items::new(alloc);
    let mut without = Items::new(alloc);
    for number in live {
        let coef = row_at(rows, steps, *number).coefs.coef(var);
        if coef > 0 {
            above.push(*number)?;
        } else if coef < 0 {
            below.push(*number)?;
        } else {
            without.push(*number)?;
        }
    }
    Ok(Parts {
        above,
        below,
        without,
    })
}
