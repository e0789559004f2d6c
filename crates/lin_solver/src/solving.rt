// A point of rows, or what shows that there is none.
ghost use Rattle.std.specs.Prelude.{◌<◌, ◌^◌, length, map, Some, IfOk, IfErr};
ghost use Rattle.lin_rows.specs.Steps.{StepsHold};
ghost use Rattle.lin_solver.specs.Stops.{IsStop};
ghost use Rattle.lin_solver.specs.WayBack.{IsSolution};
ghost use Rattle.lin_solver.specs.Answers.{IsSolved};
ghost use Rattle.lin_solver.specs.Narrow.{IsNarrow, IsDecided};

use crate::levels::levels_of;
use crate::stop::Stop;
use crate::way_back::way_back;
use lin_rows::{ComboStep, Point, Row, WidePoint};
use py_base::OutOfMemory;
use sqlite_items::Items;
use std::alloc::Global;

/// What comes of rows.
#[derive(Debug, Drop)]
pub enum Solved {
    /// Steps whose last row can't be met.
    Combination(Items<ComboStep>),
    /// A point that meets every row.
    Point(Point),
    /// Where a number is outside 128 bits.
    Wide(WidePoint),
}

/// A point that meets rows, or why none is found.
fn point_of(alloc: Global, rows: &[Row], steps: &mut Items<ComboStep>) -> Result<Point, Stop>
    requires few { length rows.now < 2 ^ 32 }
    ensures kept { StepsHold (map Some rows.now) steps.old → StepsHold (map Some rows.now) steps.new }
    ensures point { IfOk result (IsSolution rows.now) }
    ensures stops { IfErr result (IsStop rows.now steps.new) }
{
    let levels = levels_of(alloc, rows, steps)?;
    way_back(alloc, rows, steps.as_slice(), levels.as_slice())
}

/// Steps that show that rows aren't met together, or a point that meets them all.
pub fn solve(alloc: Global, rows: &[Row]) -> Result<Solved, OutOfMemory>
    ensures solved { IfOk result (IsSolved rows.now) }
    ensures narrow { IsNarrow rows.now → IfOk result IsDecided }
{
    if rows.len() as u128 >= 1 << 32 {
        return Err(OutOfMemory);
    }
    let mut steps = Items::new(alloc);
    match point_of(alloc, rows, &mut steps) {
        Ok(point) => Ok(Solved::Point(point)),
        Err(Stop::Refuted) => Ok(Solved::Combination(steps)),
        Err(Stop::Wide(point)) => Ok(Solved::Wide(point)),
        Err(Stop::OutOfMemory) => Err(OutOfMemory),
    }
}
