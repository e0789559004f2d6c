// The way back from levels to a point.
ghost use Rattle.std.specs.Prelude.{◌≡◌, pos, ◌+◌, IfOk, IfErr};
ghost use Rattle.lin_rows.specs.Derived.{Occurs};
ghost use Rattle.lin_rows.specs.WidePoints.{IsWideBound};
ghost use Rattle.lin_solver.specs.Numbers.{HasRow};
ghost use Rattle.lin_solver.specs.Levels.{AreLevelsOf};
ghost use Rattle.lin_solver.specs.Stops.{IsStop};
ghost use Rattle.lin_solver.specs.WayBack.{IsSolution, IsOnWay, IsReady, IsReached, IsWorstOfSome, extension, IsAtBound};

use crate::extension::at_bound;
use crate::levels::Level;
use crate::numbers::row_at;
use crate::stop::Stop;
use crate::worst::{AtZero, Violation, worst};
use lin_rows::{ComboStep, Point, Row, RowFault, WidePoint};
use py_base::OutOfMemory;
use sqlite_items::Items;
use std::alloc::Global;

/// Why a bound isn't taken: a number on the way is too wide.
fn wide_at(
    alloc: Global,
    rows: &[Row],
    steps: &[ComboStep],
    number: u32,
    var: u32,
    point: Point,
) -> Stop
    requires { HasRow rows.now steps.now (λ r. IsWideBound rows.now point r var) number }
    ensures { IsStop rows.now steps.now result }
{
    match row_at(rows, steps, number).copy(alloc) {
        Ok(row) => Stop::Wide(WidePoint::Bound(point, row, var)),
        Err(_) => Stop::OutOfMemory,
    }
}

/// A point with the bound of the worst row for a variable.
fn move_to(
    alloc: Global,
    rows: &[Row],
    steps: &[ComboStep],
    worst: Violation,
    var: u32,
    point: Point,
) -> Result<Point, Stop>
    requires occurs { Occurs rows.now var }
    requires point { IsOnWay rows.now (var + 1) point }
    requires worst { IsWorstOfSome rows.now steps.now point var worst }
    ensures moved { IfOk result (IsAtBound point worst.room worst.coef var) }
    ensures stops { IfErr result (IsStop rows.now steps.now) }
{
    match at_bound(alloc, &point, worst.room, worst.coef, var) {
        Ok(moved) => Ok(moved),
        Err(RowFault::Wide) => Err(wide_at(alloc, rows, steps, worst.number, var, point)),
        Err(RowFault::OutOfMemory) => Err(Stop::OutOfMemory),
    }
}

/// A point with the value 0 for a variable.
fn stay(var: u32, point: Point) -> Result<Point, OutOfMemory>
    ensures { IfOk result (λ p. p ≡ extension point (pos 1) var (pos 0)) }
{
    let Point { q, values } = point;
    let mut values = values;
    values.push((var, 0))?;
    Ok(Point { q, values })
}

/// A point with a value for the variable of a level.
fn extend(
    alloc: Global,
    rows: &[Row],
    steps: &[ComboStep],
    level: &Level,
    point: Point,
) -> Result<Point, Stop>
    requires { IsReady rows.now steps.now level.now point }
    ensures reached { IfOk result (IsReached rows.now steps.now level.now point) }
    ensures stops { IfErr result (IsStop rows.now steps.now) }
{
    let var = level.var;
    match worst(rows, steps, level.above.as_slice(), var, &point) {
        AtZero::Met => {}
        AtZero::Violated(row) => return move_to(alloc, rows, steps, row, var, point),
        AtZero::Wide(number) => return Err(wide_at(alloc, rows, steps, number, var, point)),
    }
    match worst(rows, steps, level.below.as_slice(), var, &point) {
        AtZero::Met => Ok(stay(var, point)?),
        AtZero::Violated(row) => move_to(alloc, rows, steps, row, var, point),
        AtZero::Wide(number) => Err(wide_at(alloc, rows, steps, number, var, point)),
    }
}

/// A point that meets rows, from their levels.
pub fn way_back(
    alloc: Global,
    rows: &[Row],
    steps: &[ComboStep],
    levels: &[Level],
) -> Result<Point, Stop>
    requires { AreLevelsOf rows.now steps.now levels.now }
    ensures point { IfOk result (IsSolution rows.now) }
    ensures stops { IfErr result (IsStop rows.now steps.now) }
{
    let mut point = Point {
        q: 1,
        values: Items::new(alloc),
    };
    let mut left = levels.len();
    while left > 0 {
        left -= 1;
        point = extend(alloc, rows, steps, &levels[left], point)?;
    }
    Ok(point)
}
