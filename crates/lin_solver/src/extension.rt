// A point with one variable more.
ghost use Rattle.std.specs.Prelude.{◌≡◌, ◌≢◌, pos, ◌≤ℤ◌, ◌<ℤ◌, ◌*ℤ◌, IfOk, IfErr, Any, FitsSigned};
ghost use Rattle.std.specs.Int.{w128};
ghost use Rattle.std.specs.Option.{SomeIff};
ghost use Rattle.lin_rows.specs.WidePoints.{IsWide, HasWideNumber};
ghost use Rattle.lin_rows.specs.declared.fault.RowFault.TheVariants.{Wide};
ghost use Rattle.lin_solver.specs.WayBack.{signed_number, scaled, extension, IsAtBound, HasWideBound};

use lin_rows::{Point, RowFault, gcd};
use sqlite_items::Items;
use std::alloc::Global;

/// The number of a size and a sign.
fn signed(size: u128, negative: bool) -> Option<i128>
    ensures { SomeIff result (FitsSigned w128 (signed_number negative size)) (signed_number negative size) }
{
    if negative {
        0_i128.checked_sub_unsigned(size)
    } else {
        0_i128.checked_add_unsigned(size)
    }
}

/// Values in a finer unit.
fn scale_values(
    alloc: Global,
    values: &[(u32, i128)],
    scale: i128,
) -> Result<Items<(u32, i128)>, RowFault>
    ensures ok { IfOk result (λ list. list ≡ scaled scale values.now) }
    ensures wide { IfErr result (λ e. e ≡ Wide → Any (λ t. IsWide t.1) (scaled scale values.now)) }
{
    let mut list = Items::new(alloc);
    for (var, value) in values {
        let Some(number) = value.checked_mul(scale) else {
            return Err(RowFault::Wide);
        };
        list.push((*var, number))?;
    }
    Ok(list)
}

/// A point with a value for a variable, in a unit that is `scale` times as fine.
fn extended(
    alloc: Global,
    point: &Point,
    scale: u128,
    var: u32,
    size: u128,
    negative: bool,
) -> Result<Point, RowFault>
    requires unit { pos 1 ≤ℤ point.now.q }
    ensures ok { IfOk result (λ p. p ≡ extension point.now (pos scale) var (signed_number negative size)) }
    ensures wide { IfErr result (λ e. e ≡ Wide → HasWideNumber (extension point.now (pos scale) var (signed_number negative size))) }
{
    let Ok(scale) = i128::try_from(scale) else {
        return Err(RowFault::Wide);
    };
    let Some(q) = point.q.checked_mul(scale) else {
        return Err(RowFault::Wide);
    };
    let Some(value) = signed(size, negative) else {
        return Err(RowFault::Wide);
    };
    let mut values = scale_values(alloc, point.values.as_slice(), scale)?;
    values.push((var, value))?;
    Ok(Point { q, values })
}

/// A point with the bound `room / coef` for a variable.
pub fn at_bound(
    alloc: Global,
    point: &Point,
    room: i128,
    coef: i128,
    var: u32,
) -> Result<Point, RowFault>
    requires unit { pos 1 ≤ℤ point.now.q }
    requires room { room <ℤ pos 0 }
    requires coef { coef ≢ pos 0 }
    ensures ok { IfOk result (IsAtBound point.now room coef var) }
    ensures wide { IfErr result (λ e. e ≡ Wide → HasWideBound point.now room coef var) }
{
    let top = room.unsigned_abs();
    let bottom = coef.unsigned_abs();
    let divisor = gcd(top, bottom);
    extended(alloc, point, bottom / divisor, var, top / divisor, coef > 0)
}
