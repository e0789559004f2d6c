// The sum of two rows that cancels a variable.
ghost use Rattle.std.specs.Prelude.{◌≡◌, ℤ, pos, ◌<ℤ◌, IfSome, IfNone, IfOk, OnOk, IfErr};
ghost use Rattle.std.specs.Int.{IsGcd};
ghost use Rattle.lin_rows.specs.Terms.{coef_at};
ghost use Rattle.lin_rows.specs.Lowest.{IsLowest, HasWideLowest, IsElimination, FitsElimination, IsWideElimination};
ghost use Rattle.lin_rows.specs.declared.fault.RowFault.TheVariants.{Wide};

use crate::combination::combine;
use crate::fault::RowFault;
use crate::row::Row;
use std::alloc::Global;

/// The greatest common divisor.
pub fn gcd(a: u128, b: u128) -> u128
    ensures { IsGcd a b result }
{
    let mut x = a;
    let mut y = b;
    while y != 0 {
        let rest = x % y;
        x = y;
        y = rest;
    }
    x
}

/// The lowest multipliers that cancel a positive and a negative coefficient, where both are within
/// 128 bits.
pub fn lowest_multipliers(x: i128, y: i128) -> Option<(i128, i128)>
    requires positive { pos 0 <ℤ x }
    requires negative { y <ℤ pos 0 }
    ensures some { IfSome result (λ by. IsLowest x y by.0 by.1) }
    ensures none { IfNone result (HasWideLowest x y) }
{
    let left = x.unsigned_abs();
    let right = y.unsigned_abs();
    let divisor = gcd(left, right);
    let by_left = i128::try_from(right / divisor).ok()?;
    let by_right = i128::try_from(left / divisor).ok()?;
    Some((by_left, by_right))
}

/// The sum of two rows with the lowest multipliers that cancel `var`.
pub fn eliminate(alloc: Global, a: &Row, b: &Row, var: u32) -> Result<Row, RowFault>
    requires positive { pos 0 <ℤ coef_at a.now.coefs var }
    requires negative { coef_at b.now.coefs var <ℤ pos 0 }
    ensures sum { IfOk result (λ row. IsElimination var a.now b.now row) }
    ensures fits { OnOk result (FitsElimination var a.now b.now) }
    ensures wide { IfErr result (λ e. e ≡ Wide → IsWideElimination var a.now b.now) }
{
    let Some((by_left, by_right)) = lowest_multipliers(a.coefs.coef(var), b.coefs.coef(var)) else {
        return Err(RowFault::Wide);
    };
    combine(alloc, by_left, a, by_right, b)
}
