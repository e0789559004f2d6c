// Numbers of rows: those handed in come first, then those of the steps.
ghost use Rattle.std.specs.Prelude.{◌≡◌, ◌+◌, ◌<◌, length, slice_get, Some, IfOk};
ghost use Rattle.lin_solver.specs.Numbers.{numbered};

use lin_rows::{ComboStep, Row};
use py_base::OutOfMemory;

/// The row of a number.
pub fn row_at<'a>(rows: &'a [Row], steps: &'a [ComboStep], number: u32) -> &'a Row
    requires { number < length rows.now + length steps.now }
    ensures { slice_get (numbered rows.now steps.now) number ≡ Some (Some result.now) }
{
    let number = number as usize;
    if number < rows.len() {
        return &rows[number];
    }
    &steps[number - rows.len()].row
}

/// The number of the next step.
pub fn next_number(rows: &[Row], steps: &[ComboStep]) -> Result<u32, OutOfMemory>
    ensures { IfOk result (λ number. number ≡ length rows.now + length steps.now) }
{
    let number = rows.len() as u128 + steps.len() as u128;
    match u32::try_from(number) {
        Ok(number) => Ok(number),
        Err(_) => Err(OutOfMemory),
    }
}
