// What rows leave for a variable at a point of the later ones.
ghost use Rattle.std.specs.Prelude.{◌≡◌, IfNone, IfSome, Any};
ghost use Rattle.lin_rows.specs.Points.{valuation};
ghost use Rattle.lin_rows.specs.WidePoints.{IsWide, numbers_back};
ghost use Rattle.lin_solver.specs.WayBack.{room};

use lin_rows::{Point, Row};

/// The value of a variable.
fn value_of(values: &[(u32, i128)], var: u32) -> i128
    ensures { result ≡ valuation values.now var }
{
    for (v, value) in values {
        if *v == var {
            return *value;
        }
    }
    0
}

/// What a row leaves for its term with a variable, where all numbers on the way are within 128 bits.
pub fn room_at(row: &Row, var: u32, point: &Point) -> Option<i128>
    ensures none { IfNone result (Any IsWide (numbers_back point.now row.now var)) }
    ensures some { IfSome result (λ z. z ≡ room point.now row.now var) }
{
    let mut rest = row.bound.checked_mul(point.q)?;
    for (v, coef) in row.coefs.as_slice() {
        if *v > var {
            let product = coef.checked_mul(value_of(point.values.as_slice(), *v))?;
            rest = rest.checked_sub(product)?;
        }
    }
    Some(rest)
}
