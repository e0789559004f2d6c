// The row that the value 0 of a variable meets least.
ghost use Rattle.std.specs.Prelude.{◌≡◌, ◌≢◌, pos, ◌<ℤ◌, Some, IfSome, ◌⊎◌};
ghost use Rattle.lin_solver.specs.Numbers.{HaveRows, Bounds};
ghost use Rattle.lin_solver.specs.WayBack.{IsAtMost, IsFound};

use crate::fractions::fraction_le;
use crate::numbers::row_at;
use crate::room::room_at;
use lin_rows::{ComboStep, Point, Row};

/// A row that leaves a negative room for its term with a variable, and that term's coefficient.
#[derive(Clone, Copy, Debug, Drop)]
pub struct Violation {
    pub number: u32,
    pub room: i128,
    pub coef: i128,
}

/// What the value 0 of a variable does to rows.
#[derive(Clone, Copy, Debug, Drop)]
pub enum AtZero {
    /// It meets them all.
    Met,
    /// The row whose bound is the farthest from 0.
    Violated(Violation),
    /// The number of a row whose room is too wide.
    Wide(u32),
}

/// The one whose bound is farther from 0.
fn worse(a: Option<Violation>, b: Violation) -> Violation
    requires a { IfSome a (λ w. (w.coef ≢ pos 0) × (w.room <ℤ pos 0)) }
    requires b { (b.coef ≢ pos 0) × (b.room <ℤ pos 0) }
    ensures either { (result ≡ b) ⊎ (a ≡ Some result) }
    ensures new { IsAtMost result.room result.coef b.room b.coef }
    ensures old { IfSome a (λ w. IsAtMost result.room result.coef w.room w.coef) }
{
    let Some(a) = a else {
        return b;
    };
    if fraction_le(
        b.room.unsigned_abs(),
        b.coef.unsigned_abs(),
        a.room.unsigned_abs(),
        a.coef.unsigned_abs(),
    ) {
        return a;
    }
    b
}

/// What the value 0 of a variable does to the rows of these numbers.
pub fn worst(rows: &[Row], steps: &[ComboStep], numbers: &[u32], var: u32, point: &Point) -> AtZero
    requires { HaveRows rows.now steps.now (Bounds rows.now var) numbers.now }
    ensures { IsFound rows.now steps.now point.now var numbers.now result }
{
    let mut worst = None;
    for number in numbers {
        let row = row_at(rows, steps, *number);
        let coef = row.coefs.coef(var);
        let Some(room) = room_at(row, var, point) else {
            return AtZero::Wide(*number);
        };
        if room < 0 {
            let violation = Violation {
                number: *number,
                room,
                coef,
            };
            worst = Some(worse(worst, violation));
        }
    }
    match worst {
        Some(violation) => AtZero::Violated(violation),
        None => AtZero::Met,
    }
}
