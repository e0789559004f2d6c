// Measures and caps, and their tests.
ghost use Rattle.std.specs.Prelude.{◌≡◌, ◌++◌, ◌∷◌, [], OnOk};
ghost use Rattle.machine_model.specs.Results.{tested};
ghost use Rattle.py_base.specs.declared.Kind.TheVariants.{Measure};
ghost use Rattle.machine_model.specs.Duties as duties;
ghost use Rattle.machine_values.specs.Agreement.{Agrees};
ghost use Rattle.contract_duties.specs.Listed.{duty_in, duties_in, added, test_by};

use crate::caps::cap_for;
use contract_reading::{Placing, place_of};
use machine_model::Halt;
use machine_values::Stop;
use py_base::{Kind, OutOfMemory, Place};
use sqlite_items::Items;

/// What an atom names. A number that isn't defined is none.
#[derive(Clone, Copy, Debug, PartialEq, Eq)]
pub enum Duty {
    /// A measure.
    Bound(Place, Option<i128>),
    /// A cap for a lock.
    Capped(Place, Option<u32>, Option<i128>),
}

/// What measures and caps are compared with: the measure and the caps of the method that asks, and where a fault stands.
#[derive(Clone, Copy)]
pub struct Bounds<'a> {
    pub at: Placing,
    pub measure: Option<i128>,
    pub caps: &'a [(u32, i128)],
}

/// Whether a number is at least 0, and below the bound, if there is one.
pub fn is_lower(bound: Option<i128>, number: Option<i128>) -> bool
    ensures { result ≡ duties.is_lower bound number }
{
    match number {
        None => false,
        Some(z) => match bound {
            None => 0 <= z,
            Some(n) => 0 <= z && z < n,
        },
    }
}

// The test of a number, whose fault is `Measure`.
fn test_lower(p: Place, bound: Option<i128>, number: Option<i128>) -> Result<(), Stop>
    ensures { Agrees (tested Measure p (duties.is_lower bound number)) result (λ u. tt) }
{
    if is_lower(bound, number) {
        Ok(())
    } else {
        Err(Stop::Halt(Halt::Failed(Kind::Measure, p)))
    }
}

/// The test of a duty: its number is at least 0, a measure is below the measure that bounds it, and a cap below the cap for
/// its lock.
pub fn test_duty<'a>(duty: Duty, bounds: Bounds<'a>) -> Result<(), Stop>
    ensures { Agrees (test_by bounds.entry (duty_in duty)) result (λ u. tt) }
{
    match duty {
        Duty::Bound(p, n) => test_lower(place_of(bounds.at, p), bounds.measure, n),
        Duty::Capped(p, None, n) => test_lower(place_of(bounds.at, p), None, n),
        Duty::Capped(p, Some(r), n) => test_lower(
            place_of(bounds.at, p),
            cap_for(bounds.caps, r),
            n,
        ),
    }
}

fn push(duty: Duty, found: &mut Items<Duty>) -> Result<(), OutOfMemory>
    ensures { OnOk result (found.new ≡ found.old ++ duty ∷ []) }
{
    found.push(duty)?;
    Ok(())
}

/// Tests a duty and lists it.
pub fn note<'a>(duty: Duty, bounds: Bounds<'a>, found: &mut Items<Duty>) -> Result<(), Stop>
    ensures { Agrees (added (duties_in found.old) (duties.one_duty (test_by bounds.entry) (duty_in duty))) result (λ u. duties_in found.new) }
{
    test_duty(duty, bounds)?;
    push(duty, found)?;
    Ok(())
}
