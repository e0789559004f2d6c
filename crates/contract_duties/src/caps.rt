// The numbers of measures and caps.
ghost use Rattle.std.specs.Prelude.{◌≡◌, ◌<◌, ◌++◌, ◌∷◌, [], IfOk, OnOk, int_lt};
ghost use Rattle.machine_model.specs.Duties as duties;
ghost use Rattle.contract_duties.specs.Listed.{duty_in, duties_in};

use crate::duty::Duty;
use py_base::OutOfMemory;
use sqlite_items::Items;
use std::alloc::Global;

/// The first measure among duties.
pub fn measure_of(found: &[Duty]) -> Option<i128>
    ensures { result ≡ duties.measure_of (duties_in found.now) }
{
    for duty in found {
        if let Duty::Bound(_, n) = duty {
            return *n;
        }
    }
    None
}

/// The cap for a lock in a list of caps.
pub fn cap_for(caps: &[(u32, i128)], r: u32) -> Option<i128>
    ensures { result ≡ duties.cap_for r caps.now }
{
    for cap in caps {
        if cap.0 == r {
            return Some(cap.1);
        }
    }
    None
}

fn is_below(z: i128, cap: &(u32, i128)) -> bool
    ensures { result ≡ int_lt z cap.now.1 }
{
    z < cap.1
}

/// Adds a cap to a list of caps; of two for one lock the lower holds.
pub fn add_cap(r: u32, z: i128, caps: &mut Items<(u32, i128)>) -> Result<(), OutOfMemory>
    ensures { OnOk result (caps.new ≡ duties.with_cap r z caps.old) }
{
    let mut at = 0;
    while at < caps.len() {
        let cap = caps.as_slice()[at];
        if cap.0 == r {
            if is_below(z, &cap) {
                caps.set(at, (r, z));
            }
            return Ok(());
        }
        at += 1;
    }
    caps.push((r, z))?;
    Ok(())
}

fn add_duty(duty: &Duty, caps: &mut Items<(u32, i128)>) -> Result<(), OutOfMemory>
    ensures { OnOk result (caps.new ≡ duties.with_duty (duty_in duty.now) caps.old) }
{
    match duty {
        Duty::Bound(_, _) => Ok(()),
        Duty::Capped(_, Some(r), Some(z)) => add_cap(*r, *z, caps),
        Duty::Capped(_, _, _) => Ok(()),
    }
}

/// The caps that duties give, a lock that stands first standing first.
pub fn caps_of(alloc: Global, found: &[Duty]) -> Result<Items<(u32, i128)>, OutOfMemory>
    ensures { IfOk result (λ caps. caps ≡ duties.caps_of (duties_in found.now)) }
{
    let mut caps = Items::new(alloc);
    for duty in found {
        add_duty(duty, &mut caps)?;
    }
    Ok(caps)
}
