// Noting faults.
ghost use Rattle.std.specs.Prelude.{◌≡◌, ◌++◌, OnOk};
ghost use Rattle.type_base.specs.Faults.{fault_if};

use crate::fault::{Fault, Rank};
use py_base::{OutOfMemory, Place};
use sqlite_items::Items;

/// Adds a fault, where there is one.
pub fn note_if(
    found: &mut Items<Fault>,
    condition: bool,
    place: Place,
    rank: Rank,
) -> Result<(), OutOfMemory>
    ensures { OnOk result (found.new ≡ found.old ++ fault_if condition place rank) }
{
    if condition {
        found.push(Fault { place, rank })?;
    }
    Ok(())
}
