// Noting faults.
ghost use Rattle.std.specs.Prelude.{◌≡◌, ◌++◌, OnOk};
ghost use Rattle.class_table.specs.Faults.{fault_if};

use crate::fault::ClassFault;
use py_base::OutOfMemory;

/// Adds a fault, where there is one.
pub fn note_if(
    found: &mut Vec<ClassFault>,
    condition: bool,
    fault: ClassFault,
) -> Result<(), OutOfMemory>
    ensures { OnOk result (found.new.items ≡ found.old.items ++ fault_if condition fault) }
{
    if condition {
        found.push(fault)?;
    }
    Ok(())
}
