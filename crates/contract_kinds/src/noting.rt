// Noting breaches.
ghost use Rattle.std.specs.Prelude.{◌≡◌, ◌++◌, OnOk};
ghost use Rattle.contract_kinds.specs.Kinds.{breach_if, told};

use crate::breach::{Breach, Rule};
use py_base::{OutOfMemory, Place};
use sqlite_items::Items;

/// Adds a breach, where there is one.
pub fn note_if(
    found: &mut Items<Breach>,
    condition: bool,
    place: Place,
    rule: Rule,
) -> Result<(), OutOfMemory>
    ensures { OnOk result (found.new ≡ found.old ++ breach_if condition place rule) }
{
    if condition {
        found.push(Breach { place, rule })?;
    }
    Ok(())
}

/// Adds a breach of the rule, if any.
pub fn note(
    found: &mut Items<Breach>,
    refused: Option<Rule>,
    place: Place,
) -> Result<(), OutOfMemory>
    ensures { OnOk result (found.new ≡ found.old ++ told refused place) }
{
    match refused {
        Some(rule) => {
            found.push(Breach { place, rule })?;
            Ok(())
        }
        None => Ok(()),
    }
}
