// From a tree and its classes to the faults of its forms.
ghost use Rattle.std.specs.Prelude.{◌≡◌, ◌<◌, ◌≤◌, ◌+◌, ◌^◌, ◌++◌, Some, length, flat_map, IfOk, OnOk};
ghost use Rattle.type_forms.specs.Forms.{declaring_faults, leaving_faults, running_faults, function_faults, faults_behind, form_faults};

use crate::body::note_statements;
use crate::head::note_head;
use crate::jump::note_all_jumps;
use class_table::Classes;
use py_base::OutOfMemory;
use raw_syntax::{Raw, RawFunc, RawItem};
use sqlite_items::Items;
use std::alloc::Global;
use type_base::Fault;
use type_ways::{note_end, note_settings, note_unassigned};

#[tactic(auto, unfolding(crate::specs::Forms::declaring_faults))]
fn note_declaring(
    alloc: Global,
    found: &mut Items<Fault>,
    classes: &Classes,
    items: &[RawItem],
    owner: Option<u32>,
    function: &RawFunc,
) -> Result<(), OutOfMemory>
    requires { length classes.now.list < 2 ^ 32 }
    ensures { OnOk result (found.new ≡ found.old ++ declaring_faults classes.now items.now owner function.now) }
{
    note_head(found, classes, items, owner, function)?;
    note_settings(alloc, found, function)
}

#[tactic(auto, unfolding(crate::specs::Forms::leaving_faults))]
fn note_leaving(found: &mut Items<Fault>, function: &RawFunc) -> Result<(), OutOfMemory>
    ensures { OnOk result (found.new ≡ found.old ++ leaving_faults function.now) }
{
    note_all_jumps(found, function)?;
    note_end(found, function)
}

#[tactic(auto, unfolding(crate::specs::Forms::running_faults))]
fn note_running(
    alloc: Global,
    found: &mut Items<Fault>,
    classes: &Classes,
    items: &[RawItem],
    owner: Option<u32>,
    function: &RawFunc,
) -> Result<(), OutOfMemory>
    requires { length classes.now.list < 2 ^ 32 }
    ensures { OnOk result (found.new ≡ found.old ++ running_faults classes.now items.now owner function.now) }
{
    note_statements(alloc, found, classes, items, owner, function)?;
    note_unassigned(alloc, found, function)
}

// Those of a function, or of a method of this class.
#[tactic(auto, unfolding(crate::specs::Forms::function_faults))]
fn note_function(
    alloc: Global,
    found: &mut Items<Fault>,
    classes: &Classes,
    items: &[RawItem],
    owner: Option<u32>,
    function: &RawFunc,
) -> Result<(), OutOfMemory>
    requires { length classes.now.list < 2 ^ 32 }
    ensures { OnOk result (found.new ≡ found.old ++ function_faults classes.now items.now owner function.now) }
{
    note_declaring(alloc, found, classes, items, owner, function)?;
    note_leaving(found, function)?;
    note_running(alloc, found, classes, items, owner, function)
}

fn note_members(
    alloc: Global,
    found: &mut Items<Fault>,
    classes: &Classes,
    items: &[RawItem],
    class: u32,
    members: &[RawFunc],
) -> Result<(), OutOfMemory>
    requires { length classes.now.list < 2 ^ 32 }
    ensures { OnOk result (found.new ≡ found.old ++ flat_map (function_faults classes.now items.now (Some class)) members.now) }
{
    'members: for method in members {
        note_function(alloc, found, classes, items, Some(class), method)?;
    }
    Ok(())
}

fn as_number(n: usize) -> Result<u32, OutOfMemory>
    ensures { IfOk result (λ number. number ≡ n) }
{
    match u32::try_from(n) {
        Ok(number) => Ok(number),
        Err(_) => Err(OutOfMemory),
    }
}

fn note_class(
    alloc: Global,
    found: &mut Items<Fault>,
    classes: &Classes,
    items: &[RawItem],
    number: usize,
    members: &[RawFunc],
) -> Result<(), OutOfMemory>
    requires { length classes.now.list < 2 ^ 32 }
    ensures { OnOk result (found.new ≡ found.old ++ flat_map (function_faults classes.now items.now (Some number)) members.now) }
{
    note_members(alloc, found, classes, items, as_number(number)?, members)
}

fn note_all(
    alloc: Global,
    found: &mut Items<Fault>,
    classes: &Classes,
    items: &[RawItem],
) -> Result<(), OutOfMemory>
    requires { length classes.now.list < 2 ^ 32 }
    ensures { OnOk result (found.new ≡ faults_behind classes.now items.now 1 found.old items.now) }
{
    let mut number = 1usize;
    'items: for item in items {
        match item {
            RawItem::Class(class) => {
                note_class(
                    alloc,
                    found,
                    classes,
                    items,
                    number,
                    class.members.as_slice(),
                )?;
                number += 1;
            }
            RawItem::Func(function) => note_function(alloc, found, classes, items, None, function)?,
        }
    }
    Ok(())
}

/// The faults of a tree by the rules that look at forms.
pub fn form_faults(alloc: Global, raw: &Raw, classes: &Classes) -> Result<Items<Fault>, OutOfMemory>
    ensures { IfOk result (λ found. found ≡ form_faults raw.now classes.now) }
{
    if classes.list.len() > u32::MAX as usize {
        return Err(OutOfMemory);
    }
    let mut found = Items::new(alloc);
    note_all(alloc, &mut found, classes, raw.items.as_slice())?;
    Ok(found)
}
