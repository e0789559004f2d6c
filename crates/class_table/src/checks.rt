// All faults of the classes of a tree.
ghost use Rattle.std.specs.Prelude.{◌≡◌, ◌<◌, ◌≤◌, ◌+◌, ◌^◌, ◌++◌, length, flat_map, IfOk, OnOk};
ghost use Rattle.std.specs.List.{list_any};
ghost use Rattle.class_table.specs.Faults.{local_faults, class_faults, faults_behind, has_no_marks, has_no_parameters, is_main, is_main_item, main_faults, faults_with};

use crate::assigned::note_locals;
use crate::fault::ClassFault;
use crate::forms::{is_none_type, note_base, note_init, note_members};
use crate::lists::split;
use crate::noting::note_if;
use crate::outline::Table;
use crate::rows::needs_super;
use crate::scope::{note_items, note_scope};
use py_base::{OutOfMemory, Place, Text};
use raw_syntax::{Raw, RawClass, RawFunc, RawItem, RawParam};
use std::alloc::Global;

fn note_all_locals(found: &mut Vec<ClassFault>, members: &[RawFunc]) -> Result<(), OutOfMemory>
    ensures { OnOk result (found.new.items ≡ found.old.items ++ flat_map local_faults members.now) }
{
    'members: for method in members {
        note_locals(found, method)?;
    }
    Ok(())
}

// All of one class.
fn note_class(
    alloc: Global,
    found: &mut Vec<ClassFault>,
    table: &Table,
    number: usize,
    class: &RawClass,
) -> Result<(), OutOfMemory>
    requires { length table.now.names < 2 ^ 32 }
    ensures { OnOk result (found.new.items ≡ found.old.items ++ class_faults table.now number class.now) }
{
    let members = class.members.as_slice();
    note_scope(alloc, found, table, number)?;
    note_base(found, table, number, &class.base)?;
    note_members(found, table, number, class)?;
    note_init(found, needs_super(table.rows.as_slice(), number), members)?;
    note_all_locals(found, members)
}

// Those of the classes and functions behind those of their names.
fn note_all(
    alloc: Global,
    found: &mut Vec<ClassFault>,
    table: &Table,
    items: &[RawItem],
) -> Result<(), OutOfMemory>
    requires { length table.now.names < 2 ^ 32 }
    ensures { OnOk result (found.new.items ≡ faults_behind table.now 1 found.old.items items.now) }
{
    let mut number = 1usize;
    'items: for item in items {
        match item {
            RawItem::Class(class) => {
                note_class(alloc, found, table, number, class)?;
                number += 1;
            }
            RawItem::Func(function) => note_locals(found, function)?,
        }
    }
    Ok(())
}

fn has_no_marks(marks: &[Text]) -> bool
    ensures { result ≡ has_no_marks marks.now }
{
    match split(marks) {
        None => true,
        Some(_) => false,
    }
}

fn has_no_parameters(params: &[RawParam]) -> bool
    ensures { result ≡ has_no_parameters params.now }
{
    match split(params) {
        None => true,
        Some(_) => false,
    }
}

fn is_main(f: &RawFunc) -> bool
    ensures { result ≡ is_main f.now }
{
    f.name.bytes() == b"main".as_slice()
        && has_no_marks(f.marks.as_slice())
        && has_no_parameters(f.params.as_slice())
        && is_none_type(&f.ret)
}

fn is_main_item(item: &RawItem) -> bool
    ensures { result ≡ is_main_item item.now }
{
    match item {
        RawItem::Class(_) => false,
        RawItem::Func(function) => is_main(function),
    }
}

fn has_main(items: &[RawItem]) -> bool
    ensures { result ≡ list_any is_main_item items.now }
{
    items.iter().any(|item| is_main_item(item))
}

fn note_main(found: &mut Vec<ClassFault>, items: &[RawItem], end: Place) -> Result<(), OutOfMemory>
    ensures { OnOk result (found.new.items ≡ found.old.items ++ main_faults items.now end) }
{
    note_if(found, !has_main(items), ClassFault::NoMain(end))
}

/// All faults of the classes of a tree, by their tables.
pub fn all_faults(alloc: Global, table: &Table, raw: &Raw) -> Result<Vec<ClassFault>, OutOfMemory>
    requires { length table.now.names < 2 ^ 32 }
    ensures { IfOk result (λ found. found.items ≡ faults_with table.now raw.now) }
{
    let items = raw.items.as_slice();
    let mut found = Vec::new(alloc);
    note_items(&mut found, items)?;
    note_all(alloc, &mut found, table, items)?;
    note_main(&mut found, items, raw.end)?;
    Ok(found)
}
