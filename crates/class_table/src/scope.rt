// Names that are declared twice, or may not be declared.
ghost use Rattle.std.specs.Prelude.{◌≡◌, ◌<◌, ◌≤◌, ◌++◌, [], length, take, drop, bytes_eq, nat_eq, IfOk, OnOk, ℕ};
ghost use Rattle.std.specs.List.{list_any};
ghost use Rattle.raw_syntax.specs.declared.RawItem.{RawItem};
ghost use Rattle.class_table.specs.Bases.{bases_from, classes_above};
ghost use Rattle.class_table.specs.Tables.{declared_by};
ghost use Rattle.class_table.specs.Faults.{item_name, item_place, is_taken, item_fault, module_faults, is_field, is_unfit, clashes, clashes_with, is_refused, declared_fault, declared_faults, scope_faults};

use crate::fault::ClassFault;
use crate::init::is_declared;
use crate::names::{is_built_in, is_reserved};
use crate::noting::note_if;
use crate::outline::{Declared, Heritage, Table};
use crate::rows::base_of;
use py_base::{OutOfMemory, Place};
use raw_syntax::RawItem;
use std::alloc::Global;

fn item_name(item: &RawItem) -> &[u8]
    ensures { result.now ≡ item_name item.now }
{
    match item {
        RawItem::Class(class) => class.name.bytes(),
        RawItem::Func(function) => function.name.bytes(),
    }
}

fn item_place(item: &RawItem) -> Place
    ensures { result ≡ item_place item.now }
{
    match item {
        RawItem::Class(class) => class.place,
        RawItem::Func(function) => function.place,
    }
}

fn is_among_items(before: &[RawItem], name: &[u8]) -> bool
    ensures { result ≡ list_any (λ (x : RawItem). bytes_eq name.now (item_name x)) before.now }
{
    before.iter().any(|item| name == item_name(item))
}

fn is_taken(before: &[RawItem], name: &[u8]) -> bool
    ensures { result ≡ is_taken before.now name.now }
{
    is_built_in(name) || is_reserved(name) || is_among_items(before, name)
}

// The fault of the item at this place among the others.
fn note_item(
    found: &mut Vec<ClassFault>,
    items: &[RawItem],
    at: usize,
    item: &RawItem,
) -> Result<(), OutOfMemory>
    requires { at ≤ length items.now }
    ensures { OnOk result (found.new.items ≡ found.old.items ++ item_fault (take at items.now) item.now) }
{
    let taken = is_taken(&items[..at], item_name(item));
    note_if(found, taken, ClassFault::DuplicateName(item_place(item)))
}

/// Adds the faults of the names of classes and functions.
pub fn note_items(found: &mut Vec<ClassFault>, items: &[RawItem]) -> Result<(), OutOfMemory>
    ensures { OnOk result (found.new.items ≡ found.old.items ++ module_faults [] items.now) }
{
    let mut at = 0usize;
    'items: for item in items {
        note_item(found, items, at, item)?;
        at += 1;
    }
    Ok(())
}

fn is_field(d: &Declared) -> bool
    ensures { result ≡ is_field d.now }
{
    d.field.is_some()
}

fn is_unfit(d: &Declared) -> bool
    ensures { result ≡ is_unfit d.now }
{
    let name = d.name.bytes();
    if is_built_in(name) {
        return true;
    }
    if is_field(d) {
        return is_reserved(name);
    }
    is_reserved(name) && name != b"__init__".as_slice()
}

fn clashes(d: &Declared, e: &Declared) -> bool
    ensures { result ≡ clashes d.now e.now }
{
    d.name.bytes() == e.name.bytes() && (is_field(d) || is_field(e))
}

fn clashes_among(d: &Declared, declared: &[Declared]) -> bool
    ensures { result ≡ list_any (clashes d.now) declared.now }
{
    declared.iter().any(|e| clashes(d, e))
}

/// What the class of a number declares.
pub fn declared_by(table: &Table, number: usize) -> &[Declared]
    ensures { result.now ≡ declared_by table.now number }
{
    match table.declared.as_slice().get(number) {
        Some(declared) => declared.as_slice(),
        None => &[],
    }
}

fn clashes_with(table: &Table, d: &Declared, number: usize) -> bool
    ensures { result ≡ clashes_with table.now d.now number }
{
    clashes_among(d, declared_by(table, number))
}

fn clashes_above(table: &Table, above: &[u32], d: &Declared) -> bool
    ensures { result ≡ list_any (clashes_with table.now d.now) above.now }
{
    above.iter().any(|k| clashes_with(table, d, *k as usize))
}

fn is_refused(table: &Table, above: &[u32], before: &[Declared], d: &Declared) -> bool
    ensures { result ≡ is_refused table.now above.now before.now d.now }
{
    is_unfit(d) || is_declared(d.name.bytes(), before) || clashes_above(table, above, d)
}

// The classes above a class, the nearest first.
#[tactic(auto, using(crate::proofs::Chains::one_above))]
fn classes_above(alloc: Global, rows: &[Heritage], number: usize) -> Result<Vec<u32>, OutOfMemory>
    ensures { IfOk result (λ above. above.items ≡ classes_above rows.now number) }
{
    let mut above = Vec::new(alloc);
    let mut class = base_of(rows, number);
    let mut left = rows.len();
    'bases: while left > 0 {
        let Some(k) = class else {
            return Ok(above);
        };
        above.push(k)?;
        class = base_of(rows, k as usize);
        left -= 1;
    }
    Ok(above)
}

// The fault of what stands at this place among what a class declares.
fn note_declared(
    found: &mut Vec<ClassFault>,
    table: &Table,
    above: &[u32],
    declared: &[Declared],
    at: usize,
    d: &Declared,
) -> Result<(), OutOfMemory>
    requires { at ≤ length declared.now }
    ensures { OnOk result (found.new.items ≡ found.old.items ++ declared_fault table.now above.now (take at declared.now) d.now) }
{
    let refused = is_refused(table, above, &declared[..at], d);
    note_if(found, refused, ClassFault::DuplicateName(d.place))
}

fn note_all_declared(
    found: &mut Vec<ClassFault>,
    table: &Table,
    above: &[u32],
    declared: &[Declared],
) -> Result<(), OutOfMemory>
    ensures { OnOk result (found.new.items ≡ found.old.items ++ declared_faults table.now above.now [] declared.now) }
{
    let mut at = 0usize;
    'declared: for d in declared {
        note_declared(found, table, above, declared, at, d)?;
        at += 1;
    }
    Ok(())
}

/// Adds the faults of the names that a class declares.
pub fn note_scope(
    alloc: Global,
    found: &mut Vec<ClassFault>,
    table: &Table,
    number: usize,
) -> Result<(), OutOfMemory>
    ensures { OnOk result (found.new.items ≡ found.old.items ++ scope_faults table.now number) }
{
    let above = classes_above(alloc, table.rows.as_slice(), number)?;
    note_all_declared(found, table, &above, declared_by(table, number))
}
