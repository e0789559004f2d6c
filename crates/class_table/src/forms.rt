// Bases, members, and the form of `__init__`.
ghost use Rattle.std.specs.Prelude.{◌≡◌, ◌<◌, ◌^◌, ◌++◌, ◌&&◌, length, find, is_some, is_none, codes, bytes_eq, option_copied, OnOk};
ghost use Rattle.class_table.specs.Bases.{is_init, locked_class};
ghost use Rattle.class_table.specs.Tables.{is_lock};
ghost use Rattle.class_table.specs.Faults.{named_fault, base_faults, is_alone, has_self_alone, has_predicate_alone, is_invariant, has_invariant_alone, has_no_members, has_fit_members, member_faults, super_fault, form_faults, init_faults};

use crate::fault::ClassFault;
use crate::init::{after_contracts, is_super_statement};
use crate::lists::split;
use crate::noting::note_if;
use crate::outline::Table;
use crate::rows::{is_exception, is_init, locked_class, named_base};
use py_base::{OutOfMemory, Place, Text};
use raw_syntax::{RawClass, RawFunc, RawParam, RawStmt, RawTy};

/// Whether the class is one of locks.
pub fn is_lock(table: &Table, number: usize) -> bool
    ensures { result ≡ is_lock table.now number }
{
    match table.locks.as_slice().get(number) {
        Some(lock) => lock.is_some(),
        None => false,
    }
}

fn note_named(
    found: &mut Vec<ClassFault>,
    table: &Table,
    number: usize,
    place: Place,
    base: Option<u32>,
) -> Result<(), OutOfMemory>
    ensures { OnOk result (found.new.items ≡ found.old.items ++ named_fault table.now number place base) }
{
    let Some(k) = base else {
        found.push(ClassFault::UnknownBase(place))?;
        return Ok(());
    };
    if is_lock(table, k as usize) {
        found.push(ClassFault::UnknownBase(place))?;
        return Ok(());
    }
    note_if(found, number <= k as usize, ClassFault::BaseCycle(place))
}

fn is_lock_base(table: &Table, base: &RawTy) -> bool
    requires { length table.now.names < 2 ^ 32 }
    ensures { result ≡ is_some (locked_class table.now.names table.now.rows base.now) }
{
    locked_class(&table.names, table.rows.as_slice(), base).is_some()
}

/// Adds the fault of the base of a class.
pub fn note_base(
    found: &mut Vec<ClassFault>,
    table: &Table,
    number: usize,
    base: &Option<RawTy>,
) -> Result<(), OutOfMemory>
    requires { length table.now.names < 2 ^ 32 }
    ensures { OnOk result (found.new.items ≡ found.old.items ++ base_faults table.now number base.now) }
{
    let Some(ty) = base else {
        return Ok(());
    };
    if is_lock_base(table, ty) {
        return Ok(());
    }
    let named = named_base(&table.names, ty);
    note_named(found, table, number, ty.place, named)
}

fn is_alone(ty: &RawTy, word: &[u8]) -> bool
    ensures { result ≡ is_alone ty.now word.now }
{
    if ty.head.bytes() != word {
        return false;
    }
    match ty.inner {
        None => true,
        Some(_) => false,
    }
}

/// Whether the type is `None`.
pub fn is_none_type(ty: &RawTy) -> bool
    ensures { result ≡ is_alone ty.now (codes "None") }
{
    is_alone(ty, b"None")
}

fn is_untyped_self(param: &RawParam) -> bool
    ensures { result ≡ (bytes_eq param.now.name (codes "self") && is_none param.now.ty) }
{
    if param.name.bytes() != b"self".as_slice() {
        return false;
    }
    match param.ty {
        None => true,
        Some(_) => false,
    }
}

fn has_self_alone(params: &[RawParam]) -> bool
    ensures { result ≡ has_self_alone params.now }
{
    let Some((first, rest)) = split(params) else {
        return false;
    };
    match split(rest) {
        None => is_untyped_self(first),
        Some(_) => false,
    }
}

fn has_predicate_alone(marks: &[Text]) -> bool
    ensures { result ≡ has_predicate_alone marks.now }
{
    let Some((first, rest)) = split(marks) else {
        return false;
    };
    match split(rest) {
        None => first.bytes() == b"Predicate".as_slice(),
        Some(_) => false,
    }
}

fn is_invariant(f: &RawFunc) -> bool
    ensures { result ≡ is_invariant f.now }
{
    f.name.bytes() == b"invariant".as_slice()
        && has_predicate_alone(f.marks.as_slice())
        && has_self_alone(f.params.as_slice())
        && is_alone(&f.ret, b"bool")
}

fn has_invariant_alone(members: &[RawFunc]) -> bool
    ensures { result ≡ has_invariant_alone members.now }
{
    let Some((first, rest)) = split(members) else {
        return false;
    };
    match split(rest) {
        None => is_invariant(first),
        Some(_) => false,
    }
}

fn has_no_members(members: &[RawFunc]) -> bool
    ensures { result ≡ has_no_members members.now }
{
    match split(members) {
        None => true,
        Some(_) => false,
    }
}

fn has_fit_members(table: &Table, number: usize, members: &[RawFunc]) -> bool
    ensures { result ≡ has_fit_members table.now number members.now }
{
    if is_lock(table, number) {
        return has_invariant_alone(members);
    }
    if is_exception(table.rows.as_slice(), number) {
        return has_no_members(members);
    }
    true
}

/// Adds the fault of the members of a class of locks or exceptions.
pub fn note_members(
    found: &mut Vec<ClassFault>,
    table: &Table,
    number: usize,
    class: &RawClass,
) -> Result<(), OutOfMemory>
    ensures { OnOk result (found.new.items ≡ found.old.items ++ member_faults table.now number class.now) }
{
    let fit = has_fit_members(table, number, class.members.as_slice());
    note_if(found, !fit, ClassFault::BadInit(class.place))
}

fn note_super(
    found: &mut Vec<ClassFault>,
    place: Place,
    body: &[RawStmt],
) -> Result<(), OutOfMemory>
    ensures { OnOk result (found.new.items ≡ found.old.items ++ super_fault place body.now) }
{
    match split(body) {
        None => {
            found.push(ClassFault::BadInit(place))?;
            Ok(())
        }
        Some((first, _)) => note_if(
            found,
            !is_super_statement(first),
            ClassFault::BadInit(first.place),
        ),
    }
}

fn note_form(found: &mut Vec<ClassFault>, needed: bool, f: &RawFunc) -> Result<(), OutOfMemory>
    ensures { OnOk result (found.new.items ≡ found.old.items ++ form_faults needed f.now) }
{
    note_if(found, !is_none_type(&f.ret), ClassFault::BadInit(f.place))?;
    if needed {
        note_super(found, f.place, after_contracts(f.body.as_slice()))?;
    }
    Ok(())
}

fn find_init(members: &[RawFunc]) -> Option<&RawFunc>
    ensures { option_copied result ≡ find is_init members.now }
{
    members.iter().find(|method| is_init(method))
}

/// Adds the faults of the form of a class's `__init__`, if it has one.
pub fn note_init(
    found: &mut Vec<ClassFault>,
    needed: bool,
    members: &[RawFunc],
) -> Result<(), OutOfMemory>
    ensures { OnOk result (found.new.items ≡ found.old.items ++ init_faults needed (find is_init members.now)) }
{
    match find_init(members) {
        Some(f) => note_form(found, needed, f),
        None => Ok(()),
    }
}
