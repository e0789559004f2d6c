// Annotations of locals.
ghost use Rattle.std.specs.Prelude.{◌≡◌, ◌≤◌, ◌++◌, [], length, take, map, OnOk};
ghost use Rattle.class_table.specs.Shapes.{shape};
ghost use Rattle.type_ways.specs.Settings.{nil_place, setting_of, all_of, settings, part_settings, handler_settings, is_set, nil_fault, setting_fault, faults_behind, setting_faults};

use crate::setting::Setting;
use py_base::{OutOfMemory, Place};
use raw_syntax::{
    RawElif, RawExpr, RawExprForm, RawFunc, RawHandler, RawParam, RawStmt, RawStmtForm,
};
use sqlite_items::Items;
use std::alloc::Global;
use type_base::{Fault, Rank, is_parameter, note_if};

fn nil_place(e: &RawExpr) -> Option<Place>
    ensures { result ≡ nil_place e.now }
{
    match &e.form {
        RawExprForm::Bracket(inner) => nil_place(inner.get()),
        RawExprForm::Nil => Some(e.place),
        _ => None,
    }
}

fn add_setting(
    target: &RawExpr,
    alloc: Global,
    all: &mut Items<Setting>,
    place: Place,
    annotated: bool,
    nil: Option<Place>,
) -> Result<(), OutOfMemory>
    ensures { OnOk result (all.new ≡ all.old ++ setting_of place annotated nil (shape target.now)) }
{
    match &target.form {
        RawExprForm::Bracket(inner) => {
            add_setting(inner.get(), alloc, all, place, annotated, nil)
        }
        RawExprForm::Name(name) => {
            let name = name.copy(alloc)?;
            all.push(Setting {
                place,
                name,
                annotated,
                nil,
            })?;
            Ok(())
        }
        _ => Ok(()),
    }
}

#[cycle(settings)]
fn add_settings(s: &RawStmt, alloc: Global, all: &mut Items<Setting>) -> Result<(), OutOfMemory>
    ensures { OnOk result (all.new ≡ all.old ++ settings s.now) }
{
    match &s.form {
        RawStmtForm::Declare(target, _, _) => {
            add_setting(target, alloc, all, s.place, true, None)?
        }
        RawStmtForm::Assign(target, value) => {
            add_setting(target, alloc, all, s.place, false, nil_place(value))?
        }
        RawStmtForm::Augment(target, _, _, _) => {
            add_setting(target, alloc, all, s.place, false, None)?
        }
        RawStmtForm::If(_, body, parts, other) => {
            add_block(body, alloc, all)?;
            add_parts(parts, alloc, all)?;
            add_block(other, alloc, all)?;
        }
        RawStmtForm::While(_, body) | RawStmtForm::With(_, body) => add_block(body, alloc, all)?,
        RawStmtForm::Try(body, handlers, other, last) => {
            add_block(body, alloc, all)?;
            add_handlers(handlers, alloc, all)?;
            add_block(other, alloc, all)?;
            add_block(last, alloc, all)?;
        }
        _ => {}
    }
    Ok(())
}

#[cycle(settings)]
fn add_block(
    ss: &Items<RawStmt>,
    alloc: Global,
    all: &mut Items<Setting>,
) -> Result<(), OutOfMemory>
    ensures { OnOk result (all.new ≡ all.old ++ all_of (map settings ss.now)) }
{
    'statements: for s in ss.as_slice() {
        add_settings(s, alloc, all)?;
    }
    Ok(())
}

#[cycle(settings)]
fn add_parts(
    parts: &Items<RawElif>,
    alloc: Global,
    all: &mut Items<Setting>,
) -> Result<(), OutOfMemory>
    ensures { OnOk result (all.new ≡ all.old ++ all_of (map part_settings parts.now)) }
{
    'parts: for part in parts.as_slice() {
        add_block(&part.body, alloc, all)?;
    }
    Ok(())
}

#[cycle(settings)]
fn add_handlers(
    handlers: &Items<RawHandler>,
    alloc: Global,
    all: &mut Items<Setting>,
) -> Result<(), OutOfMemory>
    ensures { OnOk result (all.new ≡ all.old ++ all_of (map handler_settings handlers.now)) }
{
    'handlers: for handler in handlers.as_slice() {
        add_block(&handler.body, alloc, all)?;
    }
    Ok(())
}

fn is_set(before: &[Setting], name: &[u8]) -> bool
    ensures { result ≡ is_set before.now name.now }
{
    before.iter().any(|setting| name == setting.name.bytes())
}

fn note_nil(found: &mut Items<Fault>, nil: Option<Place>) -> Result<(), OutOfMemory>
    ensures { OnOk result (found.new ≡ found.old ++ nil_fault nil) }
{
    match nil {
        None => Ok(()),
        Some(place) => {
            found.push(Fault {
                place,
                rank: Rank::Mistyped(6),
            })?;
            Ok(())
        }
    }
}

fn note_setting(
    found: &mut Items<Fault>,
    params: &[RawParam],
    before: &[Setting],
    setting: &Setting,
) -> Result<(), OutOfMemory>
    ensures { OnOk result (found.new ≡ found.old ++ setting_fault params.now before.now setting.now) }
{
    if is_parameter(params, setting.name.bytes()) {
        return Ok(());
    }
    if is_set(before, setting.name.bytes()) {
        return note_if(found, setting.annotated, setting.place, Rank::Mistyped(6));
    }
    note_nil(found, setting.nil)
}

// The fault of the assignment at this place among all.
fn note_at(
    found: &mut Items<Fault>,
    params: &[RawParam],
    all: &[Setting],
    at: usize,
    setting: &Setting,
) -> Result<(), OutOfMemory>
    requires { at ≤ length all.now }
    ensures { OnOk result (found.new ≡ found.old ++ setting_fault params.now (take at all.now) setting.now) }
{
    note_setting(found, params, &all[..at], setting)
}

fn note_all(
    found: &mut Items<Fault>,
    params: &[RawParam],
    all: &[Setting],
) -> Result<(), OutOfMemory>
    ensures { OnOk result (found.new ≡ found.old ++ faults_behind params.now [] all.now) }
{
    let mut at = 0usize;
    'settings: for setting in all {
        note_at(found, params, all, at, setting)?;
        at += 1;
    }
    Ok(())
}

/// Adds the faults of the annotations of a function's locals.
pub fn note_settings(
    alloc: Global,
    found: &mut Items<Fault>,
    function: &RawFunc,
) -> Result<(), OutOfMemory>
    ensures { OnOk result (found.new ≡ found.old ++ setting_faults function.now) }
{
    let mut all = Items::new(alloc);
    add_block(&function.body, alloc, &mut all)?;
    note_all(found, function.params.as_slice(), all.as_slice())
}
