// Reads that some way reaches with no assignment.
ghost use Rattle.std.specs.Prelude.{◌≡◌, ◌++◌, flat_map, map, false, OnOk};
ghost use Rattle.type_ways.specs.Ways.{block_faults, each_faults, way, part_way, handler_way, name_faults, unassigned_faults};

use crate::reading::{note_assigned, note_augmented, note_returned, note_unsettled};
use crate::way::{block_settles, is_settled};
use py_base::{OutOfMemory, Text};
use raw_syntax::{RawElif, RawFunc, RawHandler, RawStmt, RawStmtForm};
use sqlite_items::Items;
use std::alloc::Global;
use type_base::{Fault, locals};

#[cycle(ways)]
fn note_way(
    s: &RawStmt,
    found: &mut Items<Fault>,
    name: &[u8],
    settled: bool,
) -> Result<(), OutOfMemory>
    ensures { OnOk result (found.new ≡ found.old ++ (way name.now s.now).faults settled) }
{
    match &s.form {
        RawStmtForm::Return(value) => note_returned(value, found, name, settled)?,
        RawStmtForm::Assert(e) | RawStmtForm::Eval(e) => note_unsettled(e, found, name, settled)?,
        RawStmtForm::Declare(target, _, e) | RawStmtForm::Assign(target, e) => {
            note_assigned(target, e, found, name, settled)?
        }
        RawStmtForm::Augment(target, _, _, e) => {
            note_augmented(target, e, found, name, settled)?
        }
        RawStmtForm::If(e, body, parts, other) => {
            note_unsettled(e, found, name, settled)?;
            note_block(body, found, name, settled)?;
            note_parts(parts, found, name, settled)?;
            note_block(other, found, name, settled)?;
        }
        RawStmtForm::While(e, body) | RawStmtForm::With(e, body) => {
            note_unsettled(e, found, name, settled)?;
            note_block(body, found, name, settled)?;
        }
        RawStmtForm::Try(body, handlers, other, last) => {
            note_block(body, found, name, settled)?;
            note_handlers(handlers, found, name, settled)?;
            note_block(other, found, name, block_settles(body, name, settled))?;
            note_block(last, found, name, settled)?;
        }
        _ => {}
    }
    Ok(())
}

#[cycle(ways)]
fn note_block(
    ss: &Items<RawStmt>,
    found: &mut Items<Fault>,
    name: &[u8],
    settled: bool,
) -> Result<(), OutOfMemory>
    ensures { OnOk result (found.new ≡ found.old ++ block_faults (map (way name.now) ss.now) settled) }
{
    let mut state = settled;
    'statements: for s in ss.as_slice() {
        note_way(s, found, name, state)?;
        state = is_settled(s, name, state);
    }
    Ok(())
}

#[cycle(ways)]
fn note_parts(
    parts: &Items<RawElif>,
    found: &mut Items<Fault>,
    name: &[u8],
    settled: bool,
) -> Result<(), OutOfMemory>
    ensures { OnOk result (found.new ≡ found.old ++ each_faults (map (part_way name.now) parts.now) settled) }
{
    'parts: for part in parts.as_slice() {
        note_unsettled(&part.condition, found, name, settled)?;
        note_block(&part.body, found, name, settled)?;
    }
    Ok(())
}

#[cycle(ways)]
fn note_handlers(
    handlers: &Items<RawHandler>,
    found: &mut Items<Fault>,
    name: &[u8],
    settled: bool,
) -> Result<(), OutOfMemory>
    ensures { OnOk result (found.new ≡ found.old ++ each_faults (map (handler_way name.now) handlers.now) settled) }
{
    'handlers: for handler in handlers.as_slice() {
        note_block(&handler.body, found, name, settled)?;
    }
    Ok(())
}

fn note_name(
    found: &mut Items<Fault>,
    body: &Items<RawStmt>,
    name: &[u8],
) -> Result<(), OutOfMemory>
    ensures { OnOk result (found.new ≡ found.old ++ name_faults body.now name.now) }
{
    note_block(body, found, name, false)
}

fn note_names(
    found: &mut Items<Fault>,
    body: &Items<RawStmt>,
    names: &[Text],
) -> Result<(), OutOfMemory>
    ensures { OnOk result (found.new ≡ found.old ++ flat_map (name_faults body.now) names.now) }
{
    'names: for name in names {
        note_name(found, body, name.bytes())?;
    }
    Ok(())
}

/// Adds the faults of the reads of locals that some way reaches with no assignment.
pub fn note_unassigned(
    alloc: Global,
    found: &mut Items<Fault>,
    function: &RawFunc,
) -> Result<(), OutOfMemory>
    ensures { OnOk result (found.new ≡ found.old ++ unassigned_faults function.now) }
{
    let names = locals(alloc, function)?;
    note_names(found, &function.body, names.as_slice())
}
