// Jumps out of loops and `finally` blocks.
ghost use Rattle.std.specs.Prelude.{◌≡◌, ◌++◌, map, OnOk};
ghost use Rattle.type_forms.specs.Jumps.{all_jumps, jumps, part_jumps, handler_jumps, jump_faults};

use py_base::OutOfMemory;
use raw_syntax::{RawElif, RawFunc, RawHandler, RawStmt, RawStmtForm};
use sqlite_items::Items;
use type_base::{Fault, Rank, note_if};

#[cycle(jumps)]
fn note_jumps(
    s: &RawStmt,
    found: &mut Items<Fault>,
    looped: bool,
    guarded: bool,
) -> Result<(), OutOfMemory>
    ensures { OnOk result (found.new ≡ found.old ++ jumps s.now looped guarded) }
{
    match &s.form {
        RawStmtForm::Break | RawStmtForm::Continue => {
            note_if(found, !looped, s.place, Rank::Mistyped(13))?
        }
        RawStmtForm::Return(_) => note_if(found, guarded, s.place, Rank::Mistyped(13))?,
        RawStmtForm::If(_, body, parts, other) => {
            note_block(body, found, looped, guarded)?;
            note_parts(parts, found, looped, guarded)?;
            note_block(other, found, looped, guarded)?;
        }
        RawStmtForm::While(_, body) => note_block(body, found, true, guarded)?,
        RawStmtForm::Try(body, handlers, other, last) => {
            note_block(body, found, looped, guarded)?;
            note_handlers(handlers, found, looped, guarded)?;
            note_block(other, found, looped, guarded)?;
            note_block(last, found, false, true)?;
        }
        RawStmtForm::With(_, body) => note_block(body, found, looped, guarded)?,
        _ => {}
    }
    Ok(())
}

#[cycle(jumps)]
fn note_block(
    ss: &Items<RawStmt>,
    found: &mut Items<Fault>,
    looped: bool,
    guarded: bool,
) -> Result<(), OutOfMemory>
    ensures { OnOk result (found.new ≡ found.old ++ all_jumps (map jumps ss.now) looped guarded) }
{
    'statements: for s in ss.as_slice() {
        note_jumps(s, found, looped, guarded)?;
    }
    Ok(())
}

#[cycle(jumps)]
fn note_parts(
    parts: &Items<RawElif>,
    found: &mut Items<Fault>,
    looped: bool,
    guarded: bool,
) -> Result<(), OutOfMemory>
    ensures { OnOk result (found.new ≡ found.old ++ all_jumps (map part_jumps parts.now) looped guarded) }
{
    'parts: for part in parts.as_slice() {
        note_block(&part.body, found, looped, guarded)?;
    }
    Ok(())
}

#[cycle(jumps)]
fn note_handlers(
    handlers: &Items<RawHandler>,
    found: &mut Items<Fault>,
    looped: bool,
    guarded: bool,
) -> Result<(), OutOfMemory>
    ensures { OnOk result (found.new ≡ found.old ++ all_jumps (map handler_jumps handlers.now) looped guarded) }
{
    'handlers: for handler in handlers.as_slice() {
        note_block(&handler.body, found, looped, guarded)?;
    }
    Ok(())
}

/// Adds the faults of the jumps of a function.
pub fn note_all_jumps(found: &mut Items<Fault>, function: &RawFunc) -> Result<(), OutOfMemory>
    ensures { OnOk result (found.new ≡ found.old ++ jump_faults function.now) }
{
    note_block(&function.body, found, false, false)
}
