// Reads of a name in an expression.
ghost use Rattle.std.specs.Prelude.{◌≡◌, ◌++◌, map, OnOk};
ghost use Rattle.class_table.specs.Shapes.{shape};
ghost use Rattle.type_base.specs.Faults.{joined};
ghost use Rattle.type_ways.specs.Ways.{reads, reads_in, link_reads, unless, target_reads, returned_reads};

use crate::sight::is_some_name;
use py_base::OutOfMemory;
use raw_syntax::{RawArgument, RawComparison, RawExpr, RawExprForm};
use sqlite_items::Items;
use type_base::{Fault, Rank, note_if};

/// Adds a fault for each read of the name in an expression.
#[cycle(reads)]
pub fn note_reads(e: &RawExpr, found: &mut Items<Fault>, name: &[u8]) -> Result<(), OutOfMemory>
    ensures { OnOk result (found.new ≡ found.old ++ reads name.now e.now) }
{
    match &e.form {
        RawExprForm::Name(word) => {
            note_if(found, word.bytes() == name, e.place, Rank::Unassigned)?
        }
        RawExprForm::Bracket(inner)
        | RawExprForm::Negate(inner)
        | RawExprForm::Not(inner)
        | RawExprForm::Field(inner, _) => note_reads(inner.get(), found, name)?,
        RawExprForm::Tuple(parts) => note_each(parts, found, name)?,
        RawExprForm::Call(called, arguments) => {
            note_reads(called.get(), found, name)?;
            note_arguments(arguments, found, name)?;
        }
        RawExprForm::Binary(_, a, b) | RawExprForm::And(a, b) | RawExprForm::Or(a, b) => {
            note_reads(a.get(), found, name)?;
            note_reads(b.get(), found, name)?;
        }
        RawExprForm::Chain(first, links) => {
            note_reads(first.get(), found, name)?;
            note_links(links, found, name)?;
        }
        _ => {}
    }
    Ok(())
}

#[cycle(reads)]
fn note_each(
    parts: &Items<RawExpr>,
    found: &mut Items<Fault>,
    name: &[u8],
) -> Result<(), OutOfMemory>
    ensures { OnOk result (found.new ≡ found.old ++ joined (map (reads name.now) parts.now)) }
{
    'parts: for part in parts.as_slice() {
        note_reads(part, found, name)?;
    }
    Ok(())
}

#[cycle(reads)]
fn note_argument(
    argument: &RawArgument,
    found: &mut Items<Fault>,
    name: &[u8],
) -> Result<(), OutOfMemory>
    ensures { OnOk result (found.new ≡ found.old ++ reads_in name.now argument.now) }
{
    match argument {
        RawArgument::Value(e) => note_reads(e, found, name),
        RawArgument::Named(_, e) => note_reads(e, found, name),
    }
}

#[cycle(reads)]
fn note_arguments(
    arguments: &Items<RawArgument>,
    found: &mut Items<Fault>,
    name: &[u8],
) -> Result<(), OutOfMemory>
    ensures { OnOk result (found.new ≡ found.old ++ joined (map (reads_in name.now) arguments.now)) }
{
    'arguments: for argument in arguments.as_slice() {
        note_argument(argument, found, name)?;
    }
    Ok(())
}

#[cycle(reads)]
fn note_links(
    links: &Items<RawComparison>,
    found: &mut Items<Fault>,
    name: &[u8],
) -> Result<(), OutOfMemory>
    ensures { OnOk result (found.new ≡ found.old ++ joined (map (link_reads name.now) links.now)) }
{
    'links: for link in links.as_slice() {
        note_reads(&link.operand, found, name)?;
    }
    Ok(())
}

/// The same, where the name isn't settled.
pub fn note_unsettled(
    e: &RawExpr,
    found: &mut Items<Fault>,
    name: &[u8],
    settled: bool,
) -> Result<(), OutOfMemory>
    ensures { OnOk result (found.new ≡ found.old ++ unless settled (reads name.now e.now)) }
{
    if settled {
        return Ok(());
    }
    note_reads(e, found, name)
}

/// Those of an expression that may be missing.
pub fn note_returned(
    value: &Option<RawExpr>,
    found: &mut Items<Fault>,
    name: &[u8],
    settled: bool,
) -> Result<(), OutOfMemory>
    ensures { OnOk result (found.new ≡ found.old ++ unless settled (returned_reads name.now value.now)) }
{
    match value {
        Some(e) => note_unsettled(e, found, name, settled),
        None => Ok(()),
    }
}

fn note_target(e: &RawExpr, found: &mut Items<Fault>, name: &[u8]) -> Result<(), OutOfMemory>
    ensures { OnOk result (found.new ≡ found.old ++ target_reads name.now e.now) }
{
    if is_some_name(e) {
        return Ok(());
    }
    note_reads(e, found, name)
}

/// Those of an assignment.
pub fn note_assigned(
    target: &RawExpr,
    value: &RawExpr,
    found: &mut Items<Fault>,
    name: &[u8],
    settled: bool,
) -> Result<(), OutOfMemory>
    ensures { OnOk result (found.new ≡ found.old ++ unless settled (target_reads name.now target.now ++ reads name.now value.now)) }
{
    if settled {
        return Ok(());
    }
    note_target(target, found, name)?;
    note_reads(value, found, name)
}

/// Those of an augmented assignment.
pub fn note_augmented(
    target: &RawExpr,
    value: &RawExpr,
    found: &mut Items<Fault>,
    name: &[u8],
    settled: bool,
) -> Result<(), OutOfMemory>
    ensures { OnOk result (found.new ≡ found.old ++ unless settled (reads name.now target.now ++ reads name.now value.now)) }
{
    if settled {
        return Ok(());
    }
    note_reads(target, found, name)?;
    note_reads(value, found, name)
}
