// Uses of `super`.
ghost use Rattle.std.specs.Prelude.{◌≡◌, ◌++◌, map, OnOk};
ghost use Rattle.type_base.specs.Faults.{joined};
ghost use Rattle.type_forms.specs.Supers.{called_faults, kept_faults, parts_of, uses, argument_super_faults, link_super_faults, super_faults, allowed_super_faults};

use py_base::{OutOfMemory, Place};
use raw_syntax::{RawArgument, RawComparison, RawExpr, RawExprForm};
use sqlite_items::Items;
use type_base::{Fault, Rank, note_if};

fn is_super_word(e: &RawExpr) -> bool
    ensures { result ≡ (uses e.now).is_word }
{
    match &e.form {
        RawExprForm::Bracket(inner) => is_super_word(inner.get()),
        RawExprForm::Name(name) => name.bytes() == b"super".as_slice(),
        _ => false,
    }
}

fn is_super_call(e: &RawExpr) -> bool
    ensures { result ≡ (uses e.now).is_call }
{
    match &e.form {
        RawExprForm::Bracket(inner) => is_super_call(inner.get()),
        RawExprForm::Call(called, arguments) => {
            is_super_word(called.get()) && arguments.len() == 0
        }
        _ => false,
    }
}

// The place of `__init__` in `super().__init__`.
fn init_at(e: &RawExpr) -> Option<Place>
    ensures { result ≡ (uses e.now).init_at }
{
    match &e.form {
        RawExprForm::Bracket(inner) => init_at(inner.get()),
        RawExprForm::Field(object, name) => {
            if name.bytes() == b"__init__".as_slice() && is_super_call(object.get()) {
                return Some(e.place);
            }
            None
        }
        _ => None,
    }
}

/// Adds the faults of the uses of `super` in an expression.
#[cycle(supers)]
pub fn note_supers(e: &RawExpr, found: &mut Items<Fault>) -> Result<(), OutOfMemory>
    ensures { OnOk result (found.new ≡ found.old ++ super_faults e.now) }
{
    match &e.form {
        RawExprForm::Name(name) => note_if(
            found,
            name.bytes() == b"super".as_slice(),
            e.place,
            Rank::Mistyped(22),
        )?,
        RawExprForm::Bracket(inner)
        | RawExprForm::Negate(inner)
        | RawExprForm::Not(inner)
        | RawExprForm::Field(inner, _) => note_supers(inner.get(), found)?,
        RawExprForm::Tuple(parts) => note_each(parts, found)?,
        RawExprForm::Call(called, arguments) => {
            note_called(called.get(), found)?;
            note_arguments(arguments, found)?;
        }
        RawExprForm::Binary(_, a, b) | RawExprForm::And(a, b) | RawExprForm::Or(a, b) => {
            note_supers(a.get(), found)?;
            note_supers(b.get(), found)?;
        }
        RawExprForm::Chain(first, links) => {
            note_supers(first.get(), found)?;
            note_links(links, found)?;
        }
        _ => {}
    }
    Ok(())
}

// Those of what is called: a call of `super().__init__` is one at that name.
#[cycle(supers)]
fn note_called(e: &RawExpr, found: &mut Items<Fault>) -> Result<(), OutOfMemory>
    ensures { OnOk result (found.new ≡ found.old ++ called_faults (uses e.now).init_at (uses e.now).faults) }
{
    match init_at(e) {
        Some(place) => {
            found.push(Fault {
                place,
                rank: Rank::Mistyped(22),
            })?;
            Ok(())
        }
        None => note_supers(e, found),
    }
}

#[cycle(supers)]
fn note_each(parts: &Items<RawExpr>, found: &mut Items<Fault>) -> Result<(), OutOfMemory>
    ensures { OnOk result (found.new ≡ found.old ++ parts_of (map uses parts.now)) }
{
    'parts: for part in parts.as_slice() {
        note_supers(part, found)?;
    }
    Ok(())
}

#[cycle(supers)]
fn note_argument(argument: &RawArgument, found: &mut Items<Fault>) -> Result<(), OutOfMemory>
    ensures { OnOk result (found.new ≡ found.old ++ argument_super_faults argument.now) }
{
    match argument {
        RawArgument::Value(e) => note_supers(e, found),
        RawArgument::Named(left, right) => {
            note_supers(left, found)?;
            note_supers(right, found)
        }
    }
}

#[cycle(supers)]
fn note_arguments(
    arguments: &Items<RawArgument>,
    found: &mut Items<Fault>,
) -> Result<(), OutOfMemory>
    ensures { OnOk result (found.new ≡ found.old ++ joined (map argument_super_faults arguments.now)) }
{
    'arguments: for argument in arguments.as_slice() {
        note_argument(argument, found)?;
    }
    Ok(())
}

#[cycle(supers)]
fn note_links(links: &Items<RawComparison>, found: &mut Items<Fault>) -> Result<(), OutOfMemory>
    ensures { OnOk result (found.new ≡ found.old ++ joined (map link_super_faults links.now)) }
{
    'links: for link in links.as_slice() {
        note_supers(&link.operand, found)?;
    }
    Ok(())
}

fn note_kept(e: &RawExpr, found: &mut Items<Fault>) -> Result<(), OutOfMemory>
    ensures { OnOk result (found.new ≡ found.old ++ kept_faults (uses e.now).init_at (uses e.now).faults) }
{
    match init_at(e) {
        Some(_) => Ok(()),
        None => note_supers(e, found),
    }
}

/// The same where a call of `super().__init__` may stand.
pub fn note_allowed(e: &RawExpr, found: &mut Items<Fault>) -> Result<(), OutOfMemory>
    ensures { OnOk result (found.new ≡ found.old ++ allowed_super_faults e.now) }
{
    match &e.form {
        RawExprForm::Bracket(inner) => note_allowed(inner.get(), found),
        RawExprForm::Call(called, arguments) => {
            note_kept(called.get(), found)?;
            note_arguments(arguments, found)
        }
        _ => note_supers(e, found),
    }
}
