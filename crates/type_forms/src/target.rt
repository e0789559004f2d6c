// Targets, and names of exceptions.
ghost use Rattle.std.specs.Prelude.{◌≡◌, ◌<◌, ◌^◌, ◌++◌, ◌||◌, length, map, is_none, OnOk};
ghost use Rattle.class_table.specs.Shapes.{shape};
ghost use Rattle.type_base.specs.Types.{exception_class};
ghost use Rattle.type_base.specs.Locals.{is_own_name};
ghost use Rattle.type_ways.specs.Sights.{first_mention, sight, mention_in, bare_place};
ghost use Rattle.type_forms.specs.Statements.{class_fault, mention_fault, declared_fault, shape_fault, target_fault};

use class_table::Classes;
use py_base::{OutOfMemory, Place, Text};
use raw_syntax::{RawArgument, RawExpr, RawExprForm, RawParam};
use sqlite_items::Items;
use type_base::{Fault, Rank, exception_class, is_own_name, is_parameter, note_if};
use type_ways::{is_exsures, split};

/// Adds the fault of a target. `outside` says that a field may not stand there.
pub fn note_target(
    e: &RawExpr,
    found: &mut Items<Fault>,
    params: &[RawParam],
    outside: bool,
) -> Result<(), OutOfMemory>
    ensures { OnOk result (found.new ≡ found.old ++ target_fault params.now outside e.now) }
{
    match &e.form {
        RawExprForm::Bracket(inner) => note_target(inner.get(), found, params, outside),
        RawExprForm::Name(name) => {
            let assigned = is_parameter(params, name.bytes());
            note_if(found, assigned, e.place, Rank::Mistyped(7))
        }
        RawExprForm::Field(_, _) => note_if(found, outside, e.place, Rank::Mistyped(7)),
        _ => note_if(found, true, e.place, Rank::Mistyped(7)),
    }
}

fn is_no_exception(classes: &Classes, params: &[RawParam], names: &[Text], name: &[u8]) -> bool
    requires { length classes.now.list < 2 ^ 32 }
    ensures { result ≡ (is_own_name params.now names.now name.now || is_none (exception_class classes.now name.now)) }
{
    is_own_name(params, names, name) || exception_class(classes, name).is_none()
}

/// Adds the fault of a name that isn't one of a class of exceptions.
pub fn note_class(
    found: &mut Items<Fault>,
    classes: &Classes,
    params: &[RawParam],
    names: &[Text],
    place: Place,
    name: &[u8],
) -> Result<(), OutOfMemory>
    requires { length classes.now.list < 2 ^ 32 }
    ensures { OnOk result (found.new ≡ found.old ++ class_fault classes.now params.now names.now place name.now) }
{
    let wrong = is_no_exception(classes, params, names, name);
    note_if(found, wrong, place, Rank::Mistyped(12))
}

fn note_mention(
    e: &RawExpr,
    found: &mut Items<Fault>,
    classes: &Classes,
    params: &[RawParam],
    names: &[Text],
) -> Result<(), OutOfMemory>
    requires { length classes.now.list < 2 ^ 32 }
    ensures { OnOk result (found.new ≡ found.old ++ mention_fault classes.now params.now names.now (sight e.now).mention) }
{
    match &e.form {
        RawExprForm::Bracket(inner) => note_mention(inner.get(), found, classes, params, names),
        RawExprForm::Name(name) => {
            note_class(found, classes, params, names, e.place, name.bytes())
        }
        _ => {
            found.push(Fault {
                place: e.place,
                rank: Rank::Mistyped(12),
            })?;
            Ok(())
        }
    }
}

fn note_first(
    arguments: &[RawArgument],
    found: &mut Items<Fault>,
    classes: &Classes,
    params: &[RawParam],
    names: &[Text],
) -> Result<(), OutOfMemory>
    requires { length classes.now.list < 2 ^ 32 }
    ensures { OnOk result (found.new ≡ found.old ++ declared_fault classes.now params.now names.now (first_mention (map mention_in arguments.now))) }
{
    let Some((first, _)) = split(arguments) else {
        return Ok(());
    };
    match first {
        RawArgument::Value(e) => note_mention(e, found, classes, params, names),
        RawArgument::Named(_, _) => Ok(()),
    }
}

/// Adds the fault of what stands first in a call of `Exsures`.
pub fn note_declared(
    e: &RawExpr,
    found: &mut Items<Fault>,
    classes: &Classes,
    params: &[RawParam],
    names: &[Text],
) -> Result<(), OutOfMemory>
    requires { length classes.now.list < 2 ^ 32 }
    ensures { OnOk result (found.new ≡ found.old ++ declared_fault classes.now params.now names.now (sight e.now).declared) }
{
    match &e.form {
        RawExprForm::Bracket(inner) => note_declared(inner.get(), found, classes, params, names),
        RawExprForm::Call(called, arguments) => {
            if is_exsures(called.get()) {
                return note_first(arguments.as_slice(), found, classes, params, names);
            }
            Ok(())
        }
        _ => Ok(()),
    }
}
