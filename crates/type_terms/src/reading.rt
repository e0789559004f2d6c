// Names, strings, tuples and fields.
ghost use Rattle.std.specs.Prelude.{◌≡◌, ◌<◌, ◌^◌, ◌++◌, length, is_none, None, option_copied, OnOk, IfOk};
ghost use Rattle.type_names.specs.Positions.{plainly, worth_of};
ghost use Rattle.type_names.specs.Fitting.{mistyped};
ghost use Rattle.type_terms.specs.Expressions.{own_faults, read_name, name_typing, string_faults, passed_faults, tuple_faults, field_by, field_in, field_faults, field_type, field_position, super_meaning, receiver_meaning, meaning_behind, method_name_meaning, method_faults, member_worth, member_faults};

use crate::arguments::note_arguments;
use crate::steps::settle;
use crate::wants::parameters_at;
use class_table::Classes;
use py_base::{OutOfMemory, Place};
use py_syntax::Ty;
use sqlite_items::Items;
use type_base::{Fault, field_of};
use type_names::{
    Meaning, Position, Scope, Signature, Variable, Worth, class_in, is_told, label_meaning,
    method_meaning, name_meaning, note, note_if, plainly, unless_void, variable_in,
};

fn meant(place: Place, meaning: Meaning) -> Worth
    ensures { result ≡ worth_of place None meaning }
{
    Worth {
        place,
        ty: None,
        meaning,
    }
}

fn read_variable(
    found: &mut Items<Fault>,
    classes: &Classes,
    at: Position,
    place: Place,
    variable: Option<&Variable>,
) -> Result<Worth, OutOfMemory>
    ensures worth { IfOk result (λ w. w ≡ (read_name classes.now at place (option_copied variable.entry)).worth) }
    ensures faults { OnOk result (found.new ≡ found.old ++ (read_name classes.now at place (option_copied variable.entry)).faults) }
{
    match variable {
        Some(known) => settle(found, classes, at, place, known.ty),
        None => {
            note(found, place, 2)?;
            settle(found, classes, at, place, None)
        }
    }
}

/// A name.
pub fn read_name(
    found: &mut Items<Fault>,
    classes: &Classes,
    functions: &[Signature],
    scope: &Scope,
    word: &[u8],
    place: Place,
    at: Position,
) -> Result<Worth, OutOfMemory>
    requires { length classes.now.list < 2 ^ 32 }
    ensures worth { IfOk result (λ w. w ≡ (name_typing classes.now functions.now scope.now word.now place at).worth) }
    ensures faults { OnOk result (found.new ≡ found.old ++ (name_typing classes.now functions.now scope.now word.now place at).faults) }
{
    match at {
        Position::CalledInCode => Ok(meant(place, name_meaning(classes, functions, scope, word))),
        Position::CalledInContract => {
            Ok(meant(place, name_meaning(classes, functions, scope, word)))
        }
        Position::Reference => Ok(meant(place, name_meaning(classes, functions, scope, word))),
        Position::Label => Ok(meant(place, label_meaning(word))),
        _ => {
            let variable = variable_in(scope.variables.as_slice(), word);
            read_variable(found, classes, at, place, variable)
        }
    }
}

fn note_string(found: &mut Items<Fault>, at: Position, place: Place) -> Result<(), OutOfMemory>
    ensures { OnOk result (found.new ≡ found.old ++ string_faults at place) }
{
    match at {
        Position::Printed => Ok(()),
        _ => note(found, place, 18),
    }
}

/// A string.
pub fn read_string(
    found: &mut Items<Fault>,
    classes: &Classes,
    at: Position,
    place: Place,
) -> Result<Worth, OutOfMemory>
    ensures worth { IfOk result (λ w. w ≡ plainly place None) }
    ensures faults { OnOk result (found.new ≡ found.old ++ own_faults classes.now at place (string_faults at place) None) }
{
    if is_told(at) {
        note_string(found, at, place)?;
    }
    settle(found, classes, at, place, None)
}

fn note_passed(
    found: &mut Items<Fault>,
    classes: &Classes,
    functions: &[Signature],
    function: Option<usize>,
    place: Place,
    parts: &[Worth],
) -> Result<(), OutOfMemory>
    ensures { OnOk result (found.new ≡ found.old ++ passed_faults classes.now functions.now function place parts.now) }
{
    match function {
        Some(number) => {
            let parameters = parameters_at(functions, number);
            note_arguments(found, classes.list.as_slice(), 9, place, parameters, parts)
        }
        None => Ok(()),
    }
}

fn note_tuple(
    found: &mut Items<Fault>,
    classes: &Classes,
    at: Position,
    place: Place,
) -> Result<Worth, OutOfMemory>
    ensures worth { IfOk result (λ w. w ≡ plainly place None) }
    ensures faults { OnOk result (found.new ≡ found.old ++ own_faults classes.now at place (mistyped place 18) None) }
{
    if is_told(at) {
        note(found, place, 18)?;
    }
    settle(found, classes, at, place, None)
}

/// A tuple of these parts.
pub fn read_tuple(
    found: &mut Items<Fault>,
    classes: &Classes,
    functions: &[Signature],
    parts: &[Worth],
    place: Place,
    at: Position,
) -> Result<Worth, OutOfMemory>
    ensures worth { IfOk result (λ w. w ≡ plainly place None) }
    ensures faults { OnOk result (found.new ≡ found.old ++ tuple_faults classes.now functions.now parts.now place at) }
{
    match at {
        Position::Passed(function) => {
            note_passed(found, classes, functions, function, place, parts)?;
            Ok(plainly(place, None))
        }
        _ => note_tuple(found, classes, at, place),
    }
}

fn field_by(classes: &Classes, word: &[u8], class: Option<u32>) -> Option<Ty>
    ensures { result ≡ field_by classes.now word.now class }
{
    match class {
        Some(k) => field_of(classes, k, word),
        None => None,
    }
}

fn field_in(classes: &Classes, word: &[u8], ty: Ty) -> Option<Ty>
    ensures { result ≡ field_in classes.now word.now ty }
{
    field_by(classes, word, class_in(ty))
}

fn note_field(
    found: &mut Items<Fault>,
    classes: &Classes,
    place: Place,
    word: &[u8],
    receiver: Option<Ty>,
) -> Result<(), OutOfMemory>
    ensures { OnOk result (found.new ≡ found.old ++ field_faults classes.now place word.now receiver) }
{
    match receiver {
        Some(ty) => note_if(found, field_in(classes, word, ty).is_none(), place, 8),
        None => Ok(()),
    }
}

fn field_type(classes: &Classes, word: &[u8], receiver: Option<Ty>) -> Option<Ty>
    ensures { result ≡ field_type classes.now word.now receiver }
{
    match receiver {
        Some(ty) => match field_in(classes, word, ty) {
            Some(own) => unless_void(own),
            None => None,
        },
        None => None,
    }
}

fn field_position(at: Position) -> Position
    ensures { result ≡ field_position at }
{
    match at {
        Position::Location => Position::Term,
        _ => at,
    }
}

fn read_field(
    found: &mut Items<Fault>,
    classes: &Classes,
    object: Worth,
    word: &[u8],
    place: Place,
    at: Position,
) -> Result<Worth, OutOfMemory>
    ensures worth { IfOk result (λ w. w ≡ plainly place (field_type classes.now word.now object.ty)) }
    ensures faults { OnOk result (found.new ≡ found.old ++ own_faults classes.now (field_position at) place (field_faults classes.now place word.now object.ty) (field_type classes.now word.now object.ty)) }
{
    let here = field_position(at);
    if is_told(here) {
        note_field(found, classes, place, word, object.ty)?;
    }
    settle(
        found,
        classes,
        here,
        place,
        field_type(classes, word, object.ty),
    )
}

fn super_meaning(word: &[u8]) -> Meaning
    ensures { result ≡ super_meaning word.now }
{
    if word == b"__init__".as_slice() {
        return Meaning::SuperInit;
    }
    Meaning::Unknown
}

fn receiver_meaning(
    classes: &Classes,
    functions: &[Signature],
    word: &[u8],
    receiver: Option<Ty>,
) -> Meaning
    ensures { result ≡ receiver_meaning classes.now functions.now word.now receiver }
{
    match receiver {
        Some(ty) => match method_meaning(classes, functions, ty, word) {
            Some(meaning) => meaning,
            None => Meaning::Unknown,
        },
        None => Meaning::Unknown,
    }
}

fn method_name_meaning(
    classes: &Classes,
    functions: &[Signature],
    word: &[u8],
    object: Worth,
) -> Meaning
    ensures { result ≡ method_name_meaning classes.now functions.now word.now object }
{
    match object.meaning {
        Meaning::Super => super_meaning(word),
        _ => receiver_meaning(classes, functions, word, object.ty),
    }
}

fn note_method(
    found: &mut Items<Fault>,
    classes: &Classes,
    functions: &[Signature],
    place: Place,
    word: &[u8],
    receiver: Option<Ty>,
) -> Result<(), OutOfMemory>
    ensures { OnOk result (found.new ≡ found.old ++ method_faults classes.now functions.now place word.now receiver) }
{
    let Some(ty) = receiver else {
        return Ok(());
    };
    match method_meaning(classes, functions, ty, word) {
        Some(_) => Ok(()),
        None => note(found, place, 8),
    }
}

fn read_method(
    found: &mut Items<Fault>,
    classes: &Classes,
    functions: &[Signature],
    object: Worth,
    word: &[u8],
    place: Place,
) -> Result<Worth, OutOfMemory>
    ensures worth { IfOk result (λ w. w ≡ worth_of place None (method_name_meaning classes.now functions.now word.now object)) }
    ensures faults { OnOk result (found.new ≡ found.old ++ method_faults classes.now functions.now place word.now object.ty) }
{
    note_method(found, classes, functions, place, word, object.ty)?;
    let meaning = method_name_meaning(classes, functions, word, object);
    Ok(meant(place, meaning))
}

/// The field or method of a name.
pub fn read_member(
    found: &mut Items<Fault>,
    classes: &Classes,
    functions: &[Signature],
    object: Worth,
    word: &[u8],
    place: Place,
    at: Position,
) -> Result<Worth, OutOfMemory>
    ensures worth { IfOk result (λ w. w ≡ member_worth classes.now functions.now object word.now place at) }
    ensures faults { OnOk result (found.new ≡ found.old ++ member_faults classes.now functions.now object word.now place at) }
{
    match at {
        Position::CalledInCode => read_method(found, classes, functions, object, word, place),
        Position::CalledInContract => read_method(found, classes, functions, object, word, place),
        _ => read_field(found, classes, object, word, place, at),
    }
}
