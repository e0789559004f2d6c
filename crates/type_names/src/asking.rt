// What is asked of an expression by where it stands.
ghost use Rattle.std.specs.Prelude.{◌≡◌, ◌++◌, None, List, length, OnOk};
ghost use Rattle.type_names.specs.declared.meaning.TypeAt.{TypeAt};
ghost use Rattle.type_names.specs.Positions.{plainly, inner, is_in_contract, called_in, called, conjunct, is_statement, is_atom, is_instance, is_told, is_valued, or_void, own_types, printed_faults, position_faults};

use crate::fitting::{is_bool, is_int, note, note_if, note_known_fit};
use crate::meaning::{Meaning, TypeAt, Worth};
use crate::position::Position;
use py_base::{OutOfMemory, Place};
use py_syntax::{Class, Ty};
use sqlite_items::Items;
use type_base::Fault;

/// What an expression is worth that is no name.
pub fn plainly(place: Place, ty: Option<Ty>) -> Worth
    ensures { result ≡ plainly place ty }
{
    Worth {
        place,
        ty,
        meaning: Meaning::Plain,
    }
}

/// Where the parts of an expression stand.
pub fn inner(at: Position) -> Position
    ensures { result ≡ inner at }
{
    match at {
        Position::Value => Position::Value,
        Position::Statement => Position::Value,
        Position::Printed => Position::Value,
        Position::Term => Position::Term,
        Position::Atom => Position::Term,
        Position::CalledInCode => Position::Value,
        Position::CalledInContract => Position::Term,
        Position::Location => Position::Term,
        Position::Amount => Position::Amount,
        Position::Instance => Position::Term,
        Position::Reference => Position::Value,
        Position::Label => Position::Value,
        Position::Passed(_) => Position::Value,
    }
}

/// Whether it is in a contract.
pub fn is_in_contract(at: Position) -> bool
    ensures { result ≡ is_in_contract at }
{
    match at {
        Position::Term => true,
        Position::Atom => true,
        Position::CalledInContract => true,
        Position::Location => true,
        Position::Instance => true,
        _ => false,
    }
}

fn called_in(in_contract: bool) -> Position
    ensures { result ≡ called_in in_contract }
{
    if in_contract {
        return Position::CalledInContract;
    }
    Position::CalledInCode
}

/// Where what is called stands.
pub fn called(at: Position) -> Position
    ensures { result ≡ called at }
{
    match at {
        Position::Amount => Position::Amount,
        _ => called_in(is_in_contract(at)),
    }
}

/// Where the parts of an `and` stand.
pub fn conjunct(at: Position) -> Position
    ensures { result ≡ conjunct at }
{
    match at {
        Position::Atom => Position::Atom,
        _ => inner(at),
    }
}

/// Whether it stands alone.
pub fn is_statement(at: Position) -> bool
    ensures { result ≡ is_statement at }
{
    match at {
        Position::Statement => true,
        _ => false,
    }
}

/// Whether it is an assertion.
pub fn is_atom(at: Position) -> bool
    ensures { result ≡ is_atom at }
{
    match at {
        Position::Atom => true,
        _ => false,
    }
}

/// Whether it is an instance of a predicate.
pub fn is_instance(at: Position) -> bool
    ensures { result ≡ is_instance at }
{
    match at {
        Position::Instance => true,
        _ => false,
    }
}

/// Whether more than names is looked at.
pub fn is_told(at: Position) -> bool
    ensures { result ≡ is_told at }
{
    match at {
        Position::Amount => false,
        _ => true,
    }
}

fn is_valued(at: Position) -> bool
    ensures { result ≡ is_valued at }
{
    match at {
        Position::CalledInCode => false,
        Position::CalledInContract => false,
        Position::Reference => false,
        Position::Label => false,
        _ => true,
    }
}

/// The type, or that of None where there is none.
pub fn or_void(ty: Option<Ty>) -> Ty
    ensures { result ≡ or_void ty }
{
    match ty {
        Some(own) => own,
        None => Ty::Void,
    }
}

/// Adds the type of an expression, where it is read as a value.
pub fn note_type(
    types: &mut Items<TypeAt>,
    at: Position,
    place: Place,
    ty: Option<Ty>,
) -> Result<(), OutOfMemory>
    ensures { OnOk result (types.new ≡ types.old ++ own_types at place ty) }
{
    if is_valued(at) {
        types.push(TypeAt {
            place,
            ty: or_void(ty),
        })?;
    }
    Ok(())
}

/// Sets the type of an expression that was added with none, behind so many others.
pub fn settle_type(
    types: &mut Items<TypeAt>,
    before: usize,
    at: Position,
    place: Place,
    ty: Option<Ty>,
)
    ensures { (front rest : List TypeAt) → length front ≡ before → types.old ≡ front ++ (own_types at place None ++ rest) → types.new ≡ front ++ (own_types at place ty ++ rest) }
{
    if is_valued(at) && before < types.len() {
        types.set(
            before,
            TypeAt {
                place,
                ty: or_void(ty),
            },
        );
    }
}

fn note_printed(found: &mut Items<Fault>, place: Place, ty: Option<Ty>) -> Result<(), OutOfMemory>
    ensures { OnOk result (found.new ≡ found.old ++ printed_faults place ty) }
{
    match ty {
        Some(own) => note_if(found, !(is_int(own) || is_bool(own)), place, 17),
        None => Ok(()),
    }
}

/// Adds the fault of an expression of this type by its position.
pub fn note_position(
    found: &mut Items<Fault>,
    classes: &[Class],
    at: Position,
    place: Place,
    ty: Option<Ty>,
) -> Result<(), OutOfMemory>
    ensures { OnOk result (found.new ≡ found.old ++ position_faults classes.now at place ty) }
{
    match at {
        Position::Atom => note_known_fit(found, classes, 24, place, Ty::Bool, ty),
        Position::Printed => note_printed(found, place, ty),
        Position::Location => note(found, place, 24),
        Position::Passed(_) => note(found, place, 15),
        _ => Ok(()),
    }
}
