// Arguments and their parameters.
ghost use Rattle.std.specs.Prelude.{◌≡◌, ◌++◌, flat_map, nat_eq, if◌then◌else◌, OnOk};
ghost use Rattle.type_terms.specs.Calls.{consequent, first_then, contract_position, function_in, thread_position, argument_position, parameter_at, each_fits, argument_faults, is_function, function_fault};
ghost use Rattle.type_names.specs.declared.Position.TheVariants as positions;

use py_base::{OutOfMemory, Place};
use py_syntax::{Class, Ty};
use sqlite_items::Items;
use type_base::Fault;
use type_names::{Contract, Meaning, Position, Worth, inner, note, note_if, note_wanted};

fn consequent(at: Position) -> Position
    ensures { result ≡ consequent at }
{
    match at {
        Position::Atom => Position::Atom,
        _ => Position::Term,
    }
}

fn first_then(number: usize, first: Position, other: Position) -> Position
    ensures { result ≡ first_then number first other }
{
    if number == 0 {
        return first;
    }
    other
}

fn joined_position(number: usize) -> Position
    ensures { result ≡ (if nat_eq number 1 then positions.Reference else positions.Term) }
{
    if number == 1 {
        return Position::Reference;
    }
    Position::Term
}

fn contract_position(contract: Contract, at: Position, number: usize) -> Position
    ensures { result ≡ contract_position contract at number }
{
    match contract {
        Contract::Requires => Position::Atom,
        Contract::Ensures => Position::Atom,
        Contract::Invariant => Position::Atom,
        Contract::Assert => Position::Atom,
        Contract::Exsures => first_then(number, Position::Reference, Position::Atom),
        Contract::Fold => Position::Instance,
        Contract::Unfold => Position::Instance,
        Contract::Unfolding => first_then(number, Position::Instance, Position::Term),
        Contract::Acc => first_then(number, Position::Location, Position::Amount),
        Contract::Implies => first_then(number, Position::Term, consequent(at)),
        Contract::MayJoin => joined_position(number),
        _ => Position::Term,
    }
}

fn function_in(meaning: Meaning) -> Option<usize>
    ensures { result ≡ function_in meaning }
{
    match meaning {
        Meaning::Function(number) => Some(number),
        _ => None,
    }
}

fn passed_position(number: usize, before: Meaning) -> Position
    ensures { result ≡ (if nat_eq number 1 then positions.Passed (function_in before) else positions.Value) }
{
    if number == 1 {
        return Position::Passed(function_in(before));
    }
    Position::Value
}

fn thread_position(number: usize, before: Meaning) -> Position
    ensures { result ≡ thread_position number before }
{
    first_then(number, Position::Reference, passed_position(number, before))
}

/// Where the argument of this number stands in a call of this, behind an argument of that meaning.
pub fn argument_position(meaning: Meaning, at: Position, number: usize, before: Meaning) -> Position
    ensures { result ≡ argument_position meaning at number before }
{
    match meaning {
        Meaning::Contract(contract) => contract_position(contract, at, number),
        Meaning::Print => Position::Printed,
        Meaning::Start => Position::Reference,
        Meaning::Join => Position::Reference,
        Meaning::Thread => thread_position(number, before),
        _ => inner(at),
    }
}

fn parameter_at(parameters: &[Option<Ty>], number: usize) -> Option<Ty>
    ensures { result ≡ parameter_at parameters.now number }
{
    match parameters.get(number) {
        Some(ty) => *ty,
        None => None,
    }
}

fn note_each(
    found: &mut Items<Fault>,
    classes: &[Class],
    rule: u8,
    parameters: &[Option<Ty>],
    arguments: &[Worth],
) -> Result<(), OutOfMemory>
    ensures { OnOk result (found.new ≡ found.old ++ each_fits classes.now rule parameters.now 0 arguments.now) }
{
    let mut k = 0usize;
    'arguments: for worth in arguments {
        note_wanted(found, classes, rule, parameter_at(parameters, k), *worth)?;
        k += 1;
    }
    Ok(())
}

/// Adds the faults of the arguments of a call at this place.
pub fn note_arguments(
    found: &mut Items<Fault>,
    classes: &[Class],
    rule: u8,
    place: Place,
    parameters: &[Option<Ty>],
    arguments: &[Worth],
) -> Result<(), OutOfMemory>
    ensures { OnOk result (found.new ≡ found.old ++ argument_faults classes.now rule place parameters.now arguments.now) }
{
    if parameters.len() != arguments.len() {
        return note(found, place, rule);
    }
    note_each(found, classes, rule, parameters, arguments)
}

fn is_function(meaning: Meaning) -> bool
    ensures { result ≡ is_function meaning }
{
    match meaning {
        Meaning::Function(_) => true,
        _ => false,
    }
}

/// Adds the fault of an argument that is to name a function.
pub fn note_function(found: &mut Items<Fault>, rule: u8, worth: Worth) -> Result<(), OutOfMemory>
    ensures { OnOk result (found.new ≡ found.old ++ function_fault rule worth) }
{
    note_if(found, !is_function(worth.meaning), worth.place, rule)
}

/// Adds the faults of arguments that are to name functions.
pub fn note_functions(
    found: &mut Items<Fault>,
    rule: u8,
    arguments: &[Worth],
) -> Result<(), OutOfMemory>
    ensures { OnOk result (found.new ≡ found.old ++ flat_map (function_fault rule) arguments.now) }
{
    'arguments: for worth in arguments {
        note_function(found, rule, *worth)?;
    }
    Ok(())
}
