// What contracts take, want and give.
ghost use Rattle.std.specs.Prelude.{◌≡◌, ◌++◌, nat_eq, if◌then◌else◌, OnOk};
ghost use Rattle.type_terms.specs.Calls.{parameters_at, is_one_or_two, contract_takes, contract_want, first_then, is_lock_class, is_lock, lock_fault, level_fault, need_faults, needs_faults, target_faults, join_faults, contract_faults, type_at, value_type, contract_type};
ghost use Rattle.type_names.specs.declared.Want.TheVariants as wants;

use crate::arguments::{note_arguments, note_function};
use class_table::Classes;
use py_base::{OutOfMemory, Place};
use py_syntax::Ty;
use sqlite_items::Items;
use type_base::{Fault, locked_by};
use type_names::{
    Contract, Meaning, Scope, Signature, Want, Worth, class_in, is_thread_type, note, note_if,
    note_want, unless_void,
};

fn is_one_or_two(count: usize) -> bool
    ensures { result ≡ is_one_or_two count }
{
    count == 1 || count == 2
}

fn contract_takes(contract: Contract, count: usize) -> bool
    ensures { result ≡ contract_takes contract count }
{
    match contract {
        Contract::Result => count == 0,
        Contract::WaitLevel => count == 0,
        Contract::Acc => is_one_or_two(count),
        Contract::MustRelease => is_one_or_two(count),
        Contract::Implies => count == 2,
        Contract::Exsures => count == 2,
        Contract::Unfolding => count == 2,
        Contract::MayJoin => 2 <= count,
        _ => count == 1,
    }
}

fn first_then(number: usize, first: Want, other: Want) -> Want
    ensures { result ≡ first_then number first other }
{
    if number == 0 {
        return first;
    }
    other
}

fn joined_want(number: usize) -> Want
    ensures { result ≡ (if nat_eq number 1 then wants.Function else wants.Anything) }
{
    if number == 1 {
        return Want::Function;
    }
    Want::Anything
}

fn contract_want(contract: Contract, number: usize) -> Want
    ensures { result ≡ contract_want contract number }
{
    match contract {
        Contract::Implies => Want::Type(Ty::Bool),
        Contract::Level => Want::LockOrThread,
        Contract::MustTerminate => Want::Type(Ty::Int),
        Contract::MustRelease => first_then(number, Want::Lock, Want::Type(Ty::Int)),
        Contract::MayJoin => first_then(number, Want::Type(Ty::Thr), joined_want(number)),
        _ => Want::Anything,
    }
}

fn is_lock_class(classes: &Classes, class: Option<u32>) -> bool
    ensures { result ≡ is_lock_class classes.now class }
{
    match class {
        Some(k) => locked_by(classes, k).is_some(),
        None => false,
    }
}

/// Whether it is the type of a lock.
pub fn is_lock(classes: &Classes, ty: Ty) -> bool
    ensures { result ≡ is_lock classes.now ty }
{
    is_lock_class(classes, class_in(ty))
}

/// Adds the fault of what is to be a lock.
pub fn note_lock(
    found: &mut Items<Fault>,
    classes: &Classes,
    rule: u8,
    place: Place,
    ty: Option<Ty>,
) -> Result<(), OutOfMemory>
    ensures { OnOk result (found.new ≡ found.old ++ lock_fault classes.now rule place ty) }
{
    match ty {
        Some(own) => note_if(found, !is_lock(classes, own), place, rule),
        None => Ok(()),
    }
}

fn note_level(
    found: &mut Items<Fault>,
    classes: &Classes,
    place: Place,
    ty: Option<Ty>,
) -> Result<(), OutOfMemory>
    ensures { OnOk result (found.new ≡ found.old ++ level_fault classes.now place ty) }
{
    match ty {
        Some(own) => note_if(
            found,
            !(is_lock(classes, own) || is_thread_type(own)),
            place,
            24,
        ),
        None => Ok(()),
    }
}

fn note_need(
    found: &mut Items<Fault>,
    classes: &Classes,
    want: Want,
    worth: Worth,
) -> Result<(), OutOfMemory>
    ensures { OnOk result (found.new ≡ found.old ++ need_faults classes.now want worth) }
{
    match want {
        Want::Anything => Ok(()),
        Want::Type(ty) => note_want(found, classes.list.as_slice(), 24, ty, worth),
        Want::Lock => note_lock(found, classes, 24, worth.place, worth.ty),
        Want::LockOrThread => note_level(found, classes, worth.place, worth.ty),
        Want::Function => note_function(found, 24, worth),
    }
}

fn note_needs(
    found: &mut Items<Fault>,
    classes: &Classes,
    contract: Contract,
    arguments: &[Worth],
) -> Result<(), OutOfMemory>
    ensures { OnOk result (found.new ≡ found.old ++ needs_faults classes.now contract 0 arguments.now) }
{
    let mut k = 0usize;
    'arguments: for worth in arguments {
        note_need(found, classes, contract_want(contract, k), *worth)?;
        k += 1;
    }
    Ok(())
}

/// The types of the parameters of the function of this number.
pub fn parameters_at(functions: &[Signature], number: usize) -> &[Option<Ty>]
    ensures { result.now ≡ parameters_at functions.now number }
{
    match functions.get(number) {
        Some(signature) => signature.parameters.as_slice(),
        None => &[],
    }
}

fn note_target(
    found: &mut Items<Fault>,
    classes: &Classes,
    functions: &[Signature],
    place: Place,
    meaning: Meaning,
    arguments: &[Worth],
) -> Result<(), OutOfMemory>
    ensures { OnOk result (found.new ≡ found.old ++ target_faults classes.now functions.now place meaning arguments.now) }
{
    match meaning {
        Meaning::Function(n) => note_arguments(
            found,
            classes.list.as_slice(),
            24,
            place,
            parameters_at(functions, n),
            arguments,
        ),
        _ => Ok(()),
    }
}

fn note_joined(
    found: &mut Items<Fault>,
    classes: &Classes,
    functions: &[Signature],
    place: Place,
    contract: Contract,
    arguments: &[Worth],
) -> Result<(), OutOfMemory>
    ensures { OnOk result (found.new ≡ found.old ++ join_faults classes.now functions.now place contract arguments.now) }
{
    match contract {
        Contract::MayJoin => match arguments {
            [_, function, rest @ ..] => {
                note_target(found, classes, functions, place, function.meaning, rest)
            }
            _ => Ok(()),
        },
        _ => Ok(()),
    }
}

/// Adds the faults of a contract's arguments.
pub fn note_contract(
    found: &mut Items<Fault>,
    classes: &Classes,
    functions: &[Signature],
    place: Place,
    contract: Contract,
    arguments: &[Worth],
) -> Result<(), OutOfMemory>
    ensures { OnOk result (found.new ≡ found.old ++ contract_faults classes.now functions.now place contract arguments.now) }
{
    if !contract_takes(contract, arguments.len()) {
        return note(found, place, 24);
    }
    note_needs(found, classes, contract, arguments)?;
    note_joined(found, classes, functions, place, contract, arguments)
}

fn type_at(arguments: &[Worth], number: usize) -> Option<Ty>
    ensures { result ≡ type_at number arguments.now }
{
    match arguments.get(number) {
        Some(worth) => worth.ty,
        None => None,
    }
}

/// The type that a result has as a value.
pub fn value_type(ty: Option<Ty>) -> Option<Ty>
    ensures { result ≡ value_type ty }
{
    match ty {
        Some(own) => unless_void(own),
        None => None,
    }
}

/// The type of a contract.
pub fn contract_type(scope: &Scope, contract: Contract, arguments: &[Worth]) -> Option<Ty>
    ensures { result ≡ contract_type scope.now contract arguments.now }
{
    match contract {
        Contract::Acc => Some(Ty::Bool),
        Contract::Implies => Some(Ty::Bool),
        Contract::MustTerminate => Some(Ty::Bool),
        Contract::MustRelease => Some(Ty::Bool),
        Contract::MayJoin => Some(Ty::Bool),
        Contract::Level => Some(Ty::Int),
        Contract::WaitLevel => Some(Ty::Int),
        Contract::Result => value_type(scope.result),
        Contract::Old => type_at(arguments, 0),
        Contract::Unfolding => type_at(arguments, 1),
        _ => None,
    }
}
