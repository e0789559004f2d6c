// Calls, once what is called and the arguments are known.
ghost use Rattle.std.specs.Prelude.{◌≡◌, ◌++◌, [], ◌∷◌, Some, None, flat_map, if◌then◌else◌, OnOk};
ghost use Rattle.type_names.specs.Positions.{is_instance};
ghost use Rattle.type_terms.specs.Calls.{parameters_at, argument_faults, function_fault, result_at, void_faults, may_call, is_function_called, is_code, is_method_called, called_faults, passes, init_parameters, making_parameters, class_parameters, class_faults, class_type, super_faults, lone_faults, is_predicate, instance_faults, meaning_faults, is_thread, meaning_type, call_meaning};

use crate::arguments::{note_arguments, note_functions};
use crate::wants::{contract_type, note_contract, parameters_at};
use class_table::Classes;
use py_base::{OutOfMemory, Place};
use py_syntax::{Class, Ty};
use sqlite_items::Items;
use type_base::{Fault, is_exception, locked_by};
use type_names::{
    FunctionSort, Meaning, Position, Scope, Signature, Worth, base_of, is_atom, is_in_contract,
    is_instance, is_statement, is_void, method_of, note, note_if,
};

fn result_at(functions: &[Signature], number: usize) -> Option<Ty>
    ensures { result ≡ result_at functions.now number }
{
    match functions.get(number) {
        Some(signature) => signature.result,
        None => None,
    }
}

fn note_void(
    found: &mut Items<Fault>,
    at: Position,
    place: Place,
    ty: Option<Ty>,
) -> Result<(), OutOfMemory>
    ensures { OnOk result (found.new ≡ found.old ++ void_faults at place ty) }
{
    match ty {
        Some(own) => note_if(found, is_void(own) && !is_statement(at), place, 23),
        None => Ok(()),
    }
}

fn may_call(in_contract: bool, atom: bool, sort: FunctionSort) -> bool
    ensures { result ≡ may_call in_contract atom sort }
{
    match sort {
        FunctionSort::Code => !in_contract,
        FunctionSort::Predicate => atom,
        FunctionSort::Pure => in_contract,
    }
}

fn is_function_called(functions: &[Signature], at: Position, number: usize) -> bool
    ensures { result ≡ passes (is_function_called at) functions.now number }
{
    match functions.get(number) {
        Some(signature) => {
            may_call(is_in_contract(at), is_atom(at), signature.sort)
                && signature.name.bytes() != b"main".as_slice()
        }
        None => false,
    }
}

fn is_code(sort: FunctionSort) -> bool
    ensures { result ≡ is_code sort }
{
    match sort {
        FunctionSort::Code => true,
        _ => false,
    }
}

fn is_method_called(functions: &[Signature], at: Position, number: usize) -> bool
    ensures { result ≡ passes (is_method_called at) functions.now number }
{
    match functions.get(number) {
        Some(signature) => {
            !is_in_contract(at)
                && is_code(signature.sort)
                && signature.name.bytes() != b"__init__".as_slice()
        }
        None => false,
    }
}

fn note_called(
    found: &mut Items<Fault>,
    classes: &Classes,
    functions: &[Signature],
    at: Position,
    place: Place,
    number: usize,
    arguments: &[Worth],
    allowed: bool,
) -> Result<(), OutOfMemory>
    ensures { OnOk result (found.new ≡ found.old ++ called_faults classes.now functions.now at place number arguments.now allowed) }
{
    let parameters = parameters_at(functions, number);
    note_if(found, !allowed, place, 10)?;
    note_arguments(
        found,
        classes.list.as_slice(),
        9,
        place,
        parameters,
        arguments,
    )?;
    note_void(found, at, place, result_at(functions, number))
}

fn init_parameters(functions: &[Signature], init: Option<usize>) -> &[Option<Ty>]
    ensures { result.now ≡ init_parameters functions.now init }
{
    match init {
        Some(number) => parameters_at(functions, number),
        None => &[],
    }
}

fn note_lock_made(
    found: &mut Items<Fault>,
    classes: &[Class],
    place: Place,
    locked: u32,
    arguments: &[Worth],
) -> Result<(), OutOfMemory>
    ensures { OnOk result (found.new ≡ found.old ++ argument_faults classes.now 9 place (making_parameters (Some locked) []) arguments.now) }
{
    let parameters = [Some(Ty::Obj(locked)), Some(Ty::Int)];
    note_arguments(found, classes, 9, place, &parameters, arguments)
}

fn note_made(
    found: &mut Items<Fault>,
    classes: &Classes,
    functions: &[Signature],
    place: Place,
    class: u32,
    arguments: &[Worth],
) -> Result<(), OutOfMemory>
    ensures { OnOk result (found.new ≡ found.old ++ argument_faults classes.now.list 9 place (class_parameters classes.now functions.now class) arguments.now) }
{
    let list = classes.list.as_slice();
    if let Some(locked) = locked_by(classes, class) {
        return note_lock_made(found, list, place, locked, arguments);
    }
    let init = method_of(classes, functions, Some(class), b"__init__");
    note_arguments(
        found,
        list,
        9,
        place,
        init_parameters(functions, init),
        arguments,
    )
}

fn note_class(
    found: &mut Items<Fault>,
    classes: &Classes,
    functions: &[Signature],
    at: Position,
    place: Place,
    class: u32,
    arguments: &[Worth],
) -> Result<(), OutOfMemory>
    ensures { OnOk result (found.new ≡ found.old ++ class_faults classes.now functions.now at place class arguments.now) }
{
    if is_exception(classes, class) || is_in_contract(at) {
        return note(found, place, 10);
    }
    note_made(found, classes, functions, place, class, arguments)
}

fn class_type(classes: &Classes, class: u32) -> Option<Ty>
    ensures { result ≡ class_type classes.now class }
{
    if is_exception(classes, class) {
        return None;
    }
    Some(Ty::Obj(class))
}

fn note_super(
    found: &mut Items<Fault>,
    classes: &Classes,
    functions: &[Signature],
    scope: &Scope,
    place: Place,
    arguments: &[Worth],
) -> Result<(), OutOfMemory>
    ensures { OnOk result (found.new ≡ found.old ++ super_faults classes.now functions.now scope.now place arguments.now) }
{
    match method_of(
        classes,
        functions,
        base_of(classes, scope.owner),
        b"__init__",
    ) {
        Some(number) => {
            let parameters = parameters_at(functions, number);
            note_arguments(
                found,
                classes.list.as_slice(),
                9,
                place,
                parameters,
                arguments,
            )
        }
        None => Ok(()),
    }
}

fn note_lone(
    found: &mut Items<Fault>,
    classes: &[Class],
    rule: u8,
    at: Position,
    place: Place,
    parameters: &[Option<Ty>],
    arguments: &[Worth],
) -> Result<(), OutOfMemory>
    ensures { OnOk result (found.new ≡ found.old ++ lone_faults classes.now rule at place parameters.now arguments.now) }
{
    note_arguments(found, classes, 9, place, parameters, arguments)?;
    note_if(found, !is_statement(at), place, rule)
}

fn note_handled(
    found: &mut Items<Fault>,
    classes: &[Class],
    at: Position,
    place: Place,
    arguments: &[Worth],
) -> Result<(), OutOfMemory>
    ensures { OnOk result (found.new ≡ found.old ++ (lone_faults classes.now 15 at place (None ∷ []) arguments.now ++ flat_map (function_fault 15) arguments.now)) }
{
    note_lone(found, classes, 15, at, place, &[None], arguments)?;
    note_functions(found, 15, arguments)
}

fn is_predicate(functions: &[Signature], number: usize) -> bool
    ensures { result ≡ passes is_predicate functions.now number }
{
    match functions.get(number) {
        Some(signature) => match signature.sort {
            FunctionSort::Predicate => true,
            FunctionSort::Code => false,
            FunctionSort::Pure => false,
        },
        None => false,
    }
}

fn note_predicate(
    found: &mut Items<Fault>,
    classes: &[Class],
    functions: &[Signature],
    place: Place,
    number: usize,
    arguments: &[Worth],
) -> Result<(), OutOfMemory>
    ensures { OnOk result (found.new ≡ found.old ++ (if passes is_predicate functions.now number then argument_faults classes.now 9 place (parameters_at functions.now number) arguments.now else [])) }
{
    if is_predicate(functions, number) {
        let parameters = parameters_at(functions, number);
        note_arguments(found, classes, 9, place, parameters, arguments)?;
    }
    Ok(())
}

fn note_instance(
    found: &mut Items<Fault>,
    classes: &Classes,
    functions: &[Signature],
    place: Place,
    meaning: Meaning,
    arguments: &[Worth],
) -> Result<(), OutOfMemory>
    ensures { OnOk result (found.new ≡ found.old ++ instance_faults classes.now functions.now place meaning arguments.now) }
{
    match meaning {
        Meaning::Function(n) => {
            note_predicate(
                found,
                classes.list.as_slice(),
                functions,
                place,
                n,
                arguments,
            )
        }
        _ => Ok(()),
    }
}

fn note_function_call(
    found: &mut Items<Fault>,
    classes: &Classes,
    functions: &[Signature],
    at: Position,
    place: Place,
    number: usize,
    arguments: &[Worth],
) -> Result<(), OutOfMemory>
    ensures { OnOk result (found.new ≡ found.old ++ called_faults classes.now functions.now at place number arguments.now (passes (is_function_called at) functions.now number)) }
{
    let allowed = is_function_called(functions, at, number);
    note_called(
        found, classes, functions, at, place, number, arguments, allowed,
    )
}

fn note_method_call(
    found: &mut Items<Fault>,
    classes: &Classes,
    functions: &[Signature],
    at: Position,
    place: Place,
    number: usize,
    arguments: &[Worth],
) -> Result<(), OutOfMemory>
    ensures { OnOk result (found.new ≡ found.old ++ called_faults classes.now functions.now at place number arguments.now (passes (is_method_called at) functions.now number)) }
{
    let allowed = is_method_called(functions, at, number);
    note_called(
        found, classes, functions, at, place, number, arguments, allowed,
    )
}

fn note_meaning(
    found: &mut Items<Fault>,
    classes: &Classes,
    functions: &[Signature],
    scope: &Scope,
    at: Position,
    callee: Worth,
    arguments: &[Worth],
) -> Result<(), OutOfMemory>
    ensures { OnOk result (found.new ≡ found.old ++ meaning_faults classes.now functions.now scope.now at callee.place callee.meaning arguments.now) }
{
    let p = callee.place;
    let list = classes.list.as_slice();
    match callee.meaning {
        Meaning::Plain => note(found, p, 10),
        Meaning::Nothing => note(found, p, 10),
        Meaning::Unknown => Ok(()),
        Meaning::Function(n) => note_function_call(found, classes, functions, at, p, n, arguments),
        Meaning::Method(n) => note_method_call(found, classes, functions, at, p, n, arguments),
        Meaning::Class(k) => note_class(found, classes, functions, at, p, k, arguments),
        Meaning::Contract(c) => note_contract(found, classes, functions, p, c, arguments),
        Meaning::Print => note_if(found, !is_statement(at), p, 17),
        Meaning::Super => Ok(()),
        Meaning::SuperInit => note_super(found, classes, functions, scope, p, arguments),
        Meaning::Thread => note(found, p, 10),
        Meaning::GetLocked(_) => note_arguments(found, list, 9, p, &[], arguments),
        Meaning::Acquire => note_lone(found, list, 14, at, p, &[], arguments),
        Meaning::Release => note_lone(found, list, 14, at, p, &[], arguments),
        Meaning::Start => note_handled(found, list, at, p, arguments),
        Meaning::Join => note_handled(found, list, at, p, arguments),
        Meaning::Label(_) => Ok(()),
    }
}

/// Whether it is `Thread`.
pub fn is_thread(meaning: Meaning) -> bool
    ensures { result ≡ is_thread meaning }
{
    match meaning {
        Meaning::Thread => true,
        _ => false,
    }
}

/// Adds the faults of a call in code, or in a contract beside instances.
pub fn note_meaning_of(
    found: &mut Items<Fault>,
    classes: &Classes,
    functions: &[Signature],
    scope: &Scope,
    at: Position,
    callee: Worth,
    arguments: &[Worth],
) -> Result<(), OutOfMemory>
    ensures { OnOk result (found.new ≡ found.old ++ (if is_instance at then instance_faults classes.now functions.now callee.place callee.meaning arguments.now else meaning_faults classes.now functions.now scope.now at callee.place callee.meaning arguments.now)) }
{
    if is_instance(at) {
        return note_instance(
            found,
            classes,
            functions,
            callee.place,
            callee.meaning,
            arguments,
        );
    }
    note_meaning(found, classes, functions, scope, at, callee, arguments)
}

/// The type of a call.
pub fn meaning_type(
    classes: &Classes,
    functions: &[Signature],
    scope: &Scope,
    meaning: Meaning,
    arguments: &[Worth],
) -> Option<Ty>
    ensures { result ≡ meaning_type classes.now functions.now scope.now meaning arguments.now }
{
    match meaning {
        Meaning::Function(n) => result_at(functions, n),
        Meaning::Method(n) => result_at(functions, n),
        Meaning::Class(k) => class_type(classes, k),
        Meaning::Contract(c) => contract_type(scope, c, arguments),
        Meaning::GetLocked(c) => Some(Ty::Obj(c)),
        Meaning::Thread => Some(Ty::Thr),
        _ => None,
    }
}

/// What a call means where it is a receiver.
pub fn call_meaning(meaning: Meaning) -> Meaning
    ensures { result ≡ call_meaning meaning }
{
    match meaning {
        Meaning::Super => Meaning::Super,
        _ => Meaning::Plain,
    }
}
