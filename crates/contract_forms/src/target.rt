// What names mean in a method: targets of threads, and instances.
ghost use Rattle.std.specs.Prelude.{◌≡◌, ◌++◌, map, find, option_copied, OnOk};
ghost use Rattle.contract_forms.specs.Readings.{scope, meant, is_called, is_code, bad_target, bad_join, target_breaches, join_breaches, thread_breaches, lone_join_breaches, second_join_breaches, is_predicate, is_instance, instance_breaches, reading, argument_of};

use crate::function::{Function, Sort};
use crate::reading::{called, is_word, place, word};
use contract_kinds::{Breach, Rule, note_if};
use py_base::{OutOfMemory, Text};
use raw_syntax::{RawArgument, RawExpr, RawFunc};
use sqlite_items::Items;
use type_base::is_own_name;

fn function_called<'a>(functions: &'a [Function], name: &[u8]) -> Option<&'a Function>
    ensures { option_copied result ≡ find (is_called name.now) functions.now }
{
    functions
        .iter()
        .find(|function| name == function.name.bytes())
}

// The function of the module that a name means in a method.
fn meant<'a>(
    functions: &'a [Function],
    method: &RawFunc,
    locals: &[Text],
    name: &[u8],
) -> Option<&'a Function>
    ensures { option_copied result ≡ meant (scope functions.now method.now locals.now) name.now }
{
    if is_own_name(method.params.as_slice(), locals, name) {
        return None;
    }
    function_called(functions, name)
}

fn is_bad_target(function: Option<&Function>) -> bool
    ensures { result ≡ bad_target (option_copied function.entry) }
{
    match function {
        Some(found) => !found.is_target,
        None => true,
    }
}

/// Whether it is code.
pub fn is_code(sort: Sort) -> bool
    ensures { result ≡ is_code sort }
{
    match sort {
        Sort::Code => true,
        _ => false,
    }
}

fn is_bad_join(function: Option<&Function>) -> bool
    ensures { result ≡ bad_join (option_copied function.entry) }
{
    match function {
        Some(found) => !is_code(found.sort),
        None => false,
    }
}

fn note_target(
    found: &mut Items<Breach>,
    functions: &[Function],
    method: &RawFunc,
    locals: &[Text],
    e: &RawExpr,
) -> Result<(), OutOfMemory>
    ensures { OnOk result (found.new ≡ found.old ++ target_breaches (scope functions.now method.now locals.now) (reading e.now).place (reading e.now).word) }
{
    match word(e) {
        Some(name) => {
            let bad = is_bad_target(meant(functions, method, locals, name.bytes()));
            note_if(found, bad, place(e), Rule::BadTarget)
        }
        None => Ok(()),
    }
}

fn note_join(
    found: &mut Items<Breach>,
    functions: &[Function],
    method: &RawFunc,
    locals: &[Text],
    e: &RawExpr,
) -> Result<(), OutOfMemory>
    ensures { OnOk result (found.new ≡ found.old ++ join_breaches (scope functions.now method.now locals.now) (reading e.now).place (reading e.now).word) }
{
    match word(e) {
        Some(name) => {
            let bad = is_bad_join(meant(functions, method, locals, name.bytes()));
            note_if(found, bad, place(e), Rule::BadTarget)
        }
        None => Ok(()),
    }
}

/// Adds the breaches of a thread that is made.
pub fn note_thread(
    found: &mut Items<Breach>,
    functions: &[Function],
    method: &RawFunc,
    locals: &[Text],
    arguments: &[RawArgument],
) -> Result<(), OutOfMemory>
    ensures { OnOk result (found.new ≡ found.old ++ thread_breaches (scope functions.now method.now locals.now) (map argument_of arguments.now)) }
{
    match arguments {
        [] => Ok(()),
        [first, ..] => match first {
            RawArgument::Value(_) => Ok(()),
            RawArgument::Named(label, e) => {
                if is_word(label, b"target") {
                    return note_target(found, functions, method, locals, e);
                }
                Ok(())
            }
        },
    }
}

/// Adds the breaches of a thread that is started or joined.
pub fn note_lone_join(
    found: &mut Items<Breach>,
    functions: &[Function],
    method: &RawFunc,
    locals: &[Text],
    arguments: &[RawArgument],
) -> Result<(), OutOfMemory>
    ensures { OnOk result (found.new ≡ found.old ++ lone_join_breaches (scope functions.now method.now locals.now) (map argument_of arguments.now)) }
{
    match arguments {
        [first] => match first {
            RawArgument::Value(e) => note_join(found, functions, method, locals, e),
            RawArgument::Named(_, _) => Ok(()),
        },
        _ => Ok(()),
    }
}

/// Adds the breaches of a thread that may be joined.
pub fn note_second_join(
    found: &mut Items<Breach>,
    functions: &[Function],
    method: &RawFunc,
    locals: &[Text],
    arguments: &[RawArgument],
) -> Result<(), OutOfMemory>
    ensures { OnOk result (found.new ≡ found.old ++ second_join_breaches (scope functions.now method.now locals.now) (map argument_of arguments.now)) }
{
    match arguments {
        [_, second, ..] => match second {
            RawArgument::Value(e) => note_join(found, functions, method, locals, e),
            RawArgument::Named(_, _) => Ok(()),
        },
        _ => Ok(()),
    }
}

fn is_predicate(function: Option<&Function>) -> bool
    ensures { result ≡ is_predicate (option_copied function.entry) }
{
    match function {
        Some(found) => match found.sort {
            Sort::Predicate => true,
            _ => false,
        },
        None => false,
    }
}

fn is_instance(functions: &[Function], method: &RawFunc, locals: &[Text], e: &RawExpr) -> bool
    ensures { result ≡ is_instance (scope functions.now method.now locals.now) (reading e.now).called }
{
    match called(e) {
        Some(name) => is_predicate(meant(functions, method, locals, name.bytes())),
        None => false,
    }
}

/// Adds the breaches of what is to be an instance of a predicate.
pub fn note_instance(
    found: &mut Items<Breach>,
    functions: &[Function],
    method: &RawFunc,
    locals: &[Text],
    arguments: &[RawArgument],
) -> Result<(), OutOfMemory>
    ensures { OnOk result (found.new ≡ found.old ++ instance_breaches (scope functions.now method.now locals.now) (map argument_of arguments.now)) }
{
    match arguments {
        [] => Ok(()),
        [first, ..] => match first {
            RawArgument::Value(e) => {
                let unknown = !is_instance(functions, method, locals, e);
                note_if(found, unknown, place(e), Rule::UnknownPredicate)
            }
            RawArgument::Named(_, _) => Ok(()),
        },
    }
}
