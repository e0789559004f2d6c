// What calls of contracts and threads ask.
ghost use Rattle.std.specs.Prelude.{◌≡◌, ◌++◌, ◌&&◌, [], map, if◌then◌else◌, OnOk};
ghost use Rattle.class_table.specs.Faults.{is_alone};
ghost use Rattle.contract_kinds.specs.Words.{contract_of};
ghost use Rattle.contract_kinds.specs.Kinds.{is_statement};
ghost use Rattle.contract_forms.specs.Readings.{scope, amount_breaches, asked_breaches, contract_breaches, call_breaches, lone_join_breaches, gives, reading, argument_of};

use crate::function::Function;
use crate::reading::{contract_of, first, is_fraction, is_word, joins, place};
use crate::target::{note_instance, note_lone_join, note_second_join, note_thread};
use contract_kinds::{Breach, Contract, Rule, Spot, is_statement, note, note_if, refusal};
use py_base::{OutOfMemory, Text};
use raw_syntax::{RawArgument, RawExpr, RawFunc, RawTy};
use sqlite_items::Items;

fn note_amount(found: &mut Items<Breach>, arguments: &[RawArgument]) -> Result<(), OutOfMemory>
    ensures { OnOk result (found.new ≡ found.old ++ amount_breaches (map argument_of arguments.now)) }
{
    match arguments {
        [_, second, ..] => match second {
            RawArgument::Value(e) => note_if(found, !is_fraction(e), first(e), Rule::BadFraction),
            RawArgument::Named(label, _) => {
                note_if(found, true, first(label), Rule::BadFraction)
            }
        },
        _ => Ok(()),
    }
}

fn note_asked(
    found: &mut Items<Breach>,
    functions: &[Function],
    method: &RawFunc,
    locals: &[Text],
    contract: Contract,
    arguments: &[RawArgument],
) -> Result<(), OutOfMemory>
    ensures { OnOk result (found.new ≡ found.old ++ asked_breaches (scope functions.now method.now locals.now) contract (map argument_of arguments.now)) }
{
    match contract {
        Contract::Acc => note_amount(found, arguments),
        Contract::Fold => note_instance(found, functions, method, locals, arguments),
        Contract::Unfold => note_instance(found, functions, method, locals, arguments),
        Contract::Unfolding => note_instance(found, functions, method, locals, arguments),
        Contract::MayJoin => note_second_join(found, functions, method, locals, arguments),
        _ => Ok(()),
    }
}

fn note_contract(
    found: &mut Items<Breach>,
    functions: &[Function],
    method: &RawFunc,
    locals: &[Text],
    at: Spot,
    called: &RawExpr,
    arguments: &[RawArgument],
) -> Result<(), OutOfMemory>
    ensures { OnOk result (found.new ≡ found.old ++ contract_breaches (scope functions.now method.now locals.now) at (reading called.now).place (reading called.now).word (contract_of (reading called.now).word) (map argument_of arguments.now)) }
{
    match contract_of(called) {
        Some(contract) => {
            note(found, refusal(contract, arguments.len(), at), place(called))?;
            note_asked(found, functions, method, locals, contract, arguments)
        }
        None => {
            if is_word(called, b"Thread") {
                return note_thread(found, functions, method, locals, arguments);
            }
            Ok(())
        }
    }
}

fn note_joined(
    found: &mut Items<Breach>,
    functions: &[Function],
    method: &RawFunc,
    locals: &[Text],
    at: Spot,
    called: &RawExpr,
    arguments: &[RawArgument],
) -> Result<(), OutOfMemory>
    ensures { OnOk result (found.new ≡ found.old ++ (if (reading called.now).joins && is_statement at then lone_join_breaches (scope functions.now method.now locals.now) (map argument_of arguments.now) else [])) }
{
    if joins(called) && is_statement(at) {
        return note_lone_join(found, functions, method, locals, arguments);
    }
    Ok(())
}

/// Adds the breaches of a call that stand at what is called and at the arguments themselves.
pub fn note_call(
    found: &mut Items<Breach>,
    functions: &[Function],
    method: &RawFunc,
    locals: &[Text],
    at: Spot,
    called: &RawExpr,
    arguments: &[RawArgument],
) -> Result<(), OutOfMemory>
    ensures { OnOk result (found.new ≡ found.old ++ call_breaches (scope functions.now method.now locals.now) at (reading called.now) (map argument_of arguments.now)) }
{
    note_contract(found, functions, method, locals, at, called, arguments)?;
    note_joined(found, functions, method, locals, at, called, arguments)
}

/// Whether the type is this word alone.
pub fn is_alone(ty: &RawTy, word: &[u8]) -> bool
    ensures { result ≡ is_alone ty.now word.now }
{
    if ty.head.bytes() != word {
        return false;
    }
    match ty.inner {
        None => true,
        Some(_) => false,
    }
}

/// Whether a method gives a value.
pub fn gives(functions: &[Function], method: &RawFunc, locals: &[Text]) -> bool
    ensures { result ≡ gives (scope functions.now method.now locals.now) }
{
    !is_alone(&method.ret, b"None")
}
