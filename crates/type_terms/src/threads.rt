// The making of threads, and calls in all.
ghost use Rattle.std.specs.Prelude.{◌≡◌, ◌++◌, not, OnOk, IfOk};
ghost use Rattle.py_syntax.specs.declared.Ty.TheVariants as types;
ghost use Rattle.type_names.specs.Fitting.{mistyped_if, want_faults};
ghost use Rattle.type_terms.specs.Calls.{worths, is_label, is_named, thread_faults, call_faults};

use crate::calls::{is_thread, note_meaning_of};
use class_table::Classes;
use py_base::{OutOfMemory, Place};
use py_syntax::{Class, Ty};
use sqlite_items::Items;
use std::alloc::Global;
use type_base::Fault;
use type_names::{
    Given, Label, Meaning, Position, Scope, Signature, Worth, is_in_contract, is_instance, note,
    note_if, note_want,
};

/// What the arguments are worth.
pub fn worths_of(alloc: Global, givens: &[Given]) -> Result<Items<Worth>, OutOfMemory>
    ensures { IfOk result (λ ws. ws ≡ worths givens.now) }
{
    let mut all = Items::new(alloc);
    'givens: for given in givens {
        all.push(given.worth)?;
    }
    Ok(all)
}

fn is_label(label: Label, meaning: Meaning) -> bool
    ensures { result ≡ is_label label meaning }
{
    match meaning {
        Meaning::Label(own) => match label {
            Label::Target => own == Label::Target,
            Label::Arguments => own == Label::Arguments,
            Label::Level => own == Label::Level,
        },
        _ => false,
    }
}

fn is_named(meaning: Meaning) -> bool
    ensures { result ≡ is_named meaning }
{
    match meaning {
        Meaning::Plain => false,
        _ => true,
    }
}

fn note_three(
    found: &mut Items<Fault>,
    classes: &[Class],
    target: Worth,
    level: Worth,
) -> Result<(), OutOfMemory>
    ensures { OnOk result (found.new ≡ found.old ++ (mistyped_if (not (is_named target.meaning)) target.place 15 ++ want_faults classes.now 9 types.Int level)) }
{
    note_if(found, !is_named(target.meaning), target.place, 15)?;
    note_want(found, classes, 9, Ty::Int, level)
}

fn note_thread(
    found: &mut Items<Fault>,
    classes: &[Class],
    place: Place,
    givens: &[Given],
) -> Result<(), OutOfMemory>
    ensures { OnOk result (found.new ≡ found.old ++ thread_faults classes.now place givens.now) }
{
    match givens {
        [target, passed, level] => {
            if is_label(Label::Target, target.label)
                && is_label(Label::Arguments, passed.label)
                && is_label(Label::Level, level.label)
            {
                return note_three(found, classes, target.worth, level.worth);
            }
            note(found, place, 15)
        }
        _ => note(found, place, 15),
    }
}

/// Adds the faults of a call.
pub fn note_call(
    alloc: Global,
    found: &mut Items<Fault>,
    classes: &Classes,
    functions: &[Signature],
    scope: &Scope,
    at: Position,
    callee: Worth,
    givens: &[Given],
) -> Result<(), OutOfMemory>
    ensures { OnOk result (found.new ≡ found.old ++ call_faults classes.now functions.now scope.now at callee givens.now) }
{
    if !is_instance(at) && is_thread(callee.meaning) && !is_in_contract(at) {
        return note_thread(found, classes.list.as_slice(), callee.place, givens);
    }
    let worths = worths_of(alloc, givens)?;
    note_meaning_of(
        found,
        classes,
        functions,
        scope,
        at,
        callee,
        worths.as_slice(),
    )
}
