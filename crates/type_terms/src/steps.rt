// Expressions, once their parts are known: their own faults, and what they are worth.
ghost use Rattle.std.specs.Prelude.{◌≡◌, ◌++◌, [], Some, None, if◌then◌else◌, OnOk, IfOk};
ghost use Rattle.py_syntax.specs.declared.Ty.TheVariants as types;
ghost use Rattle.type_names.specs.Operands.{both_bool_faults, prefix_faults, arithmetic_faults, arithmetic_type, chain_faults};
ghost use Rattle.type_names.specs.Rows.{out_type};
ghost use Rattle.type_terms.specs.Calls.{worths, call_faults, meaning_type, call_meaning};
ghost use Rattle.type_names.specs.Positions.{plainly, worth_of, is_atom, told, position_faults};
ghost use Rattle.type_terms.specs.Expressions.{own_faults};

use crate::calls::{call_meaning, meaning_type};
use crate::threads::{note_call, worths_of};
use class_table::Classes;
use py_base::{OutOfMemory, Place};
use py_syntax::Ty;
use raw_syntax::{Arithmetic, RawComparison};
use sqlite_items::Items;
use std::alloc::Global;
use type_base::Fault;
use type_names::{
    Compared, Given, Position, Scope, Signature, Worth, arithmetic_type, comparison_type, is_atom,
    is_told, note_arithmetic, note_both_bool, note_chain, note_position, note_prefix, out_type,
    plainly,
};

/// An expression of this type that is no name.
pub fn settle(
    found: &mut Items<Fault>,
    classes: &Classes,
    at: Position,
    place: Place,
    ty: Option<Ty>,
) -> Result<Worth, OutOfMemory>
    ensures worth { IfOk result (λ w. w ≡ plainly place ty) }
    ensures faults { OnOk result (found.new ≡ found.old ++ position_faults classes.now.list at place ty) }
{
    note_position(found, classes.list.as_slice(), at, place, ty)?;
    Ok(plainly(place, ty))
}

/// Prefix `-`
pub fn negate(
    found: &mut Items<Fault>,
    classes: &Classes,
    at: Position,
    place: Place,
    a: Worth,
) -> Result<Worth, OutOfMemory>
    ensures worth { IfOk result (λ w. w ≡ plainly place (out_type 6)) }
    ensures faults { OnOk result (found.new ≡ found.old ++ own_faults classes.now at place (prefix_faults classes.now.list 6 a) (out_type 6)) }
{
    if is_told(at) {
        note_prefix(found, classes.list.as_slice(), 6, a)?;
    }
    settle(found, classes, at, place, out_type(6))
}

/// `not`
pub fn invert(
    found: &mut Items<Fault>,
    classes: &Classes,
    at: Position,
    place: Place,
    a: Worth,
) -> Result<Worth, OutOfMemory>
    ensures worth { IfOk result (λ w. w ≡ plainly place (out_type 17)) }
    ensures faults { OnOk result (found.new ≡ found.old ++ own_faults classes.now at place (prefix_faults classes.now.list 17 a) (out_type 17)) }
{
    if is_told(at) {
        note_prefix(found, classes.list.as_slice(), 17, a)?;
    }
    settle(found, classes, at, place, out_type(17))
}

/// An operator on numbers.
pub fn compute(
    found: &mut Items<Fault>,
    classes: &Classes,
    at: Position,
    operator: Arithmetic,
    place: Place,
    a: Worth,
    b: Worth,
) -> Result<Worth, OutOfMemory>
    ensures worth { IfOk result (λ w. w ≡ plainly place (arithmetic_type operator)) }
    ensures faults { OnOk result (found.new ≡ found.old ++ own_faults classes.now at place (arithmetic_faults classes.now.list operator place a b) (arithmetic_type operator)) }
{
    if is_told(at) {
        note_arithmetic(found, classes.list.as_slice(), operator, place, a, b)?;
    }
    settle(found, classes, at, place, arithmetic_type(operator))
}

/// `or`
pub fn either(
    found: &mut Items<Fault>,
    classes: &Classes,
    at: Position,
    place: Place,
    a: Worth,
    b: Worth,
) -> Result<Worth, OutOfMemory>
    ensures worth { IfOk result (λ w. w ≡ plainly place (Some types.Bool)) }
    ensures faults { OnOk result (found.new ≡ found.old ++ own_faults classes.now at place (both_bool_faults classes.now.list a b) (Some types.Bool)) }
{
    if is_told(at) {
        note_both_bool(found, classes.list.as_slice(), a, b)?;
    }
    settle(found, classes, at, place, Some(Ty::Bool))
}

/// `and`, whose parts are assertions in an assertion.
pub fn both(
    found: &mut Items<Fault>,
    classes: &Classes,
    at: Position,
    place: Place,
    a: Worth,
    b: Worth,
) -> Result<Worth, OutOfMemory>
    ensures worth { IfOk result (λ w. w ≡ plainly place (Some types.Bool)) }
    ensures faults { OnOk result (found.new ≡ found.old ++ own_faults classes.now at place (if is_atom at then [] else both_bool_faults classes.now.list a b) (Some types.Bool)) }
{
    if is_atom(at) {
        return settle(found, classes, at, place, Some(Ty::Bool));
    }
    either(found, classes, at, place, a, b)
}

/// The type of a chain of comparisons: what its first one gives.
pub fn chain_type(links: &[RawComparison]) -> Option<Ty>
    ensures { result ≡ Some types.Bool }
{
    match links {
        [first, ..] => comparison_type(first.operator),
        [] => Some(Ty::Bool),
    }
}

fn compared_type(links: &[Compared]) -> Option<Ty>
    ensures { result ≡ Some types.Bool }
{
    match links {
        [first, ..] => comparison_type(first.operator),
        [] => Some(Ty::Bool),
    }
}

/// A chain of comparisons.
pub fn compare(
    found: &mut Items<Fault>,
    classes: &Classes,
    at: Position,
    place: Place,
    first: Worth,
    links: &[Compared],
) -> Result<Worth, OutOfMemory>
    ensures worth { IfOk result (λ w. w ≡ plainly place (Some types.Bool)) }
    ensures faults { OnOk result (found.new ≡ found.old ++ own_faults classes.now at place (chain_faults classes.now.list first links.now) (Some types.Bool)) }
{
    if is_told(at) {
        note_chain(found, classes.list.as_slice(), first, links)?;
    }
    settle(found, classes, at, place, compared_type(links))
}

/// A call.
pub fn call(
    alloc: Global,
    found: &mut Items<Fault>,
    classes: &Classes,
    functions: &[Signature],
    scope: &Scope,
    at: Position,
    callee: Worth,
    givens: &[Given],
) -> Result<Worth, OutOfMemory>
    ensures worth { IfOk result (λ w. w ≡ worth_of callee.place (meaning_type classes.now functions.now scope.now callee.meaning (worths givens.now)) (call_meaning callee.meaning)) }
    ensures faults { OnOk result (found.new ≡ found.old ++ own_faults classes.now at callee.place (call_faults classes.now functions.now scope.now at callee givens.now) (meaning_type classes.now functions.now scope.now callee.meaning (worths givens.now))) }
{
    if is_told(at) {
        note_call(alloc, found, classes, functions, scope, at, callee, givens)?;
    }
    let worths = worths_of(alloc, givens)?;
    let ty = meaning_type(classes, functions, scope, callee.meaning, worths.as_slice());
    note_position(found, classes.list.as_slice(), at, callee.place, ty)?;
    Ok(Worth {
        place: callee.place,
        ty,
        meaning: call_meaning(callee.meaning),
    })
}
