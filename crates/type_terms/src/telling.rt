// Expressions with their types in the list of types.
ghost use Rattle.std.specs.Prelude.{◌≡◌, ◌<◌, ◌^◌, ◌++◌, [], None, List, length, OnOk, IfOk};
ghost use Rattle.type_names.specs.declared.TypeAt.{TypeAt};
ghost use Rattle.type_names.specs.Positions.{plainly, worth_of, own_types};
ghost use Rattle.type_terms.specs.Calls.{worths, call_faults, meaning_type, call_meaning};
ghost use Rattle.type_terms.specs.Expressions.{own_faults, name_typing, member_worth, member_faults};

use crate::reading::{read_member, read_name};
use crate::steps::{call, settle};
use class_table::Classes;
use py_base::{OutOfMemory, Place};
use py_syntax::Ty;
use sqlite_items::Items;
use std::alloc::Global;
use type_base::Fault;
use type_names::{Given, Position, Scope, Signature, TypeAt, Worth, note_type, settle_type};

/// A number, `True`, `False` or `None`.
pub fn type_constant(
    found: &mut Items<Fault>,
    types: &mut Items<TypeAt>,
    classes: &Classes,
    at: Position,
    place: Place,
    ty: Option<Ty>,
) -> Result<Worth, OutOfMemory>
    ensures worth { IfOk result (λ w. w ≡ plainly place ty) }
    ensures faults { OnOk result (found.new ≡ found.old ++ own_faults classes.now at place [] ty) }
    ensures types { OnOk result (types.new ≡ types.old ++ own_types at place ty) }
{
    note_type(types, at, place, ty)?;
    settle(found, classes, at, place, ty)
}

/// A name.
pub fn type_name(
    found: &mut Items<Fault>,
    types: &mut Items<TypeAt>,
    classes: &Classes,
    functions: &[Signature],
    scope: &Scope,
    word: &[u8],
    place: Place,
    at: Position,
) -> Result<Worth, OutOfMemory>
    requires { length classes.now.list < 2 ^ 32 }
    ensures worth { IfOk result (λ w. w ≡ (name_typing classes.now functions.now scope.now word.now place at).worth) }
    ensures faults { OnOk result (found.new ≡ found.old ++ (name_typing classes.now functions.now scope.now word.now place at).faults) }
    ensures types { OnOk result (types.new ≡ types.old ++ (name_typing classes.now functions.now scope.now word.now place at).types) }
{
    let worth = read_name(found, classes, functions, scope, word, place, at)?;
    note_type(types, at, place, worth.ty)?;
    Ok(worth)
}

/// The field or method of a name.
pub fn type_member(
    found: &mut Items<Fault>,
    types: &mut Items<TypeAt>,
    classes: &Classes,
    functions: &[Signature],
    object: Worth,
    word: &[u8],
    place: Place,
    at: Position,
) -> Result<Worth, OutOfMemory>
    ensures worth { IfOk result (λ w. w ≡ member_worth classes.now functions.now object word.now place at) }
    ensures faults { OnOk result (found.new ≡ found.old ++ member_faults classes.now functions.now object word.now place at) }
    ensures types { OnOk result (types.new ≡ types.old ++ own_types at place (member_worth classes.now functions.now object word.now place at).ty) }
{
    let worth = read_member(found, classes, functions, object, word, place, at)?;
    note_type(types, at, place, worth.ty)?;
    Ok(worth)
}

/// A call, whose type was added with none behind so many others.
pub fn type_call(
    alloc: Global,
    found: &mut Items<Fault>,
    types: &mut Items<TypeAt>,
    before: usize,
    classes: &Classes,
    functions: &[Signature],
    scope: &Scope,
    at: Position,
    callee: Worth,
    givens: &[Given],
) -> Result<Worth, OutOfMemory>
    ensures worth { IfOk result (λ w. w ≡ worth_of callee.place (meaning_type classes.now functions.now scope.now callee.meaning (worths givens.now)) (call_meaning callee.meaning)) }
    ensures faults { OnOk result (found.new ≡ found.old ++ own_faults classes.now at callee.place (call_faults classes.now functions.now scope.now at callee givens.now) (meaning_type classes.now functions.now scope.now callee.meaning (worths givens.now))) }
    ensures types { (front rest : List TypeAt) → length front ≡ before → types.old ≡ front ++ (own_types at callee.place None ++ rest) → OnOk result (types.new ≡ front ++ (own_types at callee.place (meaning_type classes.now functions.now scope.now callee.meaning (worths givens.now)) ++ rest)) }
{
    let worth = call(alloc, found, classes, functions, scope, at, callee, givens)?;
    settle_type(types, before, at, callee.place, worth.ty);
    Ok(worth)
}
