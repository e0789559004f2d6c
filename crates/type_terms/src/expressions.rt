// Expressions: their faults, and what they are worth.
ghost use Rattle.std.specs.Prelude.{◌≡◌, ◌<◌, ◌^◌, ◌++◌, length, map, OnOk, IfOk};
ghost use Rattle.type_names.specs.declared.Meaning.TheVariants as meanings;
ghost use Rattle.type_names.specs.Positions.{inner};
ghost use Rattle.type_terms.specs.Expressions.{asked, all_faults, all_types, parts_worth, link_at, compared, label_faults, argument_typing, arguments_typing, argued_faults, argued_types, givens, typing, argument_of, link_of};

use crate::arguments::argument_position;
use crate::calls::is_thread;
use crate::reading::{read_string, read_tuple};
use crate::steps::{both, chain_type, compare, compute, either, invert, negate};
use crate::telling::{type_call, type_constant, type_member, type_name};
use class_table::Classes;
use py_base::{OutOfMemory, Place};
use py_syntax::Ty;
use raw_syntax::{RawArgument, RawComparison, RawExpr, RawExprForm};
use sqlite_items::Items;
use std::alloc::Global;
use type_base::Fault;
use type_names::{
    Compared, Given, Meaning, Position, Scope, Signature, TypeAt, Worth, arithmetic_type, called,
    conjunct, inner, is_told, note, note_type, out_type,
};

fn note_label(
    found: &mut Items<Fault>,
    callee: Meaning,
    at: Position,
    place: Place,
) -> Result<(), OutOfMemory>
    ensures { OnOk result (found.new ≡ found.old ++ label_faults callee at place) }
{
    if !is_thread(callee) && is_told(at) {
        note(found, place, 18)?;
    }
    Ok(())
}

/// What an expression is worth where it stands. Its faults are added to those found.
#[cycle(typing)]
pub fn type_expr(
    e: &RawExpr,
    alloc: Global,
    classes: &Classes,
    functions: &[Signature],
    scope: &Scope,
    at: Position,
    found: &mut Items<Fault>,
    types: &mut Items<TypeAt>,
) -> Result<Worth, OutOfMemory>
    requires { length classes.now.list < 2 ^ 32 }
    ensures worth { IfOk result (λ w. w ≡ (typing classes.now functions.now scope.now e.now at).worth) }
    ensures faults { OnOk result (found.new ≡ found.old ++ (typing classes.now functions.now scope.now e.now at).faults) }
    ensures types { OnOk result (types.new ≡ types.old ++ (typing classes.now functions.now scope.now e.now at).types) }
{
    let p = e.place;
    match &e.form {
        RawExprForm::Number(_) => type_constant(found, types, classes, at, p, Some(Ty::Int)),
        RawExprForm::Truth(_) => type_constant(found, types, classes, at, p, Some(Ty::Bool)),
        RawExprForm::Nil => type_constant(found, types, classes, at, p, Some(Ty::Void)),
        RawExprForm::Name(name) => {
            type_name(found, types, classes, functions, scope, name.bytes(), p, at)
        }
        RawExprForm::Str(_) => read_string(found, classes, at, p),
        RawExprForm::Bracket(e) => type_expr(
            e.get(),
            alloc,
            classes,
            functions,
            scope,
            at,
            found,
            types,
        ),
        RawExprForm::Tuple(parts) => {
            let parts = type_parts(
                parts,
                alloc,
                classes,
                functions,
                scope,
                inner(at),
                found,
                types,
            )?;
            read_tuple(found, classes, functions, parts.as_slice(), p, at)
        }
        RawExprForm::Field(e, name) => {
            let e = type_expr(
                e.get(),
                alloc,
                classes,
                functions,
                scope,
                inner(at),
                found,
                types,
            )?;
            type_member(found, types, classes, functions, e, name.bytes(), p, at)
        }
        RawExprForm::Call(e, arguments) => {
            let e = type_expr(
                e.get(),
                alloc,
                classes,
                functions,
                scope,
                called(at),
                found,
                types,
            )?;
            let before = types.len();
            note_type(types, at, e.place, None)?;
            let m = e.meaning;
            let givens = type_arguments(
                arguments, alloc, classes, functions, scope, m, at, found, types,
            )?;
            type_call(
                alloc,
                found,
                types,
                before,
                classes,
                functions,
                scope,
                at,
                e,
                givens.as_slice(),
            )
        }
        RawExprForm::Negate(a) => {
            note_type(types, at, p, out_type(6))?;
            let a = type_expr(
                a.get(),
                alloc,
                classes,
                functions,
                scope,
                inner(at),
                found,
                types,
            )?;
            negate(found, classes, at, p, a)
        }
        RawExprForm::Binary(operator, a, b) => {
            let a = type_expr(
                a.get(),
                alloc,
                classes,
                functions,
                scope,
                inner(at),
                found,
                types,
            )?;
            note_type(types, at, p, arithmetic_type(*operator))?;
            let b = type_expr(
                b.get(),
                alloc,
                classes,
                functions,
                scope,
                inner(at),
                found,
                types,
            )?;
            compute(found, classes, at, *operator, p, a, b)
        }
        RawExprForm::Chain(a, links) => {
            let a = type_expr(
                a.get(),
                alloc,
                classes,
                functions,
                scope,
                inner(at),
                found,
                types,
            )?;
            note_type(types, at, p, chain_type(links.as_slice()))?;
            let links = type_links(
                links,
                alloc,
                classes,
                functions,
                scope,
                inner(at),
                found,
                types,
            )?;
            compare(found, classes, at, p, a, links.as_slice())
        }
        RawExprForm::Not(a) => {
            note_type(types, at, p, out_type(17))?;
            let a = type_expr(
                a.get(),
                alloc,
                classes,
                functions,
                scope,
                inner(at),
                found,
                types,
            )?;
            invert(found, classes, at, p, a)
        }
        RawExprForm::And(a, b) => {
            let a = type_expr(
                a.get(),
                alloc,
                classes,
                functions,
                scope,
                conjunct(at),
                found,
                types,
            )?;
            note_type(types, at, p, Some(Ty::Bool))?;
            let b = type_expr(
                b.get(),
                alloc,
                classes,
                functions,
                scope,
                conjunct(at),
                found,
                types,
            )?;
            both(found, classes, at, p, a, b)
        }
        RawExprForm::Or(a, b) => {
            let a = type_expr(
                a.get(),
                alloc,
                classes,
                functions,
                scope,
                inner(at),
                found,
                types,
            )?;
            note_type(types, at, p, Some(Ty::Bool))?;
            let b = type_expr(
                b.get(),
                alloc,
                classes,
                functions,
                scope,
                inner(at),
                found,
                types,
            )?;
            either(found, classes, at, p, a, b)
        }
    }
}

#[cycle(typing)]
fn type_parts(
    parts: &Items<RawExpr>,
    alloc: Global,
    classes: &Classes,
    functions: &[Signature],
    scope: &Scope,
    at: Position,
    found: &mut Items<Fault>,
    types: &mut Items<TypeAt>,
) -> Result<Items<Worth>, OutOfMemory>
    requires { length classes.now.list < 2 ^ 32 }
    ensures worth { IfOk result (λ ws. ws ≡ parts_worth (map (asked at) (map (typing classes.now functions.now scope.now) parts.now))) }
    ensures faults { OnOk result (found.new ≡ found.old ++ all_faults (map (asked at) (map (typing classes.now functions.now scope.now) parts.now))) }
    ensures types { OnOk result (types.new ≡ types.old ++ all_types (map (asked at) (map (typing classes.now functions.now scope.now) parts.now))) }
{
    let mut worths = Items::new(alloc);
    'parts: for part in parts.as_slice() {
        worths.push(type_expr(part, alloc, classes, functions, scope, at, found, types)?)?;
    }
    Ok(worths)
}

#[cycle(typing)]
fn type_links(
    links: &Items<RawComparison>,
    alloc: Global,
    classes: &Classes,
    functions: &[Signature],
    scope: &Scope,
    at: Position,
    found: &mut Items<Fault>,
    types: &mut Items<TypeAt>,
) -> Result<Items<Compared>, OutOfMemory>
    requires { length classes.now.list < 2 ^ 32 }
    ensures worth { IfOk result (λ ls. ls ≡ map (compared at) (map (link_of classes.now functions.now scope.now) links.now)) }
    ensures faults { OnOk result (found.new ≡ found.old ++ all_faults (map (link_at at) (map (link_of classes.now functions.now scope.now) links.now))) }
    ensures types { OnOk result (types.new ≡ types.old ++ all_types (map (link_at at) (map (link_of classes.now functions.now scope.now) links.now))) }
{
    let mut all = Items::new(alloc);
    'links: for link in links.as_slice() {
        let operand = type_expr(
            &link.operand,
            alloc,
            classes,
            functions,
            scope,
            at,
            found,
            types,
        )?;
        all.push(Compared {
            place: link.place,
            operator: link.operator,
            operand,
        })?;
    }
    Ok(all)
}

#[cycle(typing)]
fn type_argument(
    argument: &RawArgument,
    alloc: Global,
    classes: &Classes,
    functions: &[Signature],
    scope: &Scope,
    callee: Meaning,
    at: Position,
    found: &mut Items<Fault>,
    types: &mut Items<TypeAt>,
) -> Result<Given, OutOfMemory>
    requires { length classes.now.list < 2 ^ 32 }
    ensures worth { IfOk result (λ g. g ≡ (argument_typing callee at (argument_of classes.now functions.now scope.now argument.now)).given) }
    ensures faults { OnOk result (found.new ≡ found.old ++ (argument_typing callee at (argument_of classes.now functions.now scope.now argument.now)).faults) }
    ensures types { OnOk result (types.new ≡ types.old ++ (argument_typing callee at (argument_of classes.now functions.now scope.now argument.now)).types) }
{
    match argument {
        RawArgument::Value(e) => {
            let worth = type_expr(e, alloc, classes, functions, scope, at, found, types)?;
            Ok(Given {
                label: Meaning::Plain,
                worth,
            })
        }
        RawArgument::Named(l, e) => {
            let label = type_expr(
                l,
                alloc,
                classes,
                functions,
                scope,
                Position::Label,
                found,
                types,
            )?;
            note_label(found, callee, at, label.place)?;
            let worth = type_expr(e, alloc, classes, functions, scope, at, found, types)?;
            Ok(Given {
                label: label.meaning,
                worth,
            })
        }
    }
}

#[cycle(typing)]
fn type_arguments(
    arguments: &Items<RawArgument>,
    alloc: Global,
    classes: &Classes,
    functions: &[Signature],
    scope: &Scope,
    callee: Meaning,
    at: Position,
    found: &mut Items<Fault>,
    types: &mut Items<TypeAt>,
) -> Result<Items<Given>, OutOfMemory>
    requires { length classes.now.list < 2 ^ 32 }
    ensures worth { IfOk result (λ gs. gs ≡ givens (arguments_typing callee at 0 meanings.Plain (map (argument_of classes.now functions.now scope.now) arguments.now))) }
    ensures faults { OnOk result (found.new ≡ found.old ++ argued_faults (arguments_typing callee at 0 meanings.Plain (map (argument_of classes.now functions.now scope.now) arguments.now))) }
    ensures types { OnOk result (types.new ≡ types.old ++ argued_types (arguments_typing callee at 0 meanings.Plain (map (argument_of classes.now functions.now scope.now) arguments.now))) }
{
    let mut all = Items::new(alloc);
    let mut number = 0usize;
    let mut before = Meaning::Plain;
    'arguments: for argument in arguments.as_slice() {
        let here = argument_position(callee, at, number, before);
        let given = type_argument(
            argument, alloc, classes, functions, scope, callee, here, found, types,
        )?;
        before = given.worth.meaning;
        all.push(given)?;
        number += 1;
    }
    Ok(all)
}
