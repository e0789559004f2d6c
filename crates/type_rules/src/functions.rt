// Functions and modules: their faults, their types and their locals.
ghost use Rattle.std.specs.Prelude.{◌≡◌, ◌<◌, ◌≤◌, ◌+◌, ◌^◌, ◌++◌, length, map, OnOk, IfOk};
ghost use Rattle.class_table.specs.Shapes.{shape, is_string};
ghost use Rattle.class_table.specs.Declaring.{statement_is, behind_docstring};
ghost use Rattle.type_base.specs.Faults.{joined};
ghost use Rattle.type_rules.specs.Statements.{statement_faults, returned_at, function_faults, members_faults, faults_from};
ghost use Rattle.type_rules.specs.Types.{joined_types, statement_types, function_types, function_locals, members_types, members_locals, types_from, locals_from, findings_of};

use crate::listing::list_locals;
use crate::locals::scope_of;
use crate::outcome::Findings;
use crate::statements::note_statement;
use class_table::Classes;
use py_base::OutOfMemory;
use raw_syntax::{Raw, RawExpr, RawExprForm, RawFunc, RawItem, RawStmt, RawStmtForm};
use sqlite_items::Items;
use std::alloc::Global;
use type_base::Fault;
use type_names::{
    FunctionSort, Local, Position, Scope, Signature, TypeAt, function_sort, signatures,
};

fn is_string(e: &RawExpr) -> bool
    ensures { result ≡ is_string (shape e.now) }
{
    match &e.form {
        RawExprForm::Bracket(inner) => is_string(inner.get()),
        RawExprForm::Str(_) => true,
        _ => false,
    }
}

fn is_docstring(s: &RawStmt) -> bool
    ensures { result ≡ statement_is is_string s.now }
{
    match &s.form {
        RawStmtForm::Eval(e) => is_string(e),
        _ => false,
    }
}

fn behind_docstring(body: &[RawStmt]) -> &[RawStmt]
    ensures { result.now ≡ behind_docstring body.now }
{
    match body {
        [] => body,
        [first, rest @ ..] => {
            if is_docstring(first) {
                return rest;
            }
            body
        }
    }
}

fn returned_at(sort: FunctionSort) -> Position
    ensures { result ≡ returned_at sort }
{
    match sort {
        FunctionSort::Code => Position::Value,
        FunctionSort::Predicate => Position::Atom,
        FunctionSort::Pure => Position::Term,
    }
}

fn note_body(
    alloc: Global,
    classes: &Classes,
    functions: &[Signature],
    scope: &Scope,
    at: Position,
    body: &[RawStmt],
    found: &mut Items<Fault>,
    types: &mut Items<TypeAt>,
) -> Result<(), OutOfMemory>
    requires { length classes.now.list < 2 ^ 32 }
    ensures faults { OnOk result (found.new ≡ found.old ++ joined (map (statement_faults classes.now functions.now scope.now at) body.now)) }
    ensures types { OnOk result (types.new ≡ types.old ++ joined_types (map (statement_types classes.now functions.now scope.now at) body.now)) }
{
    'body: for s in body {
        note_statement(s, alloc, classes, functions, scope, at, found, types)?;
    }
    Ok(())
}

#[tactic(auto, unfolding(crate::specs::Statements::function_faults, crate::specs::Types::function_types, crate::specs::Types::function_locals))]
fn note_function(
    alloc: Global,
    classes: &Classes,
    functions: &[Signature],
    owner: Option<u32>,
    f: &RawFunc,
    found: &mut Items<Fault>,
    types: &mut Items<TypeAt>,
    locals: &mut Items<Items<Local>>,
) -> Result<(), OutOfMemory>
    requires { length classes.now.list < 2 ^ 32 }
    ensures faults { OnOk result (found.new ≡ found.old ++ function_faults classes.now functions.now owner f.now) }
    ensures types { OnOk result (types.new ≡ types.old ++ function_types classes.now functions.now owner f.now) }
    ensures locals { OnOk result (locals.new ≡ locals.old ++ function_locals classes.now functions.now owner f.now) }
{
    let scope = scope_of(alloc, classes, functions, owner, f)?;
    list_locals(alloc, locals, f, &scope)?;
    let at = returned_at(function_sort(f));
    let body = behind_docstring(f.body.as_slice());
    note_body(alloc, classes, functions, &scope, at, body, found, types)
}

fn note_members(
    alloc: Global,
    classes: &Classes,
    functions: &[Signature],
    class: u32,
    members: &[RawFunc],
    found: &mut Items<Fault>,
    types: &mut Items<TypeAt>,
    locals: &mut Items<Items<Local>>,
) -> Result<(), OutOfMemory>
    requires { length classes.now.list < 2 ^ 32 }
    ensures faults { OnOk result (found.new ≡ found.old ++ members_faults classes.now functions.now class members.now) }
    ensures types { OnOk result (types.new ≡ types.old ++ members_types classes.now functions.now class members.now) }
    ensures locals { OnOk result (locals.new ≡ locals.old ++ members_locals classes.now functions.now class members.now) }
{
    'members: for member in members {
        note_function(
            alloc,
            classes,
            functions,
            Some(class),
            member,
            found,
            types,
            locals,
        )?;
    }
    Ok(())
}

fn note_items(
    alloc: Global,
    classes: &Classes,
    functions: &[Signature],
    items: &[RawItem],
    found: &mut Items<Fault>,
    types: &mut Items<TypeAt>,
    locals: &mut Items<Items<Local>>,
) -> Result<(), OutOfMemory>
    requires classes { length classes.now.list < 2 ^ 32 }
    requires items { length items.now + 1 < 2 ^ 32 }
    ensures faults { OnOk result (found.new ≡ found.old ++ faults_from classes.now functions.now 1 items.now) }
    ensures types { OnOk result (types.new ≡ types.old ++ types_from classes.now functions.now 1 items.now) }
    ensures locals { OnOk result (locals.new ≡ locals.old ++ locals_from classes.now functions.now 1 items.now) }
{
    let mut number = 1u32;
    'items: for item in items {
        match item {
            RawItem::Class(class) => {
                let members = class.members.as_slice();
                note_members(
                    alloc, classes, functions, number, members, found, types, locals,
                )?;
                number += 1;
            }
            RawItem::Func(function) => {
                note_function(
                    alloc, classes, functions, None, function, found, types, locals,
                )?;
            }
        }
    }
    Ok(())
}

fn all_findings(alloc: Global, raw: &Raw, classes: &Classes) -> Result<Findings, OutOfMemory>
    requires classes { length classes.now.list < 2 ^ 32 }
    requires items { length raw.now.items + 1 < 2 ^ 32 }
    ensures { IfOk result (λ found. found ≡ findings_of raw.now classes.now) }
{
    let items = raw.items.as_slice();
    let functions = signatures(alloc, classes, items)?;
    let mut faults = Items::new(alloc);
    let mut types = Items::new(alloc);
    let mut locals = Items::new(alloc);
    note_items(
        alloc,
        classes,
        functions.as_slice(),
        items,
        &mut faults,
        &mut types,
        &mut locals,
    )?;
    Ok(Findings {
        faults,
        types,
        locals,
    })
}

/// The types of the expressions of a text with these classes and the locals of its methods, with all faults of rules 2, 3, 4, 5, 8,
/// 9, 10, 11 for a value that doesn't fit, 14 to 18, 23, 24 and 26, and of a `bool` where an `int` is wanted. A text of 2^32 classes
/// or more is answered as one for which there is no memory.
pub fn findings_of(alloc: Global, raw: &Raw, classes: &Classes) -> Result<Findings, OutOfMemory>
    ensures { IfOk result (λ found. found ≡ findings_of raw.now classes.now) }
{
    if raw.items.len() >= 0xffff_ffff || classes.list.len() >= 0xffff_ffff {
        return Err(OutOfMemory);
    }
    all_findings(alloc, raw, classes)
}
