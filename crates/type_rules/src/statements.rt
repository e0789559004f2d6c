// Statements: their faults.
ghost use Rattle.std.specs.Prelude.{◌≡◌, ◌<◌, ◌^◌, ◌++◌, length, map, OnOk};
ghost use Rattle.type_base.specs.Faults.{joined};
ghost use Rattle.type_names.specs.declared.Position.TheVariants as positions;
ghost use Rattle.type_terms.specs.Expressions.{typing};
ghost use Rattle.type_rules.specs.Types.{joined_types, value_types, assignment_types, return_types, statement_types, part_types, handler_types};
ghost use Rattle.type_rules.specs.Statements.{condition_faults, assignment_faults, augmented_faults, return_faults, with_faults, statement_faults, part_faults, handler_faults};

use class_table::Classes;
use py_base::{OutOfMemory, Place};
use py_syntax::Ty;
use raw_syntax::{Arithmetic, RawElif, RawExpr, RawHandler, RawStmt, RawStmtForm};
use sqlite_items::Items;
use std::alloc::Global;
use type_base::Fault;
use type_names::{Position, Scope, Signature, TypeAt, note_arithmetic, note_want, note_wanted};
use type_terms::{note_lock, type_expr, value_type};

fn note_condition(
    e: &RawExpr,
    alloc: Global,
    classes: &Classes,
    functions: &[Signature],
    scope: &Scope,
    found: &mut Items<Fault>,
    types: &mut Items<TypeAt>,
) -> Result<(), OutOfMemory>
    requires { length classes.now.list < 2 ^ 32 }
    ensures faults { OnOk result (found.new ≡ found.old ++ condition_faults classes.now functions.now scope.now e.now) }
    ensures types { OnOk result (types.new ≡ types.old ++ value_types classes.now functions.now scope.now e.now) }
{
    let worth = type_expr(
        e,
        alloc,
        classes,
        functions,
        scope,
        Position::Value,
        found,
        types,
    )?;
    note_want(found, classes.list.as_slice(), 4, Ty::Bool, worth)
}

fn note_assignment(
    alloc: Global,
    classes: &Classes,
    functions: &[Signature],
    scope: &Scope,
    target: &RawExpr,
    e: &RawExpr,
    found: &mut Items<Fault>,
    types: &mut Items<TypeAt>,
) -> Result<(), OutOfMemory>
    requires { length classes.now.list < 2 ^ 32 }
    ensures faults { OnOk result (found.new ≡ found.old ++ assignment_faults classes.now functions.now scope.now target.now e.now) }
    ensures types { OnOk result (types.new ≡ types.old ++ assignment_types classes.now functions.now scope.now target.now e.now) }
{
    let t = type_expr(
        target,
        alloc,
        classes,
        functions,
        scope,
        Position::Value,
        found,
        types,
    )?;
    let v = type_expr(
        e,
        alloc,
        classes,
        functions,
        scope,
        Position::Value,
        found,
        types,
    )?;
    note_wanted(found, classes.list.as_slice(), 5, t.ty, v)
}

fn note_augmented(
    alloc: Global,
    classes: &Classes,
    functions: &[Signature],
    scope: &Scope,
    target: &RawExpr,
    operator: Arithmetic,
    place: Place,
    e: &RawExpr,
    found: &mut Items<Fault>,
    types: &mut Items<TypeAt>,
) -> Result<(), OutOfMemory>
    requires { length classes.now.list < 2 ^ 32 }
    ensures faults { OnOk result (found.new ≡ found.old ++ augmented_faults classes.now operator place (typing classes.now functions.now scope.now target.now positions.Value) (typing classes.now functions.now scope.now e.now positions.Value)) }
    ensures types { OnOk result (types.new ≡ types.old ++ assignment_types classes.now functions.now scope.now target.now e.now) }
{
    let t = type_expr(
        target,
        alloc,
        classes,
        functions,
        scope,
        Position::Value,
        found,
        types,
    )?;
    let v = type_expr(
        e,
        alloc,
        classes,
        functions,
        scope,
        Position::Value,
        found,
        types,
    )?;
    note_arithmetic(found, classes.list.as_slice(), operator, place, t, v)
}

fn note_returned(
    alloc: Global,
    classes: &Classes,
    functions: &[Signature],
    scope: &Scope,
    at: Position,
    value: &Option<RawExpr>,
    found: &mut Items<Fault>,
    types: &mut Items<TypeAt>,
) -> Result<(), OutOfMemory>
    requires { length classes.now.list < 2 ^ 32 }
    ensures faults { OnOk result (found.new ≡ found.old ++ return_faults classes.now functions.now scope.now at value.now) }
    ensures types { OnOk result (types.new ≡ types.old ++ return_types classes.now functions.now scope.now at value.now) }
{
    let Some(e) = value else {
        return Ok(());
    };
    let worth = type_expr(e, alloc, classes, functions, scope, at, found, types)?;
    note_wanted(
        found,
        classes.list.as_slice(),
        11,
        value_type(scope.result),
        worth,
    )
}

fn note_alone(
    e: &RawExpr,
    alloc: Global,
    classes: &Classes,
    functions: &[Signature],
    scope: &Scope,
    found: &mut Items<Fault>,
    types: &mut Items<TypeAt>,
) -> Result<(), OutOfMemory>
    requires { length classes.now.list < 2 ^ 32 }
    ensures faults { OnOk result (found.new ≡ found.old ++ (typing classes.now functions.now scope.now e.now positions.Statement).faults) }
    ensures types { OnOk result (types.new ≡ types.old ++ (typing classes.now functions.now scope.now e.now positions.Statement).types) }
{
    type_expr(
        e,
        alloc,
        classes,
        functions,
        scope,
        Position::Statement,
        found,
        types,
    )?;
    Ok(())
}

fn note_held(
    alloc: Global,
    classes: &Classes,
    functions: &[Signature],
    scope: &Scope,
    e: &RawExpr,
    found: &mut Items<Fault>,
    types: &mut Items<TypeAt>,
) -> Result<(), OutOfMemory>
    requires { length classes.now.list < 2 ^ 32 }
    ensures faults { OnOk result (found.new ≡ found.old ++ with_faults classes.now (typing classes.now functions.now scope.now e.now positions.Value)) }
    ensures types { OnOk result (types.new ≡ types.old ++ value_types classes.now functions.now scope.now e.now) }
{
    let worth = type_expr(
        e,
        alloc,
        classes,
        functions,
        scope,
        Position::Value,
        found,
        types,
    )?;
    note_lock(found, classes, 14, worth.place, worth.ty)
}

/// Adds the faults of a statement and those within it, where returned values stand at this position.
#[cycle(statements)]
pub fn note_statement(
    s: &RawStmt,
    alloc: Global,
    classes: &Classes,
    functions: &[Signature],
    scope: &Scope,
    at: Position,
    found: &mut Items<Fault>,
    types: &mut Items<TypeAt>,
) -> Result<(), OutOfMemory>
    requires { length classes.now.list < 2 ^ 32 }
    ensures faults { OnOk result (found.new ≡ found.old ++ statement_faults classes.now functions.now scope.now at s.now) }
    ensures types { OnOk result (types.new ≡ types.old ++ statement_types classes.now functions.now scope.now at s.now) }
{
    let p = s.place;
    match &s.form {
        RawStmtForm::Return(e) => note_returned(
            alloc, classes, functions, scope, at, e, found, types,
        ),
        RawStmtForm::Assert(e) => note_condition(e, alloc, classes, functions, scope, found, types),
        RawStmtForm::Eval(e) => note_alone(e, alloc, classes, functions, scope, found, types),
        RawStmtForm::Declare(target, _, e) => {
            note_assignment(alloc, classes, functions, scope, target, e, found, types)
        }
        RawStmtForm::Assign(target, e) => {
            note_assignment(alloc, classes, functions, scope, target, e, found, types)
        }
        RawStmtForm::Augment(target, q, o, e) => {
            note_augmented(
                alloc, classes, functions, scope, target, *o, *q, e, found, types,
            )
        }
        RawStmtForm::If(e, body, elifs, other) => {
            note_condition(e, alloc, classes, functions, scope, found, types)?;
            note_block(body, alloc, classes, functions, scope, at, found, types)?;
            note_parts(elifs, alloc, classes, functions, scope, at, found, types)?;
            note_block(other, alloc, classes, functions, scope, at, found, types)
        }
        RawStmtForm::While(e, body) => {
            note_condition(e, alloc, classes, functions, scope, found, types)?;
            note_block(body, alloc, classes, functions, scope, at, found, types)
        }
        RawStmtForm::Try(body, handlers, other, last) => {
            note_block(body, alloc, classes, functions, scope, at, found, types)?;
            note_handlers(handlers, alloc, classes, functions, scope, at, found, types)?;
            note_block(other, alloc, classes, functions, scope, at, found, types)?;
            note_block(last, alloc, classes, functions, scope, at, found, types)
        }
        RawStmtForm::With(e, body) => {
            note_held(alloc, classes, functions, scope, e, found, types)?;
            note_block(body, alloc, classes, functions, scope, at, found, types)
        }
        _ => Ok(()),
    }
}

#[cycle(statements)]
fn note_block(
    body: &Items<RawStmt>,
    alloc: Global,
    classes: &Classes,
    functions: &[Signature],
    scope: &Scope,
    at: Position,
    found: &mut Items<Fault>,
    types: &mut Items<TypeAt>,
) -> Result<(), OutOfMemory>
    requires { length classes.now.list < 2 ^ 32 }
    ensures faults { OnOk result (found.new ≡ found.old ++ joined (map (statement_faults classes.now functions.now scope.now at) body.now)) }
    ensures types { OnOk result (types.new ≡ types.old ++ joined_types (map (statement_types classes.now functions.now scope.now at) body.now)) }
{
    'statements: for s in body.as_slice() {
        note_statement(s, alloc, classes, functions, scope, at, found, types)?;
    }
    Ok(())
}

#[cycle(statements)]
fn note_parts(
    parts: &Items<RawElif>,
    alloc: Global,
    classes: &Classes,
    functions: &[Signature],
    scope: &Scope,
    at: Position,
    found: &mut Items<Fault>,
    types: &mut Items<TypeAt>,
) -> Result<(), OutOfMemory>
    requires { length classes.now.list < 2 ^ 32 }
    ensures faults { OnOk result (found.new ≡ found.old ++ joined (map (part_faults classes.now functions.now scope.now at) parts.now)) }
    ensures types { OnOk result (types.new ≡ types.old ++ joined_types (map (part_types classes.now functions.now scope.now at) parts.now)) }
{
    'parts: for part in parts.as_slice() {
        note_condition(
            &part.condition,
            alloc,
            classes,
            functions,
            scope,
            found,
            types,
        )?;
        note_block(
            &part.body, alloc, classes, functions, scope, at, found, types,
        )?;
    }
    Ok(())
}

#[cycle(statements)]
fn note_handlers(
    handlers: &Items<RawHandler>,
    alloc: Global,
    classes: &Classes,
    functions: &[Signature],
    scope: &Scope,
    at: Position,
    found: &mut Items<Fault>,
    types: &mut Items<TypeAt>,
) -> Result<(), OutOfMemory>
    requires { length classes.now.list < 2 ^ 32 }
    ensures faults { OnOk result (found.new ≡ found.old ++ joined (map (handler_faults classes.now functions.now scope.now at) handlers.now)) }
    ensures types { OnOk result (types.new ≡ types.old ++ joined_types (map (handler_types classes.now functions.now scope.now at) handlers.now)) }
{
    'handlers: for handler in handlers.as_slice() {
        note_block(
            &handler.body,
            alloc,
            classes,
            functions,
            scope,
            at,
            found,
            types,
        )?;
    }
    Ok(())
}
