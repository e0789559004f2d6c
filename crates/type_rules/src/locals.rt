// The locals of a method, with their types.
ghost use Rattle.std.specs.Prelude.{◌≡◌, ◌<◌, ◌^◌, length, map, option_map, Some, OnOk, IfOk};
ghost use Rattle.class_table.specs.Shapes.{shape};
ghost use Rattle.type_rules.specs.Scopes.{with_variable, name_in, with_named, with_target, in_turn, assigned_type, locals_of, part_locals, handler_locals, scope_of};

use class_table::Classes;
use py_base::{OutOfMemory, Text};
use py_syntax::Ty;
use raw_syntax::{RawElif, RawExpr, RawExprForm, RawFunc, RawHandler, RawStmt, RawStmtForm};
use sqlite_items::Items;
use std::alloc::Global;
use type_base::ty_of;
use type_names::{Position, Scope, Signature, Variable, is_hidden, parameters_scope};
use type_terms::{type_expr, value_type};

fn with_variable(
    alloc: Global,
    scope: &mut Scope,
    word: &[u8],
    ty: Option<Ty>,
) -> Result<(), OutOfMemory>
    ensures { OnOk result (scope.new ≡ with_variable scope.old word.now ty) }
{
    if is_hidden(scope, word) {
        return Ok(());
    }
    let name = Text::of(word.to_vec(alloc)?);
    scope.variables.push(Variable { name, ty })?;
    Ok(())
}

fn name_in(e: &RawExpr) -> Option<&[u8]>
    ensures { option_map (λ word. word.now) result ≡ name_in (shape e.now) }
{
    match &e.form {
        RawExprForm::Bracket(inner) => name_in(inner.get()),
        RawExprForm::Name(name) => Some(name.bytes()),
        _ => None,
    }
}

fn with_target(
    alloc: Global,
    scope: &mut Scope,
    target: &RawExpr,
    ty: Option<Ty>,
) -> Result<(), OutOfMemory>
    ensures { OnOk result (scope.new ≡ with_target scope.old target.now ty) }
{
    match name_in(target) {
        Some(word) => with_variable(alloc, scope, word, ty),
        None => Ok(()),
    }
}

fn assigned_type(
    alloc: Global,
    classes: &Classes,
    functions: &[Signature],
    scope: &Scope,
    e: &RawExpr,
) -> Result<Option<Ty>, OutOfMemory>
    requires { length classes.now.list < 2 ^ 32 }
    ensures { IfOk result (λ ty. ty ≡ assigned_type classes.now functions.now scope.now e.now) }
{
    let mut faults = Items::new(alloc);
    let mut types = Items::new(alloc);
    let worth = type_expr(
        e,
        alloc,
        classes,
        functions,
        scope,
        Position::Value,
        &mut faults,
        &mut types,
    )?;
    Ok(value_type(worth.ty))
}

fn add_assigned(
    alloc: Global,
    classes: &Classes,
    functions: &[Signature],
    scope: &mut Scope,
    target: &RawExpr,
    e: &RawExpr,
) -> Result<(), OutOfMemory>
    requires { length classes.now.list < 2 ^ 32 }
    ensures { OnOk result (scope.new ≡ with_target scope.old target.now (assigned_type classes.now functions.now scope.old e.now)) }
{
    let ty = assigned_type(alloc, classes, functions, scope, e)?;
    with_target(alloc, scope, target, ty)
}

#[cycle(locals)]
fn add_locals(
    s: &RawStmt,
    alloc: Global,
    classes: &Classes,
    functions: &[Signature],
    scope: &mut Scope,
) -> Result<(), OutOfMemory>
    requires { length classes.now.list < 2 ^ 32 }
    ensures { OnOk result (scope.new ≡ locals_of classes.now functions.now s.now scope.old) }
{
    match &s.form {
        RawStmtForm::Declare(target, ty, _) => {
            with_target(alloc, scope, target, ty_of(classes, ty))
        }
        RawStmtForm::Assign(target, e) => {
            add_assigned(alloc, classes, functions, scope, target, e)
        }
        RawStmtForm::Augment(target, _, _, _) => {
            with_target(alloc, scope, target, Some(Ty::Int))
        }
        RawStmtForm::If(_, body, elifs, other) => {
            add_block(body, alloc, classes, functions, scope)?;
            add_parts(elifs, alloc, classes, functions, scope)?;
            add_block(other, alloc, classes, functions, scope)
        }
        RawStmtForm::While(_, body) => add_block(body, alloc, classes, functions, scope),
        RawStmtForm::Try(body, handlers, other, last) => {
            add_block(body, alloc, classes, functions, scope)?;
            add_handlers(handlers, alloc, classes, functions, scope)?;
            add_block(other, alloc, classes, functions, scope)?;
            add_block(last, alloc, classes, functions, scope)
        }
        RawStmtForm::With(_, body) => add_block(body, alloc, classes, functions, scope),
        _ => Ok(()),
    }
}

#[cycle(locals)]
fn add_block(
    body: &Items<RawStmt>,
    alloc: Global,
    classes: &Classes,
    functions: &[Signature],
    scope: &mut Scope,
) -> Result<(), OutOfMemory>
    requires { length classes.now.list < 2 ^ 32 }
    ensures { OnOk result (scope.new ≡ in_turn (map (locals_of classes.now functions.now) body.now) scope.old) }
{
    'statements: for s in body.as_slice() {
        add_locals(s, alloc, classes, functions, scope)?;
    }
    Ok(())
}

#[cycle(locals)]
fn add_parts(
    parts: &Items<RawElif>,
    alloc: Global,
    classes: &Classes,
    functions: &[Signature],
    scope: &mut Scope,
) -> Result<(), OutOfMemory>
    requires { length classes.now.list < 2 ^ 32 }
    ensures { OnOk result (scope.new ≡ in_turn (map (part_locals classes.now functions.now) parts.now) scope.old) }
{
    'parts: for part in parts.as_slice() {
        add_block(&part.body, alloc, classes, functions, scope)?;
    }
    Ok(())
}

#[cycle(locals)]
fn add_handlers(
    handlers: &Items<RawHandler>,
    alloc: Global,
    classes: &Classes,
    functions: &[Signature],
    scope: &mut Scope,
) -> Result<(), OutOfMemory>
    requires { length classes.now.list < 2 ^ 32 }
    ensures { OnOk result (scope.new ≡ in_turn (map (handler_locals classes.now functions.now) handlers.now) scope.old) }
{
    'handlers: for handler in handlers.as_slice() {
        add_block(&handler.body, alloc, classes, functions, scope)?;
    }
    Ok(())
}

/// The names of a method of this class, or of a function.
pub fn scope_of(
    alloc: Global,
    classes: &Classes,
    functions: &[Signature],
    owner: Option<u32>,
    f: &RawFunc,
) -> Result<Scope, OutOfMemory>
    requires { length classes.now.list < 2 ^ 32 }
    ensures { IfOk result (λ s. s ≡ scope_of classes.now functions.now owner f.now) }
{
    let mut scope = parameters_scope(alloc, classes, owner, f)?;
    add_block(&f.body, alloc, classes, functions, &mut scope)?;
    Ok(scope)
}
