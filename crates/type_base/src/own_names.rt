// The names of a method.
ghost use Rattle.std.specs.Prelude.{◌≡◌, ◌<◌, ◌^◌, ◌++◌, [], length, find, map, option_copied, IfOk, OnOk};
ghost use Rattle.class_table.specs.Shapes.{shape};
ghost use Rattle.type_base.specs.Locals.{parameter_is_called, is_parameter, self_type, type_of_parameter, parameter_type, target_name, names_of, assigned_names, part_names, handler_names, is_listed, with_local, locals_behind, locals, is_own_name};

use crate::written::ty_of;
use class_table::Classes;
use py_base::{OutOfMemory, Text};
use py_syntax::Ty;
use raw_syntax::{
    RawElif, RawExpr, RawExprForm, RawFunc, RawHandler, RawParam, RawStmt, RawStmtForm,
};
use sqlite_items::Items;
use std::alloc::Global;

/// Whether the name is that of a parameter.
pub fn is_parameter(params: &[RawParam], name: &[u8]) -> bool
    ensures { result ≡ is_parameter params.now name.now }
{
    params.iter().any(|param| name == param.name.bytes())
}

fn find_parameter<'a>(params: &'a [RawParam], name: &[u8]) -> Option<&'a RawParam>
    ensures { option_copied result ≡ find (parameter_is_called name.now) params.now }
{
    params.iter().find(|param| name == param.name.bytes())
}

fn self_type(owner: Option<u32>, name: &[u8]) -> Option<Ty>
    ensures { result ≡ self_type owner name.now }
{
    if name != b"self".as_slice() {
        return None;
    }
    match owner {
        Some(class) => Some(Ty::Obj(class)),
        None => None,
    }
}

/// The type of a parameter of a method of this class, if any, or of a function.
pub fn type_of_parameter(classes: &Classes, owner: Option<u32>, param: &RawParam) -> Option<Ty>
    requires { length classes.now.list < 2 ^ 32 }
    ensures { result ≡ type_of_parameter classes.now owner param.now }
{
    match &param.ty {
        Some(ty) => ty_of(classes, ty),
        None => self_type(owner, param.name.bytes()),
    }
}

/// The type of the first parameter of this name.
pub fn parameter_type(
    classes: &Classes,
    owner: Option<u32>,
    params: &[RawParam],
    name: &[u8],
) -> Option<Ty>
    requires { length classes.now.list < 2 ^ 32 }
    ensures { result ≡ parameter_type classes.now owner params.now name.now }
{
    match find_parameter(params, name) {
        Some(param) => type_of_parameter(classes, owner, param),
        None => None,
    }
}

fn add_target(target: &RawExpr, alloc: Global, names: &mut Items<Text>) -> Result<(), OutOfMemory>
    ensures { OnOk result (names.new ≡ names.old ++ target_name (shape target.now)) }
{
    match &target.form {
        RawExprForm::Bracket(inner) => add_target(inner.get(), alloc, names),
        RawExprForm::Name(name) => {
            names.push(name.copy(alloc)?)?;
            Ok(())
        }
        _ => Ok(()),
    }
}

#[cycle(assigned)]
fn add_assigned(s: &RawStmt, alloc: Global, names: &mut Items<Text>) -> Result<(), OutOfMemory>
    ensures { OnOk result (names.new ≡ names.old ++ assigned_names s.now) }
{
    match &s.form {
        RawStmtForm::Declare(target, _, _)
        | RawStmtForm::Assign(target, _)
        | RawStmtForm::Augment(target, _, _, _) => add_target(target, alloc, names)?,
        RawStmtForm::If(_, body, parts, other) => {
            add_block(body, alloc, names)?;
            add_parts(parts, alloc, names)?;
            add_block(other, alloc, names)?;
        }
        RawStmtForm::While(_, body) | RawStmtForm::With(_, body) => add_block(body, alloc, names)?,
        RawStmtForm::Try(body, handlers, other, last) => {
            add_block(body, alloc, names)?;
            add_handlers(handlers, alloc, names)?;
            add_block(other, alloc, names)?;
            add_block(last, alloc, names)?;
        }
        _ => {}
    }
    Ok(())
}

#[cycle(assigned)]
fn add_block(ss: &Items<RawStmt>, alloc: Global, names: &mut Items<Text>) -> Result<(), OutOfMemory>
    ensures { OnOk result (names.new ≡ names.old ++ names_of (map assigned_names ss.now)) }
{
    'statements: for s in ss.as_slice() {
        add_assigned(s, alloc, names)?;
    }
    Ok(())
}

#[cycle(assigned)]
fn add_parts(
    parts: &Items<RawElif>,
    alloc: Global,
    names: &mut Items<Text>,
) -> Result<(), OutOfMemory>
    ensures { OnOk result (names.new ≡ names.old ++ names_of (map part_names parts.now)) }
{
    'parts: for part in parts.as_slice() {
        add_block(&part.body, alloc, names)?;
    }
    Ok(())
}

#[cycle(assigned)]
fn add_handlers(
    handlers: &Items<RawHandler>,
    alloc: Global,
    names: &mut Items<Text>,
) -> Result<(), OutOfMemory>
    ensures { OnOk result (names.new ≡ names.old ++ names_of (map handler_names handlers.now)) }
{
    'handlers: for handler in handlers.as_slice() {
        add_block(&handler.body, alloc, names)?;
    }
    Ok(())
}

fn is_listed(names: &[Text], name: &[u8]) -> bool
    ensures { result ≡ is_listed names.now name.now }
{
    names.iter().any(|known| name == known.bytes())
}

/// Whether the name is a parameter or one of these locals of a method.
pub fn is_own_name(params: &[RawParam], names: &[Text], name: &[u8]) -> bool
    ensures { result ≡ is_own_name params.now names.now name.now }
{
    is_parameter(params, name) || is_listed(names, name)
}

fn add_local(
    alloc: Global,
    params: &[RawParam],
    names: &mut Items<Text>,
    name: &[u8],
) -> Result<(), OutOfMemory>
    ensures { OnOk result (names.new ≡ with_local params.now names.old name.now) }
{
    if is_own_name(params, names.as_slice(), name) {
        return Ok(());
    }
    names.push(Text::of(name.to_vec(alloc)?))?;
    Ok(())
}

fn distinct(
    alloc: Global,
    params: &[RawParam],
    assigned: &[Text],
) -> Result<Items<Text>, OutOfMemory>
    ensures { IfOk result (λ names. names ≡ locals_behind params.now [] assigned.now) }
{
    let mut names = Items::new(alloc);
    'assigned: for name in assigned {
        add_local(alloc, params, &mut names, name.bytes())?;
    }
    Ok(names)
}

/// The locals of a method, in the order of their first assignment in the text.
pub fn locals(alloc: Global, function: &RawFunc) -> Result<Items<Text>, OutOfMemory>
    ensures { IfOk result (λ names. names ≡ locals function.now) }
{
    let mut assigned = Items::new(alloc);
    add_block(&function.body, alloc, &mut assigned)?;
    distinct(alloc, function.params.as_slice(), assigned.as_slice())
}
