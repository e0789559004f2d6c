// The form of `__init__`, and the fields that it makes.
ghost use Rattle.std.specs.Prelude.{◌≡◌, ◌<◌, ◌^◌, ◌++◌, [], length, drop, IfOk, OnOk};
ghost use Rattle.class_table.specs.Shapes.{shape, is_string, is_contract, calls_super_init, self_field};
ghost use Rattle.class_table.specs.Declaring.{statement_is, behind_docstring, behind_contracts, after_contracts, prefix_start, field_at, declared_field, assigned_field, field_of, is_declared, new_field, fields_behind, method_at, member_declares, class_declares, declared_behind, all_declared};

use crate::lists::split;
use crate::outline::{Declared, Heritage};
use crate::rows::{is_init, needs_super};
use crate::shape::{calls_super_init, is_contract, is_string, self_field};
use crate::values::{is_free, is_plain, type_of, value_type};
use name_table::Names;
use py_base::{OutOfMemory, Place, Text};
use py_syntax::Ty;
use raw_syntax::{RawClass, RawExpr, RawFunc, RawItem, RawParam, RawStmt, RawStmtForm, RawTy};
use sqlite_items::Items;
use std::alloc::Global;

fn is_docstring(s: &RawStmt) -> bool
    ensures { result ≡ statement_is is_string s.now }
{
    match &s.form {
        RawStmtForm::Eval(e) => is_string(e),
        _ => false,
    }
}

fn is_contract_statement(s: &RawStmt) -> bool
    ensures { result ≡ statement_is is_contract s.now }
{
    match &s.form {
        RawStmtForm::Eval(e) => is_contract(e),
        _ => false,
    }
}

/// Whether the statement calls the `__init__` of the base.
pub fn is_super_statement(s: &RawStmt) -> bool
    ensures { result ≡ statement_is calls_super_init s.now }
{
    match &s.form {
        RawStmtForm::Eval(e) => calls_super_init(e),
        _ => false,
    }
}

fn behind_docstring(body: &[RawStmt]) -> &[RawStmt]
    ensures { result.now ≡ behind_docstring body.now }
{
    match split(body) {
        Some((first, rest)) => {
            if is_docstring(first) {
                return rest;
            }
            body
        }
        None => body,
    }
}

fn behind_contracts(body: &[RawStmt]) -> &[RawStmt]
    ensures { result.now ≡ behind_contracts body.now }
{
    let mut left = body;
    'contracts: while let Some((first, rest)) = split(left) {
        if !is_contract_statement(first) {
            return left;
        }
        left = rest;
    }
    left
}

/// What stands behind the docstring and the contracts of a method.
pub fn after_contracts(body: &[RawStmt]) -> &[RawStmt]
    ensures { result.now ≡ after_contracts body.now }
{
    behind_contracts(behind_docstring(body))
}

fn behind_first(body: &[RawStmt]) -> &[RawStmt]
    ensures { result.now ≡ drop 1 body.now }
{
    match split(body) {
        Some((_, rest)) => rest,
        None => body,
    }
}

// Where the assignments of `__init__` begin.
fn prefix_start(needed: bool, body: &[RawStmt]) -> &[RawStmt]
    ensures { result.now ≡ prefix_start needed body.now }
{
    let rest = after_contracts(body);
    if needed {
        return behind_first(rest);
    }
    rest
}

fn field_at(alloc: Global, ty: Ty, target: &RawExpr) -> Result<Option<Declared>, OutOfMemory>
    ensures { IfOk result (λ d. d ≡ field_at ty (self_field (shape target.now))) }
{
    match self_field(target) {
        Some((place, name)) => Ok(Some(Declared {
            place,
            name: Text::of(name.to_vec(alloc)?),
            field: Some(ty),
        })),
        None => Ok(None),
    }
}

fn declared_field(
    alloc: Global,
    names: &Names,
    rows: &[Heritage],
    target: &RawExpr,
    ty: &RawTy,
    value: &RawExpr,
) -> Result<Option<Declared>, OutOfMemory>
    requires { length names.now < 2 ^ 32 }
    ensures { IfOk result (λ d. d ≡ declared_field names.now rows.now target.now ty.now value.now) }
{
    if is_free(value) {
        return field_at(alloc, type_of(names, rows, ty), target);
    }
    Ok(None)
}

fn assigned_field(
    alloc: Global,
    names: &Names,
    rows: &[Heritage],
    params: &[RawParam],
    target: &RawExpr,
    value: &RawExpr,
) -> Result<Option<Declared>, OutOfMemory>
    requires { length names.now < 2 ^ 32 }
    ensures { IfOk result (λ d. d ≡ assigned_field names.now rows.now params.now target.now value.now) }
{
    if is_plain(value, params) {
        return field_at(alloc, value_type(value, names, rows, params), target);
    }
    Ok(None)
}

// The field that a statement makes.
fn field_of(
    alloc: Global,
    names: &Names,
    rows: &[Heritage],
    params: &[RawParam],
    s: &RawStmt,
) -> Result<Option<Declared>, OutOfMemory>
    requires { length names.now < 2 ^ 32 }
    ensures { IfOk result (λ d. d ≡ field_of names.now rows.now params.now s.now) }
{
    match &s.form {
        RawStmtForm::Declare(target, ty, value) => {
            declared_field(alloc, names, rows, target, ty, value)
        }
        RawStmtForm::Assign(target, value) => {
            assigned_field(alloc, names, rows, params, target, value)
        }
        _ => Ok(None),
    }
}

/// Whether the name is among those that are declared.
pub fn is_declared(name: &[u8], declared: &[Declared]) -> bool
    ensures { result ≡ is_declared name.now declared.now }
{
    declared.iter().any(|d| name == d.name.bytes())
}

fn new_field(before: &[Declared], field: Option<Declared>) -> Option<Declared>
    ensures { result ≡ new_field before.now field }
{
    let d = field?;
    if is_declared(d.name.bytes(), before) {
        return None;
    }
    Some(d)
}

// The fields that the longest run of such assignments makes.
fn fields_of(
    alloc: Global,
    names: &Names,
    rows: &[Heritage],
    params: &[RawParam],
    body: &[RawStmt],
) -> Result<Items<Declared>, OutOfMemory>
    requires { length names.now < 2 ^ 32 }
    ensures { IfOk result (λ ds. ds ≡ fields_behind names.now rows.now params.now [] body.now) }
{
    let mut fields = Items::new(alloc);
    'statements: for s in body {
        let made = field_of(alloc, names, rows, params, s)?;
        match new_field(fields.as_slice(), made) {
            Some(d) => fields.push(d)?,
            None => return Ok(fields),
        }
    }
    Ok(fields)
}

fn method_at(alloc: Global, method: &RawFunc) -> Result<Declared, OutOfMemory>
    ensures { IfOk result (λ d. d ≡ method_at method.now) }
{
    Ok(Declared {
        place: method.place,
        name: method.name.copy(alloc)?,
        field: None,
    })
}

// Adds a method, and the fields that it makes.
fn add_member(
    alloc: Global,
    names: &Names,
    rows: &[Heritage],
    needed: bool,
    declared: &mut Items<Declared>,
    method: &RawFunc,
) -> Result<(), OutOfMemory>
    requires { length names.now < 2 ^ 32 }
    ensures { OnOk result (declared.new ≡ declared.old ++ member_declares names.now rows.now needed method.now) }
{
    declared.push(method_at(alloc, method)?)?;
    if is_init(method) {
        let body = prefix_start(needed, method.body.as_slice());
        declared.append(fields_of(alloc, names, rows, method.params.as_slice(), body)?)?;
    }
    Ok(())
}

fn class_declares(
    alloc: Global,
    names: &Names,
    rows: &[Heritage],
    number: usize,
    class: &RawClass,
) -> Result<Items<Declared>, OutOfMemory>
    requires { length names.now < 2 ^ 32 }
    ensures { IfOk result (λ ds. ds ≡ class_declares names.now rows.now number class.now) }
{
    let needed = needs_super(rows, number);
    let mut declared = Items::new(alloc);
    'members: for method in class.members.as_slice() {
        add_member(alloc, names, rows, needed, &mut declared, method)?;
    }
    Ok(declared)
}

/// What each class declares, by its number.
pub fn all_declared(
    alloc: Global,
    names: &Names,
    rows: &[Heritage],
    items: &[RawItem],
) -> Result<Items<Items<Declared>>, OutOfMemory>
    requires { length names.now < 2 ^ 32 }
    ensures { IfOk result (λ all. all ≡ all_declared names.now rows.now items.now) }
{
    let mut declared = Items::new(alloc);
    declared.push(Items::new(alloc))?;
    'items: for item in items {
        match item {
            RawItem::Class(class) => {
                let own = class_declares(alloc, names, rows, declared.len(), class)?;
                declared.push(own)?;
            }
            RawItem::Func(_) => {}
        }
    }
    Ok(declared)
}
