// The types of annotations, and what the values of the first assignments of `__init__` may be.
ghost use Rattle.std.specs.Prelude.{◌≡◌, ◌<◌, ◌^◌, ◌&&◌, not, map, length, codes, bytes_eq, find, option_copied};
ghost use Rattle.raw_syntax.specs.declared.RawParam.{RawParam};
ghost use Rattle.class_table.specs.Values.{object_type, optional_type, type_named, type_within, type_of, is_parameter, parameter_type, every, is_free, link_is_free, is_plain, link_is_plain, result_of, value_type};

use crate::outline::Heritage;
use crate::rows::object_class;
use name_table::Names;
use py_syntax::Ty;
use raw_syntax::{Arithmetic, RawComparison, RawExpr, RawExprForm, RawParam, RawTy};
use sqlite_items::Items;

fn object_type(class: Option<u32>) -> Ty
    ensures { result ≡ object_type class }
{
    match class {
        Some(k) => Ty::Obj(k),
        None => Ty::Void,
    }
}

fn optional_type(class: Option<u32>) -> Ty
    ensures { result ≡ optional_type class }
{
    match class {
        Some(k) => Ty::Opt(k),
        None => Ty::Void,
    }
}

fn type_named(names: &Names, rows: &[Heritage], name: &[u8]) -> Ty
    requires { length names.now < 2 ^ 32 }
    ensures { result ≡ type_named names.now rows.now name.now }
{
    if name == b"int".as_slice() {
        return Ty::Int;
    }
    if name == b"bool".as_slice() {
        return Ty::Bool;
    }
    if name == b"Thread".as_slice() {
        return Ty::Thr;
    }
    object_type(object_class(names, rows, name))
}

fn type_within(names: &Names, rows: &[Heritage], name: &[u8], inner: &[u8]) -> Ty
    requires { length names.now < 2 ^ 32 }
    ensures { result ≡ type_within names.now rows.now name.now inner.now }
{
    if name != b"Optional".as_slice() {
        return Ty::Void;
    }
    optional_type(object_class(names, rows, inner))
}

/// What an annotation means, and `Void` where it is no type of a value.
pub fn type_of(names: &Names, rows: &[Heritage], ty: &RawTy) -> Ty
    requires { length names.now < 2 ^ 32 }
    ensures { result ≡ type_of names.now rows.now ty.now }
{
    match &ty.inner {
        Some(inner) => type_within(names, rows, ty.head.bytes(), inner.bytes()),
        None => type_named(names, rows, ty.head.bytes()),
    }
}

fn is_parameter(params: &[RawParam], name: &[u8]) -> bool
    ensures { result ≡ is_parameter params.now name.now }
{
    params.iter().any(|param| name == param.name.bytes())
}

fn find_parameter<'a>(params: &'a [RawParam], name: &[u8]) -> Option<&'a RawParam>
    ensures { option_copied result ≡ find (λ (p : RawParam). bytes_eq name.now p.name) params.now }
{
    params.iter().find(|param| name == param.name.bytes())
}

fn parameter_type(names: &Names, rows: &[Heritage], params: &[RawParam], name: &[u8]) -> Ty
    requires { length names.now < 2 ^ 32 }
    ensures { result ≡ parameter_type names.now rows.now params.now name.now }
{
    let Some(param) = find_parameter(params, name) else {
        return Ty::Void;
    };
    match &param.ty {
        Some(ty) => type_of(names, rows, ty),
        None => Ty::Void,
    }
}

/// Whether no call stands within, and no `self`.
#[cycle(free)]
pub fn is_free(e: &RawExpr) -> bool
    ensures { result ≡ is_free e.now }
{
    match &e.form {
        RawExprForm::Name(name) => name.bytes() != b"self".as_slice(),
        RawExprForm::Call(_, _) => false,
        RawExprForm::Bracket(inner)
        | RawExprForm::Negate(inner)
        | RawExprForm::Not(inner)
        | RawExprForm::Field(inner, _) => is_free(inner.get()),
        RawExprForm::Binary(_, a, b) | RawExprForm::And(a, b) | RawExprForm::Or(a, b) => {
            is_free(a.get()) && is_free(b.get())
        }
        RawExprForm::Tuple(parts) => are_free(parts),
        RawExprForm::Chain(first, links) => is_free(first.get()) && are_links_free(links),
        _ => true,
    }
}

#[cycle(free)]
fn are_free(parts: &Items<RawExpr>) -> bool
    ensures { result ≡ every (map is_free parts.now) }
{
    'parts: for part in parts.as_slice() {
        if !is_free(part) {
            return false;
        }
    }
    true
}

#[cycle(free)]
fn are_links_free(links: &Items<RawComparison>) -> bool
    ensures { result ≡ every (map link_is_free links.now) }
{
    'links: for link in links.as_slice() {
        if !is_free(&link.operand) {
            return false;
        }
    }
    true
}

fn is_own_parameter(params: &[RawParam], name: &[u8]) -> bool
    ensures { result ≡ (not (bytes_eq name.now (codes "self")) && is_parameter params.now name.now) }
{
    name != b"self".as_slice() && is_parameter(params, name)
}

/// Whether the expression is made of number and truth literals, parameters but `self`, and operators.
#[cycle(plain)]
pub fn is_plain(e: &RawExpr, params: &[RawParam]) -> bool
    ensures { result ≡ is_plain params.now e.now }
{
    match &e.form {
        RawExprForm::Number(_) | RawExprForm::Truth(_) => true,
        RawExprForm::Name(name) => is_own_parameter(params, name.bytes()),
        RawExprForm::Bracket(inner) | RawExprForm::Negate(inner) | RawExprForm::Not(inner) => {
            is_plain(inner.get(), params)
        }
        RawExprForm::Binary(_, a, b) | RawExprForm::And(a, b) | RawExprForm::Or(a, b) => {
            is_plain(a.get(), params) && is_plain(b.get(), params)
        }
        RawExprForm::Chain(first, links) => {
            is_plain(first.get(), params) && are_links_plain(links, params)
        }
        _ => false,
    }
}

#[cycle(plain)]
fn are_links_plain(links: &Items<RawComparison>, params: &[RawParam]) -> bool
    ensures { result ≡ every (map (link_is_plain params.now) links.now) }
{
    'links: for link in links.as_slice() {
        if !is_plain(&link.operand, params) {
            return false;
        }
    }
    true
}

fn result_of(operator: Arithmetic) -> Ty
    ensures { result ≡ result_of operator }
{
    match operator {
        Arithmetic::Divide => Ty::Void,
        _ => Ty::Int,
    }
}

/// The type of a value that is made of literals, parameters and operators.
pub fn value_type(e: &RawExpr, names: &Names, rows: &[Heritage], params: &[RawParam]) -> Ty
    requires { length names.now < 2 ^ 32 }
    ensures { result ≡ value_type names.now rows.now params.now e.now }
{
    match &e.form {
        RawExprForm::Number(_) | RawExprForm::Negate(_) => Ty::Int,
        RawExprForm::Name(name) => parameter_type(names, rows, params, name.bytes()),
        RawExprForm::Bracket(inner) => value_type(inner.get(), names, rows, params),
        RawExprForm::Binary(operator, _, _) => result_of(*operator),
        RawExprForm::Truth(_)
        | RawExprForm::Chain(_, _)
        | RawExprForm::Not(_)
        | RawExprForm::And(_, _)
        | RawExprForm::Or(_, _) => Ty::Bool,
        _ => Ty::Void,
    }
}
