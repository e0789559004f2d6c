// Overriding.
ghost use Rattle.std.specs.Prelude.{◌≡◌, ◌<◌, ◌^◌, ◌++◌, Some, length, OnOk};
ghost use Rattle.class_table.specs.Bases.{is_init};
ghost use Rattle.type_forms.specs.Signatures.{type_sort, type_class, same_type, same_if_any, written_type, is_no_parameter, same_parameters, overrides_well, override_fault, override_faults};

use crate::head::behind_first;
use class_table::Classes;
use py_base::OutOfMemory;
use py_syntax::Ty;
use raw_syntax::{RawFunc, RawItem, RawParam};
use sqlite_items::Items;
use type_base::{Fault, Rank, method_above, note_if, result_of, ty_of};
use type_ways::split;

fn type_sort(ty: Ty) -> u8
    ensures { result ≡ type_sort ty }
{
    match ty {
        Ty::Int => 0,
        Ty::Bool => 1,
        Ty::Void => 2,
        Ty::Obj(_) => 3,
        Ty::Opt(_) => 4,
        Ty::Thr => 5,
    }
}

fn type_class(ty: Ty) -> u32
    ensures { result ≡ type_class ty }
{
    match ty {
        Ty::Obj(class) => class,
        Ty::Opt(class) => class,
        _ => 0,
    }
}

fn same_type(one: Ty, other: Ty) -> bool
    ensures { result ≡ same_type one other }
{
    type_sort(one) == type_sort(other) && type_class(one) == type_class(other)
}

fn same_if_any(one: Option<Ty>, other: Option<Ty>) -> bool
    ensures { result ≡ same_if_any one other }
{
    match one {
        None => match other {
            None => true,
            Some(_) => false,
        },
        Some(a) => match other {
            None => false,
            Some(b) => same_type(a, b),
        },
    }
}

/// The type that a parameter has where it is written.
pub fn written_type(classes: &Classes, param: &RawParam) -> Option<Ty>
    requires { length classes.now.list < 2 ^ 32 }
    ensures { result ≡ written_type classes.now param.now }
{
    match &param.ty {
        Some(ty) => ty_of(classes, ty),
        None => None,
    }
}

fn is_empty(params: &[RawParam]) -> bool
    ensures { result ≡ is_no_parameter params.now }
{
    match split(params) {
        None => true,
        Some(_) => false,
    }
}

fn same_parameters(classes: &Classes, params: &[RawParam], others: &[RawParam]) -> bool
    requires { length classes.now.list < 2 ^ 32 }
    ensures { result ≡ same_parameters classes.now params.now others.now }
{
    let mut left = params;
    let mut right = others;
    'params: while let Some((p, ps)) = split(left) {
        let Some((q, qs)) = split(right) else {
            return false;
        };
        if !same_if_any(written_type(classes, p), written_type(classes, q)) {
            return false;
        }
        left = ps;
        right = qs;
    }
    is_empty(right)
}

fn overrides_well(classes: &Classes, function: &RawFunc, other: &RawFunc) -> bool
    requires { length classes.now.list < 2 ^ 32 }
    ensures { result ≡ overrides_well classes.now function.now other.now }
{
    let params = behind_first(function.params.as_slice());
    let others = behind_first(other.params.as_slice());
    same_parameters(classes, params, others)
        && same_if_any(
            result_of(classes, &function.ret),
            result_of(classes, &other.ret),
        )
}

/// Whether the method is named `__init__`.
pub fn is_init(function: &RawFunc) -> bool
    ensures { result ≡ is_init function.now }
{
    function.name.bytes() == b"__init__".as_slice()
}

fn note_pair(
    found: &mut Items<Fault>,
    classes: &Classes,
    function: &RawFunc,
    other: &RawFunc,
) -> Result<(), OutOfMemory>
    requires { length classes.now.list < 2 ^ 32 }
    ensures { OnOk result (found.new ≡ found.old ++ override_fault classes.now function.now (Some other.now)) }
{
    let well = overrides_well(classes, function, other);
    note_if(found, !well, function.place, Rank::Mistyped(20))
}

/// Adds the fault of a method that overrides another with other types.
pub fn note_override(
    found: &mut Items<Fault>,
    classes: &Classes,
    items: &[RawItem],
    owner: Option<u32>,
    function: &RawFunc,
) -> Result<(), OutOfMemory>
    requires { length classes.now.list < 2 ^ 32 }
    ensures { OnOk result (found.new ≡ found.old ++ override_faults classes.now items.now owner function.now) }
{
    let Some(class) = owner else {
        return Ok(());
    };
    if is_init(function) {
        return Ok(());
    }
    match method_above(classes, items, class as usize, function.name.bytes()) {
        Some(other) => note_pair(found, classes, function, other),
        None => Ok(()),
    }
}
