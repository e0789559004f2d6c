// The functions of a text, and the names of a method.
ghost use Rattle.std.specs.Prelude.{◌≡◌, ◌<◌, ◌≤◌, ◌+◌, ◌^◌, ◌++◌, length, map, IfOk, OnOk};
ghost use Rattle.type_names.specs.Signatures.{has_mark, function_sort, annotated, parameter_type, taking, signature, signatures_behind, signatures, own_type, parameter, parameters_scope};

use crate::signature::{FunctionSort, Scope, Signature, Variable};
use class_table::Classes;
use py_base::OutOfMemory;
use py_syntax::Ty;
use raw_syntax::{RawFunc, RawItem, RawParam, RawTy};
use sqlite_items::Items;
use std::alloc::Global;
use type_base::{result_of, ty_of};

fn has_mark(f: &RawFunc, word: &[u8]) -> bool
    ensures { result ≡ has_mark word.now f.now }
{
    f.marks.as_slice().iter().any(|mark| word == mark.bytes())
}

/// What a function is for, by its decorators.
pub fn function_sort(f: &RawFunc) -> FunctionSort
    ensures { result ≡ function_sort f.now }
{
    if has_mark(f, b"Predicate") {
        return FunctionSort::Predicate;
    }
    if has_mark(f, b"Pure") {
        return FunctionSort::Pure;
    }
    FunctionSort::Code
}

fn annotated(classes: &Classes, ty: &Option<RawTy>) -> Option<Ty>
    requires { length classes.now.list < 2 ^ 32 }
    ensures { result ≡ annotated classes.now ty.now }
{
    match ty {
        Some(written) => ty_of(classes, written),
        None => None,
    }
}

fn taking(owner: Option<u32>, parameters: &[RawParam]) -> &[RawParam]
    ensures { result.now ≡ taking owner parameters.now }
{
    match owner {
        Some(_) => match parameters {
            [] => parameters,
            [_, rest @ ..] => rest,
        },
        None => parameters,
    }
}

fn parameter_types(
    alloc: Global,
    classes: &Classes,
    parameters: &[RawParam],
) -> Result<Items<Option<Ty>>, OutOfMemory>
    requires { length classes.now.list < 2 ^ 32 }
    ensures { IfOk result (λ types. types ≡ map (parameter_type classes.now) parameters.now) }
{
    let mut types = Items::new(alloc);
    'parameters: for parameter in parameters {
        types.push(annotated(classes, &parameter.ty))?;
    }
    Ok(types)
}

fn signature(
    alloc: Global,
    classes: &Classes,
    owner: Option<u32>,
    f: &RawFunc,
) -> Result<Signature, OutOfMemory>
    requires { length classes.now.list < 2 ^ 32 }
    ensures { IfOk result (λ s. s ≡ signature classes.now owner f.now) }
{
    let parameters = parameter_types(alloc, classes, taking(owner, f.params.as_slice()))?;
    let name = f.name.copy(alloc)?;
    Ok(Signature {
        name,
        owner,
        sort: function_sort(f),
        parameters,
        result: result_of(classes, &f.ret),
    })
}

fn add_members(
    alloc: Global,
    all: &mut Items<Signature>,
    classes: &Classes,
    owner: u32,
    members: &[RawFunc],
) -> Result<(), OutOfMemory>
    requires { length classes.now.list < 2 ^ 32 }
    ensures { OnOk result (all.new ≡ all.old ++ map (signature classes.now (Some owner)) members.now) }
{
    'members: for member in members {
        all.push(signature(alloc, classes, Some(owner), member)?)?;
    }
    Ok(())
}

/// The functions and methods of a text by their numbers.
pub fn signatures(
    alloc: Global,
    classes: &Classes,
    items: &[RawItem],
) -> Result<Items<Signature>, OutOfMemory>
    requires classes { length classes.now.list < 2 ^ 32 }
    requires items { length items.now + 1 < 2 ^ 32 }
    ensures { IfOk result (λ all. all ≡ signatures classes.now items.now) }
{
    let mut all = Items::new(alloc);
    let mut number = 1u32;
    'items: for item in items {
        match item {
            RawItem::Class(class) => {
                add_members(alloc, &mut all, classes, number, class.members.as_slice())?;
                number += 1;
            }
            RawItem::Func(function) => all.push(signature(alloc, classes, None, function)?)?,
        }
    }
    Ok(all)
}

fn own_type(classes: &Classes, owner: Option<u32>, ty: &Option<RawTy>) -> Option<Ty>
    requires { length classes.now.list < 2 ^ 32 }
    ensures { result ≡ own_type classes.now owner ty.now }
{
    match ty {
        Some(written) => ty_of(classes, written),
        None => match owner {
            Some(class) => Some(Ty::Obj(class)),
            None => None,
        },
    }
}

fn parameter(
    alloc: Global,
    classes: &Classes,
    owner: Option<u32>,
    p: &RawParam,
) -> Result<Variable, OutOfMemory>
    requires { length classes.now.list < 2 ^ 32 }
    ensures { IfOk result (λ v. v ≡ parameter classes.now owner p.now) }
{
    let name = p.name.copy(alloc)?;
    Ok(Variable {
        name,
        ty: own_type(classes, owner, &p.ty),
    })
}

fn parameters(
    alloc: Global,
    classes: &Classes,
    owner: Option<u32>,
    params: &[RawParam],
) -> Result<Items<Variable>, OutOfMemory>
    requires { length classes.now.list < 2 ^ 32 }
    ensures { IfOk result (λ vs. vs ≡ map (parameter classes.now owner) params.now) }
{
    let mut all = Items::new(alloc);
    'params: for p in params {
        all.push(parameter(alloc, classes, owner, p)?)?;
    }
    Ok(all)
}

/// The parameters of a method of this class, or of a function.
pub fn parameters_scope(
    alloc: Global,
    classes: &Classes,
    owner: Option<u32>,
    f: &RawFunc,
) -> Result<Scope, OutOfMemory>
    requires { length classes.now.list < 2 ^ 32 }
    ensures { IfOk result (λ s. s ≡ parameters_scope classes.now owner f.now) }
{
    let variables = parameters(alloc, classes, owner, f.params.as_slice())?;
    Ok(Scope {
        variables,
        owner,
        result: result_of(classes, &f.ret),
    })
}
