// The heads of functions.
ghost use Rattle.std.specs.Prelude.{◌≡◌, ◌<◌, ◌≤◌, ◌^◌, ◌++◌, ◌&&◌, [], length, take, drop, flat_map, is_none, is_some, codes, bytes_eq, OnOk};
ghost use Rattle.type_base.specs.Types.{ty_of, result_of};
ghost use Rattle.type_forms.specs.Signatures.{annotation_fault, annotation_faults, parameter_type_fault, result_fault, type_faults, is_bare_self, first_fault, untyped_fault, repeated_fault, repeated_faults, parameter_faults, head_faults};

use crate::mark::note_marks;
use crate::over::note_override;
use class_table::Classes;
use py_base::{OutOfMemory, Place};
use raw_syntax::{RawFunc, RawItem, RawParam, RawTy};
use sqlite_items::Items;
use type_base::{Fault, Rank, is_parameter, note_if, result_of, ty_of};
use type_ways::split;

/// Adds the fault of an annotation that is no type.
pub fn note_annotation(
    found: &mut Items<Fault>,
    classes: &Classes,
    ty: &RawTy,
) -> Result<(), OutOfMemory>
    requires { length classes.now.list < 2 ^ 32 }
    ensures { OnOk result (found.new ≡ found.old ++ annotation_fault classes.now ty.now) }
{
    let unknown = ty_of(classes, ty).is_none();
    note_if(found, unknown, ty.place, Rank::Mistyped(1))
}

fn note_parameter_type(
    found: &mut Items<Fault>,
    classes: &Classes,
    param: &RawParam,
) -> Result<(), OutOfMemory>
    requires { length classes.now.list < 2 ^ 32 }
    ensures { OnOk result (found.new ≡ found.old ++ parameter_type_fault classes.now param.now) }
{
    match &param.ty {
        Some(ty) => note_annotation(found, classes, ty),
        None => Ok(()),
    }
}

fn note_parameter_types(
    found: &mut Items<Fault>,
    classes: &Classes,
    params: &[RawParam],
) -> Result<(), OutOfMemory>
    requires { length classes.now.list < 2 ^ 32 }
    ensures { OnOk result (found.new ≡ found.old ++ flat_map (parameter_type_fault classes.now) params.now) }
{
    'params: for param in params {
        note_parameter_type(found, classes, param)?;
    }
    Ok(())
}

fn note_result(found: &mut Items<Fault>, classes: &Classes, ty: &RawTy) -> Result<(), OutOfMemory>
    requires { length classes.now.list < 2 ^ 32 }
    ensures { OnOk result (found.new ≡ found.old ++ result_fault classes.now ty.now) }
{
    let unknown = result_of(classes, ty).is_none();
    note_if(found, unknown, ty.place, Rank::Mistyped(1))
}

fn is_untyped(param: &RawParam) -> bool
    ensures { result ≡ is_none param.now.ty }
{
    match param.ty {
        None => true,
        Some(_) => false,
    }
}

fn is_bare_self(param: &RawParam) -> bool
    ensures { result ≡ is_bare_self param.now }
{
    param.name.bytes() == b"self".as_slice() && is_untyped(param)
}

fn note_first(
    found: &mut Items<Fault>,
    place: Place,
    params: &[RawParam],
) -> Result<(), OutOfMemory>
    ensures { OnOk result (found.new ≡ found.old ++ first_fault place params.now) }
{
    match split(params) {
        None => {
            found.push(Fault {
                place,
                rank: Rank::Mistyped(19),
            })?;
            Ok(())
        }
        Some((first, _)) => {
            note_if(found, !is_bare_self(first), first.place, Rank::Mistyped(19))
        }
    }
}

fn note_untyped(found: &mut Items<Fault>, params: &[RawParam]) -> Result<(), OutOfMemory>
    ensures { OnOk result (found.new ≡ found.old ++ flat_map untyped_fault params.now) }
{
    'params: for param in params {
        note_if(found, is_untyped(param), param.place, Rank::Mistyped(19))?;
    }
    Ok(())
}

// The fault of the parameter that stands at this place among those of a function.
fn note_repeated(
    found: &mut Items<Fault>,
    params: &[RawParam],
    at: usize,
    param: &RawParam,
) -> Result<(), OutOfMemory>
    requires { at ≤ length params.now }
    ensures { OnOk result (found.new ≡ found.old ++ repeated_fault (take at params.now) param.now) }
{
    let repeated = is_parameter(&params[..at], param.name.bytes());
    note_if(found, repeated, param.place, Rank::Mistyped(19))
}

fn note_all_repeated(found: &mut Items<Fault>, params: &[RawParam]) -> Result<(), OutOfMemory>
    ensures { OnOk result (found.new ≡ found.old ++ repeated_faults [] params.now) }
{
    let mut at = 0usize;
    'params: for param in params {
        note_repeated(found, params, at, param)?;
        at += 1;
    }
    Ok(())
}

/// What stands behind the first of a function's parameters.
pub fn behind_first(params: &[RawParam]) -> &[RawParam]
    ensures { result.now ≡ drop 1 params.now }
{
    match split(params) {
        Some((_, rest)) => rest,
        None => params,
    }
}

fn note_parameters(
    found: &mut Items<Fault>,
    owner: Option<u32>,
    function: &RawFunc,
) -> Result<(), OutOfMemory>
    ensures { OnOk result (found.new ≡ found.old ++ parameter_faults owner function.now) }
{
    let params = function.params.as_slice();
    match owner {
        Some(_) => {
            note_first(found, function.place, params)?;
            note_untyped(found, behind_first(params))?;
        }
        None => note_untyped(found, params)?,
    }
    note_all_repeated(found, params)
}

/// Adds the faults of the head of a function, or of a method of this class.
pub fn note_head(
    found: &mut Items<Fault>,
    classes: &Classes,
    items: &[RawItem],
    owner: Option<u32>,
    function: &RawFunc,
) -> Result<(), OutOfMemory>
    requires { length classes.now.list < 2 ^ 32 }
    ensures { OnOk result (found.new ≡ found.old ++ head_faults classes.now items.now owner function.now) }
{
    note_parameter_types(found, classes, function.params.as_slice())?;
    note_result(found, classes, &function.ret)?;
    note_parameters(found, owner, function)?;
    note_override(found, classes, items, owner, function)?;
    note_marks(found, classes, owner, function)
}
