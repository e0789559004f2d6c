// Which types fit where another is wanted.
ghost use Rattle.std.specs.Prelude.{◌≡◌, ◌++◌, OnOk};
ghost use Rattle.type_names.specs.Fitting.{mistyped, mistyped_if, is_int, is_bool, is_void, is_thread_type, is_below, fits, misfit, fit_faults, known_fit_faults, want_faults, wanted_faults, unless_void};

use crate::meaning::Worth;
use class_table::is_subclass;
use py_base::{OutOfMemory, Place};
use py_syntax::{Class, Ty};
use sqlite_items::Items;
use type_base::{Fault, Rank};

/// Adds a fault of a rule.
pub fn note(found: &mut Items<Fault>, place: Place, rule: u8) -> Result<(), OutOfMemory>
    ensures { OnOk result (found.new ≡ found.old ++ mistyped place rule) }
{
    found.push(Fault {
        place,
        rank: Rank::Mistyped(rule),
    })?;
    Ok(())
}

/// Adds a fault of a rule, where there is one.
pub fn note_if(
    found: &mut Items<Fault>,
    condition: bool,
    place: Place,
    rule: u8,
) -> Result<(), OutOfMemory>
    ensures { OnOk result (found.new ≡ found.old ++ mistyped_if condition place rule) }
{
    if condition {
        note(found, place, rule)?;
    }
    Ok(())
}

/// Whether it is `int`.
pub fn is_int(ty: Ty) -> bool
    ensures { result ≡ is_int ty }
{
    match ty {
        Ty::Int => true,
        _ => false,
    }
}

/// Whether it is `bool`.
pub fn is_bool(ty: Ty) -> bool
    ensures { result ≡ is_bool ty }
{
    match ty {
        Ty::Bool => true,
        _ => false,
    }
}

/// Whether it is that of None.
pub fn is_void(ty: Ty) -> bool
    ensures { result ≡ is_void ty }
{
    match ty {
        Ty::Void => true,
        _ => false,
    }
}

/// Whether it is `Thread`.
pub fn is_thread_type(ty: Ty) -> bool
    ensures { result ≡ is_thread_type ty }
{
    match ty {
        Ty::Thr => true,
        _ => false,
    }
}

fn is_below(classes: &[Class], class: u32, ty: Ty) -> bool
    ensures { result ≡ is_below classes.now class ty }
{
    match ty {
        Ty::Obj(own) => is_subclass(classes, own, class),
        Ty::Opt(own) => is_subclass(classes, own, class),
        _ => false,
    }
}

/// Whether the second type fits where the first is wanted.
pub fn fits(classes: &[Class], want: Ty, ty: Ty) -> bool
    ensures { result ≡ fits classes.now want ty }
{
    match want {
        Ty::Int => is_int(ty),
        Ty::Bool => is_bool(ty),
        Ty::Void => is_void(ty),
        Ty::Thr => is_thread_type(ty),
        Ty::Obj(class) => is_below(classes, class, ty),
        Ty::Opt(class) => is_void(ty) || is_below(classes, class, ty),
    }
}

fn note_misfit(
    found: &mut Items<Fault>,
    rule: u8,
    place: Place,
    want: Ty,
    ty: Ty,
) -> Result<(), OutOfMemory>
    ensures { OnOk result (found.new ≡ found.old ++ misfit rule place want ty) }
{
    match want {
        Ty::Int => match ty {
            Ty::Bool => {
                found.push(Fault {
                    place,
                    rank: Rank::BoolAsInt,
                })?;
                Ok(())
            }
            _ => note(found, place, rule),
        },
        _ => note(found, place, rule),
    }
}

/// Adds the fault of a value of this type, if it has one, where another is wanted.
pub fn note_known_fit(
    found: &mut Items<Fault>,
    classes: &[Class],
    rule: u8,
    place: Place,
    want: Ty,
    ty: Option<Ty>,
) -> Result<(), OutOfMemory>
    ensures { OnOk result (found.new ≡ found.old ++ known_fit_faults classes.now rule place want ty) }
{
    let Some(own) = ty else {
        return Ok(());
    };
    if fits(classes, want, own) {
        return Ok(());
    }
    note_misfit(found, rule, place, want, own)
}

/// Adds the fault of an expression where this type is wanted.
pub fn note_want(
    found: &mut Items<Fault>,
    classes: &[Class],
    rule: u8,
    want: Ty,
    worth: Worth,
) -> Result<(), OutOfMemory>
    ensures { OnOk result (found.new ≡ found.old ++ want_faults classes.now rule want worth) }
{
    note_known_fit(found, classes, rule, worth.place, want, worth.ty)
}

/// The same where what is wanted may have no type.
pub fn note_wanted(
    found: &mut Items<Fault>,
    classes: &[Class],
    rule: u8,
    want: Option<Ty>,
    worth: Worth,
) -> Result<(), OutOfMemory>
    ensures { OnOk result (found.new ≡ found.old ++ wanted_faults classes.now rule want worth) }
{
    match want {
        Some(ty) => note_want(found, classes, rule, ty, worth),
        None => Ok(()),
    }
}

/// The type, where values have it.
pub fn unless_void(ty: Ty) -> Option<Ty>
    ensures { result ≡ unless_void ty }
{
    match ty {
        Ty::Void => None,
        _ => Some(ty),
    }
}
