// Decorators, and what they ask for.
ghost use Rattle.std.specs.Prelude.{◌≡◌, ◌<◌, ◌^◌, ◌++◌, ◌||◌, not, length, is_some, codes, bytes_eq, OnOk};
ghost use Rattle.std.specs.List.{list_all};
ghost use Rattle.class_table.specs.ClassList.{has_mark};
ghost use Rattle.class_table.specs.Faults.{is_alone};
ghost use Rattle.type_base.specs.Types.{locked_by};
ghost use Rattle.type_forms.specs.Signatures.{is_reference, has_reference, returns, is_one_return, given_parameters, is_predicate_form, mark_fits, marks_fit, fits_marks, mark_faults};

use crate::head::behind_first;
use crate::over::written_type;
use class_table::Classes;
use py_base::{OutOfMemory, Text};
use py_syntax::Ty;
use raw_syntax::{RawFunc, RawParam, RawStmt, RawStmtForm, RawTy};
use sqlite_items::Items;
use type_base::{Fault, Rank, locked_by, note_if};
use type_ways::{is_alone, split};

fn is_reference(ty: Option<Ty>) -> bool
    ensures { result ≡ is_reference ty }
{
    match ty {
        None => false,
        Some(found) => match found {
            Ty::Obj(_) => true,
            Ty::Opt(_) => true,
            _ => false,
        },
    }
}

fn has_reference(classes: &Classes, param: &RawParam) -> bool
    requires { length classes.now.list < 2 ^ 32 }
    ensures { result ≡ has_reference classes.now param.now }
{
    is_reference(written_type(classes, param))
}

fn have_references(classes: &Classes, params: &[RawParam]) -> bool
    requires { length classes.now.list < 2 ^ 32 }
    ensures { result ≡ list_all (has_reference classes.now) params.now }
{
    'params: for param in params {
        if !has_reference(classes, param) {
            return false;
        }
    }
    true
}

fn returns(s: &RawStmt) -> bool
    ensures { result ≡ returns s.now }
{
    match &s.form {
        RawStmtForm::Return(_) => true,
        _ => false,
    }
}

fn is_one_return(body: &[RawStmt]) -> bool
    ensures { result ≡ is_one_return body.now }
{
    let Some((first, rest)) = split(body) else {
        return false;
    };
    match split(rest) {
        None => returns(first),
        Some(_) => false,
    }
}

fn given_parameters(owner: Option<u32>, function: &RawFunc) -> &[RawParam]
    ensures { result.now ≡ given_parameters owner function.now }
{
    match owner {
        None => function.params.as_slice(),
        Some(_) => behind_first(function.params.as_slice()),
    }
}

fn is_predicate_form(classes: &Classes, owner: Option<u32>, function: &RawFunc) -> bool
    requires { length classes.now.list < 2 ^ 32 }
    ensures { result ≡ is_predicate_form classes.now owner function.now }
{
    have_references(classes, given_parameters(owner, function))
        && is_alone(&function.ret, b"bool")
        && is_one_return(function.body.as_slice())
}

fn is_lock(classes: &Classes, class: u32) -> bool
    ensures { result ≡ is_some (locked_by classes.now class) }
{
    locked_by(classes, class).is_some()
}

fn mark_fits(classes: &Classes, owner: Option<u32>, function: &RawFunc, mark: &[u8]) -> bool
    ensures { result ≡ mark_fits classes.now owner function.now mark.now }
{
    match owner {
        None => mark == b"Predicate".as_slice() || mark == b"Pure".as_slice(),
        Some(class) => {
            mark == b"Predicate".as_slice()
                && is_lock(classes, class)
                && function.name.bytes() == b"invariant".as_slice()
        }
    }
}

fn marks_fit(classes: &Classes, owner: Option<u32>, function: &RawFunc, marks: &[Text]) -> bool
    ensures { result ≡ marks_fit classes.now owner function.now marks.now }
{
    let Some((first, rest)) = split(marks) else {
        return true;
    };
    match split(rest) {
        None => mark_fits(classes, owner, function, first.bytes()),
        Some(_) => false,
    }
}

fn has_mark(mark: &[u8], function: &RawFunc) -> bool
    ensures { result ≡ has_mark mark.now function.now }
{
    function
        .marks
        .as_slice()
        .iter()
        .any(|word| mark == word.bytes())
}

fn is_fit_predicate(classes: &Classes, owner: Option<u32>, function: &RawFunc) -> bool
    requires { length classes.now.list < 2 ^ 32 }
    ensures { result ≡ (not (has_mark (codes "Predicate") function.now) || is_predicate_form classes.now owner function.now) }
{
    !has_mark(b"Predicate", function) || is_predicate_form(classes, owner, function)
}

fn is_fit_pure(function: &RawFunc) -> bool
    ensures { result ≡ (not (has_mark (codes "Pure") function.now) || is_one_return function.now.body) }
{
    !has_mark(b"Pure", function) || is_one_return(function.body.as_slice())
}

fn fits_marks(classes: &Classes, owner: Option<u32>, function: &RawFunc) -> bool
    requires { length classes.now.list < 2 ^ 32 }
    ensures { result ≡ fits_marks classes.now owner function.now }
{
    marks_fit(classes, owner, function, function.marks.as_slice())
        && is_fit_predicate(classes, owner, function)
        && is_fit_pure(function)
}

/// Adds the fault of a function's decorators.
pub fn note_marks(
    found: &mut Items<Fault>,
    classes: &Classes,
    owner: Option<u32>,
    function: &RawFunc,
) -> Result<(), OutOfMemory>
    requires { length classes.now.list < 2 ^ 32 }
    ensures { OnOk result (found.new ≡ found.old ++ mark_faults classes.now owner function.now) }
{
    let fit = fits_marks(classes, owner, function);
    note_if(found, !fit, function.place, Rank::Mistyped(25))
}
