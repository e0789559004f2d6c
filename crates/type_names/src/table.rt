// Operators by their rows in the table of operators.
ghost use Rattle.std.specs.Prelude.{◌≡◌};
ghost use Rattle.type_names.specs.Rows.{row_with, sort_type, left_type, right_type, out_type, class_in, is_reference, has_sort, fits_row};

use crate::fitting::{is_bool, is_int, is_thread_type, is_void};
use case_tables::{BOOL, CaseRow, INT, NOTHING, REFERENCE, operator_cases};
use py_syntax::Ty;

macro_rules! rows {
    ($given:expr; $($name:ident $key:literal ($left:ident $right:ident $out:ident) [$($mark:ident)*])*) => {
        match $given {
            $($key => Some(CaseRow { key: $key, left: $left, right: $right, out: $out }),)*
            _ => None,
        }
    };
}

/// The row of the operator with this key in the table of operators.
pub fn operator_row(key: u16) -> Option<CaseRow>
    ensures { result ≡ row_with key }
{
    operator_cases!(rows, key)
}

fn sort_type(sort: u8) -> Option<Ty>
    ensures { result ≡ sort_type sort }
{
    if sort == INT {
        return Some(Ty::Int);
    }
    if sort == BOOL {
        return Some(Ty::Bool);
    }
    None
}

/// The type that the left operand of the operator with this key is to have, if it is one alone.
pub fn left_type(key: u16) -> Option<Ty>
    ensures { result ≡ left_type key }
{
    match operator_row(key) {
        Some(row) => sort_type(row.left),
        None => None,
    }
}

/// The same of the right operand, which for a prefix operator is the only one.
pub fn right_type(key: u16) -> Option<Ty>
    ensures { result ≡ right_type key }
{
    match operator_row(key) {
        Some(row) => sort_type(row.right),
        None => None,
    }
}

/// The type of what the operator with this key gives.
pub fn out_type(key: u16) -> Option<Ty>
    ensures { result ≡ out_type key }
{
    match operator_row(key) {
        Some(row) => sort_type(row.out),
        None => None,
    }
}

/// The class of an object, or of one that may be None.
pub fn class_in(ty: Ty) -> Option<u32>
    ensures { result ≡ class_in ty }
{
    match ty {
        Ty::Obj(class) => Some(class),
        Ty::Opt(class) => Some(class),
        _ => None,
    }
}

fn is_reference(ty: Ty) -> bool
    ensures { result ≡ is_reference ty }
{
    is_void(ty) || is_thread_type(ty) || class_in(ty).is_some()
}

fn has_sort(sort: u8, ty: Ty) -> bool
    ensures { result ≡ has_sort sort ty }
{
    (sort == INT && is_int(ty))
        || (sort == BOOL && is_bool(ty))
        || (sort == REFERENCE && is_reference(ty))
}

/// Whether operands of these types are those of the operator with this key.
pub fn fits_row(key: u16, a: Ty, b: Ty) -> bool
    ensures { result ≡ fits_row key a b }
{
    match operator_row(key) {
        Some(row) => has_sort(row.left, a) && has_sort(row.right, b),
        None => false,
    }
}
