// What an expression is, as far as names, fields and calls go.
ghost use Rattle.std.specs.Prelude.{◌≡◌, option_map};
ghost use Rattle.class_table.specs.Shapes.{shape, is_name, is_string, is_contract_name, is_contract, is_super, is_super_init, calls_super_init, self_field};

use crate::names::is_among;
use py_base::Place;
use raw_syntax::{RawExpr, RawExprForm};

/// Whether the expression is the name.
pub fn is_name(e: &RawExpr, word: &[u8]) -> bool
    ensures { result ≡ is_name word.now (shape e.now) }
{
    match &e.form {
        RawExprForm::Bracket(inner) => is_name(inner.get(), word),
        RawExprForm::Name(name) => name.bytes() == word,
        _ => false,
    }
}

/// Whether the expression is a string.
pub fn is_string(e: &RawExpr) -> bool
    ensures { result ≡ is_string (shape e.now) }
{
    match &e.form {
        RawExprForm::Bracket(inner) => is_string(inner.get()),
        RawExprForm::Str(_) => true,
        _ => false,
    }
}

fn is_contract_name(e: &RawExpr) -> bool
    ensures { result ≡ is_contract_name (shape e.now) }
{
    match &e.form {
        RawExprForm::Bracket(inner) => is_contract_name(inner.get()),
        RawExprForm::Name(name) => is_among(&[b"Requires", b"Ensures", b"Exsures"], name.bytes()),
        _ => false,
    }
}

/// Whether the expression is one of the contracts that stand first in a method.
pub fn is_contract(e: &RawExpr) -> bool
    ensures { result ≡ is_contract (shape e.now) }
{
    match &e.form {
        RawExprForm::Bracket(inner) => is_contract(inner.get()),
        RawExprForm::Call(called, _) => is_contract_name(called.get()),
        _ => false,
    }
}

fn is_super(e: &RawExpr) -> bool
    ensures { result ≡ is_super (shape e.now) }
{
    match &e.form {
        RawExprForm::Bracket(inner) => is_super(inner.get()),
        RawExprForm::Call(called, arguments) => {
            is_name(called.get(), b"super") && arguments.len() == 0
        }
        _ => false,
    }
}

fn is_super_init(e: &RawExpr) -> bool
    ensures { result ≡ is_super_init (shape e.now) }
{
    match &e.form {
        RawExprForm::Bracket(inner) => is_super_init(inner.get()),
        RawExprForm::Field(object, name) => {
            name.bytes() == b"__init__".as_slice() && is_super(object.get())
        }
        _ => false,
    }
}

/// Whether the expression is a call of the `__init__` of the base.
pub fn calls_super_init(e: &RawExpr) -> bool
    ensures { result ≡ calls_super_init (shape e.now) }
{
    match &e.form {
        RawExprForm::Bracket(inner) => calls_super_init(inner.get()),
        RawExprForm::Call(called, _) => is_super_init(called.get()),
        _ => false,
    }
}

/// The place and the name of a field of `self`.
pub fn self_field(e: &RawExpr) -> Option<(Place, &[u8])>
    ensures { option_map (λ found. (found.0, found.1.now)) result ≡ self_field (shape e.now) }
{
    match &e.form {
        RawExprForm::Bracket(inner) => self_field(inner.get()),
        RawExprForm::Field(object, name) => {
            if is_name(object.get(), b"self") {
                return Some((e.place, name.bytes()));
            }
            None
        }
        _ => None,
    }
}
