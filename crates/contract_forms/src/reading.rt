// What an expression is.
ghost use Rattle.std.specs.Prelude.{◌≡◌, map, option_copied};
ghost use Rattle.contract_kinds.specs.Words.{contract_of, is_word};
ghost use Rattle.contract_forms.specs.Fractions.{is_amount, is_division, are_amount};
ghost use Rattle.contract_forms.specs.Readings.{is_joining, is_measure, first_binds, reading, argument_of};

use contract_kinds::{Contract, contract_named};
use py_base::{Place, Text};
use raw_syntax::{Arithmetic, RawArgument, RawExpr, RawExprForm};

/// The place of an expression, and that of what is called where it is a call.
pub fn place(e: &RawExpr) -> Place
    ensures { result ≡ (reading e.now).place }
{
    match &e.form {
        RawExprForm::Bracket(inner) | RawExprForm::Call(inner, _) => place(inner.get()),
        _ => e.place,
    }
}

/// The first token of an expression.
pub fn first(e: &RawExpr) -> Place
    ensures { result ≡ (reading e.now).first }
{
    match &e.form {
        RawExprForm::Field(inner, _)
        | RawExprForm::Call(inner, _)
        | RawExprForm::Binary(_, inner, _)
        | RawExprForm::Chain(inner, _)
        | RawExprForm::And(inner, _)
        | RawExprForm::Or(inner, _) => first(inner.get()),
        _ => e.place,
    }
}

/// The name that an expression is.
pub fn word(e: &RawExpr) -> Option<&Text>
    ensures { option_copied result ≡ (reading e.now).word }
{
    match &e.form {
        RawExprForm::Name(name) => Some(name),
        RawExprForm::Bracket(inner) => word(inner.get()),
        _ => None,
    }
}

/// The name that an expression calls.
pub fn called(e: &RawExpr) -> Option<&Text>
    ensures { option_copied result ≡ (reading e.now).called }
{
    match &e.form {
        RawExprForm::Call(inner, _) => word(inner.get()),
        RawExprForm::Bracket(inner) => called(inner.get()),
        _ => None,
    }
}

/// Whether the expression is this name.
pub fn is_word(e: &RawExpr, name: &[u8]) -> bool
    ensures { result ≡ is_word name.now (reading e.now).word }
{
    match word(e) {
        Some(found) => found.bytes() == name,
        None => false,
    }
}

/// The contract that a call of the expression is.
pub fn contract_of(e: &RawExpr) -> Option<Contract>
    ensures { result ≡ contract_of (reading e.now).word }
{
    match word(e) {
        Some(found) => contract_named(found.bytes()),
        None => None,
    }
}

/// The contract that the expression calls.
pub fn called_contract(e: &RawExpr) -> Option<Contract>
    ensures { result ≡ contract_of (reading e.now).called }
{
    match called(e) {
        Some(found) => contract_named(found.bytes()),
        None => None,
    }
}

fn is_joining(name: &[u8]) -> bool
    ensures { result ≡ is_joining name.now }
{
    name == b"start".as_slice() || name == b"join".as_slice()
}

/// Whether the expression is a field that starts or joins a thread.
pub fn joins(e: &RawExpr) -> bool
    ensures { result ≡ (reading e.now).joins }
{
    match &e.form {
        RawExprForm::Field(_, name) => is_joining(name.bytes()),
        RawExprForm::Bracket(inner) => joins(inner.get()),
        _ => false,
    }
}

fn number(e: &RawExpr) -> Option<i128>
    ensures { result ≡ (reading e.now).number }
{
    match &e.form {
        RawExprForm::Number(n) => Some(*n),
        RawExprForm::Bracket(inner) => number(inner.get()),
        _ => None,
    }
}

fn is_amount(n: i128, d: i128) -> bool
    ensures { result ≡ is_amount n d }
{
    1 <= n && n <= d && d <= 16
}

fn are_amount(n: Option<i128>, d: Option<i128>) -> bool
    ensures { result ≡ are_amount n d }
{
    match n {
        None => false,
        Some(above) => match d {
            None => false,
            Some(below) => is_amount(above, below),
        },
    }
}

fn is_division(operator: Arithmetic) -> bool
    ensures { result ≡ is_division operator }
{
    match operator {
        Arithmetic::Divide => true,
        _ => false,
    }
}

/// Whether the expression is a fraction that `Acc` takes.
pub fn is_fraction(e: &RawExpr) -> bool
    ensures { result ≡ (reading e.now).is_fraction }
{
    match &e.form {
        RawExprForm::Binary(operator, a, b) => {
            is_division(*operator) && are_amount(number(a.get()), number(b.get()))
        }
        RawExprForm::Bracket(inner) => is_fraction(inner.get()),
        _ => false,
    }
}

fn is_measure(contract: Option<Contract>) -> bool
    ensures { result ≡ is_measure contract }
{
    match contract {
        Some(found) => match found {
            Contract::MustTerminate => true,
            _ => false,
        },
        None => false,
    }
}

/// Whether a `MustTerminate` is a conjunct of the expression.
pub fn binds(e: &RawExpr) -> bool
    ensures { result ≡ (reading e.now).binds }
{
    match &e.form {
        RawExprForm::And(a, b) => binds(a.get()) || binds(b.get()),
        RawExprForm::Bracket(inner) => binds(inner.get()),
        RawExprForm::Call(inner, _) => is_measure(contract_of(inner.get())),
        _ => false,
    }
}

fn first_binds(arguments: &[RawArgument]) -> bool
    ensures { result ≡ first_binds (map argument_of arguments.now) }
{
    match arguments {
        [] => false,
        [first, ..] => match first {
            RawArgument::Value(e) => binds(e),
            RawArgument::Named(_, _) => false,
        },
    }
}

/// Whether a `MustTerminate` is a conjunct of the first argument of a call.
pub fn states(e: &RawExpr) -> bool
    ensures { result ≡ (reading e.now).states }
{
    match &e.form {
        RawExprForm::Call(_, arguments) => first_binds(arguments.as_slice()),
        RawExprForm::Bracket(inner) => states(inner.get()),
        _ => false,
    }
}
