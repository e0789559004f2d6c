// What an expression is as far as names go.
ghost use Rattle.std.specs.Prelude.{◌≡◌, codes, bytes_eq};
ghost use Rattle.std.specs.List.{list_any};
ghost use Rattle.class_table.specs.Shapes.{shape, is_string, is_contract_name, is_contract, is_name};
ghost use Rattle.class_table.specs.Declaring.{statement_is, behind_docstring};
ghost use Rattle.type_ways.specs.Sights.{is_word, sight, bare_place};
ghost use Rattle.type_ways.specs.Sights.{is_any_call};
ghost use Rattle.type_ways.specs.Ways.{is_some_name};

use crate::lists::split;
use py_base::Place;
use raw_syntax::{RawExpr, RawExprForm, RawStmt, RawStmtForm};

/// The place of an expression within its brackets.
pub fn bare_place(e: &RawExpr) -> Place
    ensures { result ≡ bare_place e.now }
{
    match &e.form {
        RawExprForm::Bracket(inner) => bare_place(inner.get()),
        _ => e.place,
    }
}

/// Whether the expression is the name `Exsures`.
pub fn is_exsures(e: &RawExpr) -> bool
    ensures { result ≡ is_word (codes "Exsures") (sight e.now).mention.word }
{
    match &e.form {
        RawExprForm::Bracket(inner) => is_exsures(inner.get()),
        RawExprForm::Name(name) => name.bytes() == b"Exsures".as_slice(),
        _ => false,
    }
}

/// Whether the expression is the name.
pub fn is_name(e: &RawExpr, word: &[u8]) -> bool
    ensures { result ≡ is_name word.now (shape e.now) }
{
    match &e.form {
        RawExprForm::Bracket(inner) => is_name(inner.get(), word),
        RawExprForm::Name(name) => name.bytes() == word,
        _ => false,
    }
}

/// Whether the expression is a name.
pub fn is_some_name(e: &RawExpr) -> bool
    ensures { result ≡ is_some_name (shape e.now) }
{
    match &e.form {
        RawExprForm::Bracket(inner) => is_some_name(inner.get()),
        RawExprForm::Name(_) => true,
        _ => false,
    }
}

/// Whether the expression is a call.
pub fn is_any_call(e: &RawExpr) -> bool
    ensures { result ≡ is_any_call (shape e.now) }
{
    match &e.form {
        RawExprForm::Bracket(inner) => is_any_call(inner.get()),
        RawExprForm::Call(_, _) => true,
        _ => false,
    }
}

fn is_among(words: &[&[u8]], bytes: &[u8]) -> bool
    ensures { result ≡ list_any (λ word. bytes_eq bytes.now word.now) words.now }
{
    words.iter().any(|word| bytes == *word)
}

fn is_string(e: &RawExpr) -> bool
    ensures { result ≡ is_string (shape e.now) }
{
    match &e.form {
        RawExprForm::Bracket(inner) => is_string(inner.get()),
        RawExprForm::Str(_) => true,
        _ => false,
    }
}

fn is_contract_name(e: &RawExpr) -> bool
    ensures { result ≡ is_contract_name (shape e.now) }
{
    match &e.form {
        RawExprForm::Bracket(inner) => is_contract_name(inner.get()),
        RawExprForm::Name(name) => is_among(&[b"Requires", b"Ensures", b"Exsures"], name.bytes()),
        _ => false,
    }
}

fn is_contract(e: &RawExpr) -> bool
    ensures { result ≡ is_contract (shape e.now) }
{
    match &e.form {
        RawExprForm::Bracket(inner) => is_contract(inner.get()),
        RawExprForm::Call(called, _) => is_contract_name(called.get()),
        _ => false,
    }
}

fn is_docstring(s: &RawStmt) -> bool
    ensures { result ≡ statement_is is_string s.now }
{
    match &s.form {
        RawStmtForm::Eval(e) => is_string(e),
        _ => false,
    }
}

/// Whether the statement is one of the contracts that stand first in a method.
pub fn is_contract_statement(s: &RawStmt) -> bool
    ensures { result ≡ statement_is is_contract s.now }
{
    match &s.form {
        RawStmtForm::Eval(e) => is_contract(e),
        _ => false,
    }
}

/// What stands behind the docstring of a method.
pub fn behind_docstring(body: &[RawStmt]) -> &[RawStmt]
    ensures { result.now ≡ behind_docstring body.now }
{
    match split(body) {
        Some((first, rest)) => {
            if is_docstring(first) {
                return rest;
            }
            body
        }
        None => body,
    }
}
