// The heads of methods and loops.
ghost use Rattle.std.specs.Prelude.{◌≡◌, map};
ghost use Rattle.class_table.specs.Shapes.{shape, is_string};
ghost use Rattle.class_table.specs.Declaring.{statement_is, behind_docstring};
ghost use Rattle.class_table.specs.ClassList.{has_mark};
ghost use Rattle.contract_forms.specs.Heads.{method_head, loop_head, after, is_exsures, line, sort_of, returned_spot, first_spot};

use crate::barring::bars;
use crate::function::Sort;
use crate::lists::split;
use crate::reading::{called_contract, states};
use contract_kinds::{Clause, Contract, Level, Spot};
use py_base::Text;
use raw_syntax::{RawExpr, RawExprForm, RawFunc, RawStmt, RawStmtForm};

fn method_head(measured: bool, states: bool, contract: Option<Contract>) -> Spot
    ensures { result ≡ method_head measured states contract }
{
    match contract {
        Some(found) => match found {
            Contract::Requires => Spot::MethodHead(measured || states),
            Contract::Ensures => Spot::MethodHead(measured),
            Contract::Exsures => Spot::MethodHead(measured),
            _ => Spot::Alone,
        },
        None => Spot::Alone,
    }
}

fn loop_head(measured: bool, states: bool, contract: Option<Contract>) -> Spot
    ensures { result ≡ loop_head measured states contract }
{
    match contract {
        Some(found) => match found {
            Contract::Invariant => Spot::LoopHead(measured || states),
            _ => Spot::Alone,
        },
        None => Spot::Alone,
    }
}

/// The contract that a statement is.
pub fn statement_contract(s: &RawStmt) -> Option<Contract>
    ensures { result ≡ (line s.now).contract }
{
    match &s.form {
        RawStmtForm::Eval(e) => called_contract(e),
        _ => None,
    }
}

fn statement_states(s: &RawStmt) -> bool
    ensures { result ≡ (line s.now).states }
{
    match &s.form {
        RawStmtForm::Eval(e) => states(e),
        _ => false,
    }
}

fn is_exsures(contract: Option<Contract>) -> bool
    ensures { result ≡ is_exsures contract }
{
    match contract {
        Some(found) => match found {
            Contract::Exsures => true,
            _ => false,
        },
        None => false,
    }
}

/// Whether a contract keeps its method from being the target of a thread.
pub fn statement_bars(s: &RawStmt) -> bool
    ensures { result ≡ (line s.now).bars }
{
    match &s.form {
        RawStmtForm::Eval(e) => is_exsures(called_contract(e)) || bars(e),
        _ => false,
    }
}

/// Where the statement behind this one stands.
pub fn after(at: Spot, s: &RawStmt) -> Spot
    ensures { result ≡ after at (line s.now) }
{
    match at {
        Spot::MethodHead(measured) => {
            method_head(measured, statement_states(s), statement_contract(s))
        }
        Spot::LoopHead(measured) => {
            loop_head(measured, statement_states(s), statement_contract(s))
        }
        _ => Spot::Alone,
    }
}

fn has_mark(function: &RawFunc, mark: &[u8]) -> bool
    ensures { result ≡ has_mark mark.now function.now }
{
    let marks: &[Text] = function.marks.as_slice();
    marks.iter().any(|known| mark == known.bytes())
}

/// The kind of a function, by its decorators.
pub fn sort_of(function: &RawFunc) -> Sort
    ensures { result ≡ sort_of function.now }
{
    if has_mark(function, b"Predicate") {
        return Sort::Predicate;
    }
    if has_mark(function, b"Pure") {
        return Sort::Pure;
    }
    Sort::Code
}

/// Where a value that it returns stands.
pub fn returned_spot(sort: Sort) -> Spot
    ensures { result ≡ returned_spot sort }
{
    match sort {
        Sort::Code => Spot::Value,
        Sort::Predicate => Spot::Inside(Clause::Predicate, Level::Top(false)),
        Sort::Pure => Spot::Inside(Clause::Pure, Level::Term),
    }
}

/// Where its first statement stands.
pub fn first_spot(sort: Sort) -> Spot
    ensures { result ≡ first_spot sort }
{
    match sort {
        Sort::Code => Spot::MethodHead(false),
        _ => Spot::Alone,
    }
}

fn is_string(e: &RawExpr) -> bool
    ensures { result ≡ is_string (shape e.now) }
{
    match &e.form {
        RawExprForm::Bracket(inner) => is_string(inner.get()),
        RawExprForm::Str(_) => true,
        _ => false,
    }
}

fn is_docstring(s: &RawStmt) -> bool
    ensures { result ≡ statement_is is_string s.now }
{
    match &s.form {
        RawStmtForm::Eval(e) => is_string(e),
        _ => false,
    }
}

/// What stands behind the docstring of a method.
pub fn behind_docstring(body: &[RawStmt]) -> &[RawStmt]
    ensures { result.now ≡ behind_docstring body.now }
{
    match split(body) {
        Some((first, rest)) => {
            if is_docstring(first) {
                return rest;
            }
            body
        }
        None => body,
    }
}
