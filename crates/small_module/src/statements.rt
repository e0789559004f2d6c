// Statements.
ghost use Rattle.std.specs.Prelude.{◌≡◌, ◌≤◌, ◌+◌, [], ◌∷◌, length, map, IfOk, OnOk};
ghost use Rattle.py_syntax.specs.declared.PrintArg.TheVariants.{Value};
ghost use Rattle.py_syntax.specs.declared.StmtForm.TheVariants.{Print};
ghost use Rattle.small_module.specs.SmallTree.{view, link_of, argument_of, sum_of};
ghost use Rattle.small_module.specs.SmallModule.{statement, argument_place, is_equal, is_print, keeping, equation_of, check_of, arguments_of, value_of, print_of, store_name, store_of, stmt_of};

use crate::lists::split;
use crate::parts::{place_of, push_parts};
use crate::sums::{equation_at, sum_of};
use crate::words::{add_name, is_reserved, local_number};
use py_base::{OutOfMemory, Place, Text};
use py_syntax::{Expr, PrintArg, Stmt, StmtForm};
use raw_syntax::{
    Comparison, RawArgument, RawComparison, RawExpr, RawExprForm, RawStmt, RawStmtForm,
};
use sqlite_items::Items;
use std::alloc::Global;

fn statement(place: Place, form: StmtForm) -> Stmt
    ensures { result ≡ statement place form }
{
    Stmt { place, form }
}

// The small expression, where these names are assigned.
fn expr_of(
    alloc: Global,
    e: &RawExpr,
    names: &[Text],
    place: Place,
) -> Result<Result<Expr, Place>, OutOfMemory>
    requires { length names.now ≤ 60 }
    ensures { IfOk result (λ x. x ≡ sum_of place (view names.now e.now).parts) }
{
    let mut parts = Vec::new(alloc);
    push_parts(e, names, &mut parts)?;
    sum_of(alloc, place, &parts)
}

fn is_equal(operator: Comparison) -> bool
    ensures { result ≡ is_equal operator }
{
    matches!(operator, Comparison::Equal)
}

// What a chain checks.
fn equation_of(
    alloc: Global,
    first: &RawExpr,
    links: &[RawComparison],
    names: &[Text],
    place: Place,
) -> Result<Result<Stmt, Place>, OutOfMemory>
    requires { length names.now ≤ 60 }
    ensures { IfOk result (λ s. s ≡ equation_of place (view names.now first.now).parts (map (link_of names.now) links.now)) }
{
    let Some((link, more)) = split(links) else {
        return Ok(Err(place));
    };
    if !is_equal(link.operator) {
        return Ok(Err(place));
    }
    let a = match expr_of(alloc, first, names, place)? {
        Ok(a) => a,
        Err(fault) => return Ok(Err(fault)),
    };
    let b = match expr_of(alloc, &link.operand, names, link.place)? {
        Ok(b) => b,
        Err(fault) => return Ok(Err(fault)),
    };
    if let Some((other, _)) = split(more) {
        return Ok(Err(other.place));
    }
    let equation = equation_at(alloc, link.place, a, b)?;
    Ok(Ok(statement(place, StmtForm::Check(equation))))
}

// What an assertion of the expression says.
fn check_of(
    alloc: Global,
    e: &RawExpr,
    names: &[Text],
    place: Place,
) -> Result<Result<Stmt, Place>, OutOfMemory>
    requires { length names.now ≤ 60 }
    ensures { IfOk result (λ s. s ≡ check_of place (view names.now e.now).shape) }
{
    match &e.form {
        RawExprForm::Bracket(inner) => check_of(alloc, inner.get(), names, place),
        RawExprForm::Chain(first, links) => {
            equation_of(alloc, first.get(), links.as_slice(), names, place)
        }
        _ => Ok(Err(place)),
    }
}

fn argument_place(argument: &RawArgument, names: &[Text]) -> Place
    ensures { result ≡ argument_place (argument_of names.now argument.now) }
{
    match argument {
        RawArgument::Value(value) => place_of(value, names),
        RawArgument::Named(name, _) => place_of(name, names),
    }
}

fn printed(alloc: Global, place: Place, value: Expr) -> Result<Stmt, OutOfMemory>
    ensures { IfOk result (λ s. s ≡ statement place (Print (Value value ∷ []))) }
{
    let mut args = Items::new(alloc);
    args.push(PrintArg::Value(value))?;
    Ok(statement(place, StmtForm::Print(args)))
}

// What a call of `print` says whose first argument is this expression.
fn value_of(
    alloc: Global,
    value: &RawExpr,
    more: &[RawArgument],
    names: &[Text],
    place: Place,
) -> Result<Result<Stmt, Place>, OutOfMemory>
    requires { length names.now ≤ 60 }
    ensures { IfOk result (λ s. s ≡ value_of place (view names.now value.now).place (view names.now value.now).parts (map (argument_of names.now) more.now)) }
{
    let e = match expr_of(alloc, value, names, place_of(value, names))? {
        Ok(e) => e,
        Err(fault) => return Ok(Err(fault)),
    };
    if let Some((other, _)) = split(more) {
        return Ok(Err(argument_place(other, names)));
    }
    Ok(Ok(printed(alloc, place, e)?))
}

// What a call of `print` with these arguments says.
fn arguments_of(
    alloc: Global,
    arguments: &[RawArgument],
    names: &[Text],
    place: Place,
    called: Place,
) -> Result<Result<Stmt, Place>, OutOfMemory>
    requires { length names.now ≤ 60 }
    ensures { IfOk result (λ s. s ≡ arguments_of place called (map (argument_of names.now) arguments.now)) }
{
    let Some((first, more)) = split(arguments) else {
        return Ok(Err(called));
    };
    match first {
        RawArgument::Value(value) => value_of(alloc, value, more, names, place),
        RawArgument::Named(name, _) => Ok(Err(place_of(name, names))),
    }
}

// Whether the expression is the name `print`.
fn is_print(e: &RawExpr, names: &[Text]) -> bool
    ensures { result ≡ is_print (view names.now e.now).shape }
{
    match &e.form {
        RawExprForm::Bracket(inner) => is_print(inner.get(), names),
        RawExprForm::Name(name) => name.bytes() == b"print".as_slice(),
        _ => false,
    }
}

// What the expression alone says.
fn print_of(
    alloc: Global,
    e: &RawExpr,
    names: &[Text],
    place: Place,
) -> Result<Result<Stmt, Place>, OutOfMemory>
    requires { length names.now ≤ 60 }
    ensures { IfOk result (λ s. s ≡ print_of place (view names.now e.now).place (view names.now e.now).shape) }
{
    match &e.form {
        RawExprForm::Bracket(inner) => print_of(alloc, inner.get(), names, place),
        RawExprForm::Call(called, arguments) => {
            if is_print(called.get(), names) {
                return arguments_of(alloc, arguments.as_slice(), names, place, e.place);
            }
            Ok(Err(place))
        }
        _ => Ok(Err(place)),
    }
}

// What an assignment to the name says.
fn store_name(
    alloc: Global,
    name: &[u8],
    given: &RawExpr,
    names: &mut Vec<Text>,
    place: Place,
) -> Result<Result<Stmt, Place>, OutOfMemory>
    requires { length names.old.items ≤ 60 }
    ensures says { IfOk result (λ s. keeping names.new.items s ≡ store_name names.old.items place name.now (view names.old.items given.now)) }
    ensures more { OnOk result (length names.new.items ≤ length names.old.items + 1) }
{
    if is_reserved(name) {
        return Ok(Err(place));
    }
    let e = match expr_of(alloc, given, names, place_of(given, names))? {
        Ok(e) => e,
        Err(fault) => return Ok(Err(fault)),
    };
    let number = local_number(names, name);
    add_name(alloc, names, name)?;
    Ok(Ok(statement(place, StmtForm::Store(number, e))))
}

// What an assignment to the target says.
fn store_of(
    alloc: Global,
    target: &RawExpr,
    given: &RawExpr,
    names: &mut Vec<Text>,
    place: Place,
) -> Result<Result<Stmt, Place>, OutOfMemory>
    requires { length names.old.items ≤ 60 }
    ensures says { IfOk result (λ s. keeping names.new.items s ≡ store_of names.old.items place (view names.old.items target.now) (view names.old.items given.now)) }
    ensures more { OnOk result (length names.new.items ≤ length names.old.items + 1) }
{
    match &target.form {
        RawExprForm::Bracket(inner) => store_of(alloc, inner.get(), given, names, place),
        RawExprForm::Name(name) => store_name(alloc, name.bytes(), given, names, place),
        RawExprForm::Field(_, _) => Ok(Err(target.place)),
        _ => Ok(Err(place)),
    }
}

/// What a statement says where these names are assigned, or the place of its first part that isn't built.
/// A name that it assigns is added.
pub fn stmt_of(
    alloc: Global,
    s: &RawStmt,
    names: &mut Vec<Text>,
) -> Result<Result<Stmt, Place>, OutOfMemory>
    requires { length names.old.items ≤ 60 }
    ensures says { IfOk result (λ r. keeping names.new.items r ≡ stmt_of names.old.items s.now) }
    ensures more { OnOk result (length names.new.items ≤ length names.old.items + 1) }
{
    match &s.form {
        RawStmtForm::Pass => Ok(Ok(statement(s.place, StmtForm::Pass))),
        RawStmtForm::Assign(target, given) => store_of(alloc, target, given, names, s.place),
        RawStmtForm::Assert(e) => Ok(check_of(alloc, e, names, s.place)?),
        RawStmtForm::Eval(e) => Ok(print_of(alloc, e, names, s.place)?),
        _ => Ok(Err(s.place)),
    }
}
