// The asserts of a small function.
ghost use Rattle.std.specs.Prelude.{◌≡◌, ◌≤◌, IfOk, All, length};
ghost use Rattle.nagini_cli.specs.SmallRun as small_run;
ghost use Rattle.small_module.specs.SmallBody.{IsWithin, AreWithin, IsOperand, IsSmall, IsEquation, IsSmallStmt, IsSmallMethod, IsSmallModule, reach};

use py_base::{OutOfMemory, Place};
use py_syntax::{Expr, ExprForm, Method, Module, Stmt, StmtForm};
use std::alloc::Global;

/// The place of the first assert of `main` that is false, where its statements are read from the
/// first to the last.
pub fn first_false(alloc: Global, small_module: &Module) -> Result<Option<Place>, OutOfMemory>
    requires { IsSmallModule small_module.now }
    ensures { IfOk result (λ place. place ≡ small_run.first_false small_module.now) }
{
    match small_module.methods.get(small_module.main as usize) {
        Some(main) => first_false_of(alloc, main),
        None => Ok(None),
    }
}

fn first_false_of(alloc: Global, method: &Method) -> Result<Option<Place>, OutOfMemory>
    requires { IsSmallMethod method.now }
    ensures { IfOk result (λ place. place ≡ small_run.first_false_of method.now) }
{
    let mut locals = vec![in alloc; 0; method.locals.len()]?;
    Ok(first_false_in(method.body.as_slice(), &mut locals))
}

// The place of the first assert that is false, where the locals begin with these values.
fn first_false_in(body: &[Stmt], locals: &mut [i128]) -> Option<Place>
    requires few { length body.now ≤ 60 }
    requires small { All IsSmallStmt body.now }
    requires within { AreWithin (reach 0) locals.old }
    ensures { result ≡ small_run.first_false_in body.now locals.old }
{
    for stmt in body {
        if is_false(stmt, locals) {
            return Some(stmt.place);
        }
        run(stmt, locals);
    }
    None
}

// Whether the statement is an assert that is false.
fn is_false(stmt: &Stmt, locals: &[i128]) -> bool
    requires small { IsSmallStmt stmt.now }
    requires within { AreWithin (reach 60) locals.now }
    ensures { result ≡ small_run.is_false stmt.now locals.now }
{
    match &stmt.form {
        StmtForm::Check(e) => differs(e, locals),
        _ => false,
    }
}

// Whether the expression is an equation whose sides differ.
fn differs(e: &Expr, locals: &[i128]) -> bool
    requires small { IsEquation e.now }
    requires within { AreWithin (reach 60) locals.now }
    ensures { result ≡ small_run.differs e.now locals.now }
{
    match &e.form {
        ExprForm::Bin(11, a, b) => value(a.get(), locals) != value(b.get(), locals),
        _ => false,
    }
}

// Changes the locals as the statement does.
fn run(stmt: &Stmt, locals: &mut [i128])
    requires small { IsSmallStmt stmt.now }
    requires within { AreWithin (reach 60) locals.old }
    ensures { locals.new ≡ small_run.after stmt.now locals.old }
{
    if let StmtForm::Store(local, e) = &stmt.form {
        let new = value(e, locals);
        let local = *local as usize;
        if local < locals.len() {
            locals[local] = new;
        }
    }
}

fn value(e: &Expr, locals: &[i128]) -> i128
    requires small { IsSmall e.now }
    requires within { AreWithin (reach 60) locals.now }
    ensures { result ≡ small_run.value_of e.now locals.now }
{
    match &e.form {
        ExprForm::Bin(1, a, b) => operand(a.get(), locals) + operand(b.get(), locals),
        ExprForm::Bin(2, a, b) => operand(a.get(), locals) - operand(b.get(), locals),
        ExprForm::Bin(..) => 0,
        _ => operand(e, locals),
    }
}

fn operand(e: &Expr, locals: &[i128]) -> i128
    requires small { IsOperand e.now }
    requires within { AreWithin (reach 60) locals.now }
    ensures value { result ≡ small_run.value_of e.now locals.now }
    ensures within { IsWithin (reach 60) result }
{
    match &e.form {
        ExprForm::Num(z) => *z,
        ExprForm::Local(local) => local_value(*local, locals),
        _ => 0,
    }
}

fn local_value(local: u32, locals: &[i128]) -> i128
    requires { AreWithin (reach 60) locals.now }
    ensures value { result ≡ small_run.local_value local locals.now }
    ensures within { IsWithin (reach 60) result }
{
    match locals.get(local as usize) {
        Some(value) => *value,
        None => 0,
    }
}
