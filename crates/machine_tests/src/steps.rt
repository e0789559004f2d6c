// What no clause says: that steps of small modules are taken, and how many there are.

use machine_model::{Halt, Moved, State, Trace, start};
use machine_step::{all_ended, can_move, is_built, is_stuck, step};
use machine_values::{Stop, on_numbers};
use py_base::{Place, Text};
use py_syntax::{Expr, ExprForm, Method, Module, PrintArg, Stmt, StmtForm, Ty, Value};
use sqlite_items::{Boxed, Items};
use std::alloc::{AllocError, Global};
use std::test::Fail;

fn expr(line: u32, col: u32, form: ExprForm) -> Expr {
    Expr {
        place: Place { line, col },
        ty: Ty::Int,
        form,
    }
}

fn binary(
    alloc: Global,
    line: u32,
    col: u32,
    key: u16,
    a: Expr,
    b: Expr,
) -> Result<Expr, AllocError> {
    let form = ExprForm::Bin(key, Boxed::new(alloc, a)?, Boxed::new(alloc, b)?);
    Ok(expr(line, col, form))
}

fn stmt(line: u32, form: StmtForm) -> Stmt {
    Stmt {
        place: Place { line, col: 5 },
        form,
    }
}

// `x = 3`, `assert x + 2 == right` and `print(x)`.
fn small_body(alloc: Global, right: i128) -> Result<Items<Stmt>, AllocError> {
    let mut body = Items::new(alloc);
    let three = expr(2, 9, ExprForm::Num(3));
    body.push(stmt(2, StmtForm::Store(0, three)))?;
    let x = expr(3, 12, ExprForm::Local(0));
    let two = expr(3, 16, ExprForm::Num(2));
    let sum = binary(alloc, 3, 14, 1, x, two)?;
    let right = expr(3, 21, ExprForm::Num(right));
    let equation = binary(alloc, 3, 18, 11, sum, right)?;
    body.push(stmt(3, StmtForm::Check(equation)))?;
    let mut args = Items::new(alloc);
    args.push(PrintArg::Value(expr(4, 11, ExprForm::Local(0))))?;
    body.push(stmt(4, StmtForm::Print(args)))?;
    Ok(body)
}

// `x = 170141183460469231731687303715884105727 + 1`.
fn wide_body(alloc: Global) -> Result<Items<Stmt>, AllocError> {
    let mut body = Items::new(alloc);
    let most = expr(2, 9, ExprForm::Num(i128::MAX));
    let one = expr(2, 51, ExprForm::Num(1));
    let sum = binary(alloc, 2, 49, 1, most, one)?;
    body.push(stmt(2, StmtForm::Store(0, sum)))?;
    Ok(body)
}

fn prefix(alloc: Global, col: u32, key: u16, a: Expr) -> Result<PrintArg, AllocError> {
    let form = ExprForm::Un(key, Boxed::new(alloc, a)?);
    Ok(PrintArg::Value(expr(2, col, form)))
}

// `print(not True, "and", -5)`.
fn printing_body(alloc: Global) -> Result<Items<Stmt>, AllocError> {
    let mut args = Items::new(alloc);
    args.push(prefix(alloc, 11, 17, expr(2, 15, ExprForm::Truth(true)))?)?;
    args.push(PrintArg::Literal(Text::of(b"and".to_vec(alloc)?)))?;
    args.push(prefix(alloc, 28, 6, expr(2, 29, ExprForm::Num(5)))?)?;
    let mut body = Items::new(alloc);
    body.push(stmt(2, StmtForm::Print(args)))?;
    Ok(body)
}

fn module(alloc: Global, body: Items<Stmt>) -> Result<Module, AllocError> {
    let mut locals = Items::new(alloc);
    locals.push(Ty::Int)?;
    let mut methods = Items::new(alloc);
    methods.push(Method {
        name: 1,
        place: Place { line: 1, col: 5 },
        owner: None,
        params: Items::new(alloc),
        locals,
        ret: Ty::Void,
        pre: Items::new(alloc),
        post: Items::new(alloc),
        exits: Items::new(alloc),
        makes: 0,
        body,
    })?;
    Ok(Module {
        names: Items::new(alloc),
        classes: Items::new(alloc),
        methods,
        predicates: Items::new(alloc),
        main: 0,
        end: Place { line: 5, col: 1 },
    })
}

// The start of a run of a module with this body.
fn begun(alloc: Global, m: &Module) -> Result<State, Fail> {
    Ok(start(alloc, m).map_err(|_| "no memory")?)
}

// What a step answers.
fn told(alloc: Global, m: &Module, s: &mut State, thread: u32) -> Result<String, Fail> {
    if !is_built(m, s) {
        return Err(Fail::from("not built"));
    }
    match step(alloc, m, s, thread) {
        Ok(moved) => Ok(format!(in alloc; "{moved:?}")?),
        Err(fault) => Ok(format!(in alloc; "{fault:?}")?),
    }
}

// A step of thread 0 that shows nothing.
fn quiet_step(alloc: Global, m: &Module, s: &mut State) -> Result<(), Fail> {
    if !is_built(m, s) || !can_move(m, s, 0) {
        return Err(Fail::from("cannot move"));
    }
    match step(alloc, m, s, 0) {
        Ok(Moved::Went(trace)) if trace.line.is_none() && trace.event.is_none() => Ok(()),
        _ => Err(Fail::from("no quiet step")),
    }
}

// Takes so many steps of thread 0, which show nothing.
fn walk(alloc: Global, m: &Module, s: &mut State, steps: usize) -> Result<(), Fail> {
    for _ in 0..steps {
        quiet_step(alloc, m, s)?;
    }
    Ok(())
}

#[test]
fn the_smallest_module_takes_eleven_steps(rt: HostRuntime) -> Result<(), Fail> {
    let alloc = rt.alloc();
    let m = module(alloc, small_body(alloc, 5)?)?;
    let mut s = begun(alloc, &m)?;
    walk(alloc, &m, &mut s, 9)?;
    let printed = told(alloc, &m, &mut s, 0)?;
    assert_eq!(rt;
        printed.as_str(),
        "Went(Trace { event: None, line: Some(Text { bytes: [51] }) })"
    );
    assert!(rt; can_move(&m, &s, 0) && !all_ended(&s) && !is_stuck(&m, &s));
    let ended = told(alloc, &m, &mut s, 0)?;
    assert_eq!(rt;
        ended.as_str(),
        "Went(Trace { event: Some(Event { thread: 0, form: Ended }), line: None })"
    );
    assert!(rt; !can_move(&m, &s, 0) && all_ended(&s) && !is_stuck(&m, &s));
    let over = told(alloc, &m, &mut s, 0)?;
    assert_eq!(rt; over.as_str(), "Same");
    Ok(())
}

#[test]
fn a_sum_past_128_bits_is_too_large_and_changes_nothing(rt: HostRuntime) -> Result<(), Fail> {
    let alloc = rt.alloc();
    let m = module(alloc, wide_body(alloc)?)?;
    let mut s = begun(alloc, &m)?;
    walk(alloc, &m, &mut s, 2)?;
    let first = told(alloc, &m, &mut s, 0)?;
    assert_eq!(rt; first.as_str(), "IntTooLarge(Place { line: 2, col: 49 })");
    let second = told(alloc, &m, &mut s, 0)?;
    assert_eq!(rt; second.as_str(), "IntTooLarge(Place { line: 2, col: 49 })");
    assert!(rt; can_move(&m, &s, 0));
    Ok(())
}

#[test]
fn a_false_assert_fails_at_its_statement(rt: HostRuntime) -> Result<(), Fail> {
    let alloc = rt.alloc();
    let m = module(alloc, small_body(alloc, 6)?)?;
    let mut s = begun(alloc, &m)?;
    walk(alloc, &m, &mut s, 7)?;
    let first = told(alloc, &m, &mut s, 0)?;
    assert_eq!(rt; first.as_str(), "Failed(Assert, Place { line: 3, col: 5 })");
    let second = told(alloc, &m, &mut s, 0)?;
    assert_eq!(rt;
        second.as_str(),
        "Failed(Assert, Place { line: 3, col: 5 })"
    );
    Ok(())
}

#[test]
fn a_line_has_the_texts_of_its_arguments(rt: HostRuntime) -> Result<(), Fail> {
    let alloc = rt.alloc();
    let m = module(alloc, printing_body(alloc)?)?;
    let mut s = begun(alloc, &m)?;
    walk(alloc, &m, &mut s, 4)?;
    if !is_built(&m, &s) {
        return Err(Fail::from("not built"));
    }
    match step(alloc, &m, &mut s, 0) {
        Ok(
            Moved::Went(
                Trace {
                    event: None,
                    line: Some(line),
                },
            ),
        ) => assert_eq!(rt; line.bytes(), b"False and -5".as_slice()),
        _ => return Err(Fail::from("no line")),
    }
    Ok(())
}

#[test]
fn a_thread_that_is_not_there_stays(rt: HostRuntime) -> Result<(), Fail> {
    let alloc = rt.alloc();
    let m = module(alloc, small_body(alloc, 5)?)?;
    let mut s = begun(alloc, &m)?;
    let absent = told(alloc, &m, &mut s, 1)?;
    assert_eq!(rt; absent.as_str(), "Same");
    assert!(rt; !can_move(&m, &s, 1));
    walk(alloc, &m, &mut s, 9)
}

#[test]
fn division_rounds_down_and_a_remainder_has_the_sign_of_its_divisor(
    rt: HostRuntime,
) -> Result<(), Fail> {
    let p = Place { line: 1, col: 1 };
    for (key, x, y, z) in [
        (4, 7, 2, 3),
        (4, -7, 2, -4),
        (4, 7, -2, -4),
        (4, -7, -2, 3),
        (4, -8, 2, -4),
        (4, 5, -1, -5),
        (5, 7, 2, 1),
        (5, -7, 2, 1),
        (5, 7, -2, -1),
        (5, -7, -2, -1),
        (5, -8, 2, 0),
        (5, i128::MIN, -1, 0),
    ] {
        assert_eq!(rt; on_numbers(p, key, x, y), Ok(Value::Num(z)));
    }
    let wide = Err(Stop::Halt(Halt::Wide(p)));
    assert_eq!(rt; on_numbers(p, 4, i128::MIN, -1), wide);
    assert_eq!(rt; on_numbers(p, 3, i128::MAX, 2), wide);
    Ok(())
}
