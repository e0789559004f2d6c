// What no clause says: that the calls succeed, with values from outside.
use machine_model::{Fields, Stack, State, start};
use py_base::Place;
use py_syntax::{Expr, ExprForm, Method, Module, PrintArg, Stmt, StmtForm, Ty, Value};
use sqlite_items::{Boxed, Items};
use std::alloc::{AllocError, Global};
use std::test::Fail;

#[test]
fn a_stack_gives_the_last_member_first(rt: HostRuntime) -> Result<(), Fail> {
    let mut stack = Stack::new(rt.alloc());
    for n in [1u8, 2, 3] {
        stack.push(n).map_err(|_| "no memory")?;
    }
    assert_eq!(rt; stack.pop(), Some(3));
    assert_eq!(rt; stack.pop(), Some(2));
    assert_eq!(rt; stack.pop(), Some(1));
    assert_eq!(rt; stack.pop(), None);
    Ok(())
}

#[test]
fn fields_keep_the_last_value_of_each_name(rt: HostRuntime) -> Result<(), Fail> {
    let mut fields = Fields::new(rt.alloc());
    for (name, value) in [(7, 1), (2, 5), (7, 3)] {
        fields
            .set(name, Value::Num(value))
            .map_err(|_| "no memory")?;
    }
    let copy = fields.copy().map_err(|_| "no memory")?;
    fields.set(2, Value::Nil).map_err(|_| "no memory")?;
    assert_eq!(rt; fields.get(7), Some(Value::Num(3)));
    assert_eq!(rt; fields.get(2), Some(Value::Nil));
    assert_eq!(rt; fields.get(1), None);
    assert_eq!(rt; copy.get(2), Some(Value::Num(5)));
    Ok(())
}

fn expr(line: u32, col: u32, ty: Ty, form: ExprForm) -> Expr {
    Expr {
        place: Place { line, col },
        ty,
        form,
    }
}

fn binary(alloc: Global, col: u32, ty: Ty, key: u16, a: Expr, b: Expr) -> Result<Expr, AllocError> {
    let form = ExprForm::Bin(key, Boxed::new(alloc, a)?, Boxed::new(alloc, b)?);
    Ok(expr(3, col, ty, form))
}

fn stmt(line: u32, form: StmtForm) -> Stmt {
    Stmt {
        place: Place { line, col: 5 },
        form,
    }
}

// `x = 3`, `assert x + 2 == 5` and `print(x)`.
fn body(alloc: Global) -> Result<Items<Stmt>, AllocError> {
    let mut body = Items::new(alloc);
    let three = expr(2, 9, Ty::Int, ExprForm::Num(3));
    body.push(stmt(2, StmtForm::Store(0, three)))?;
    let x = expr(3, 12, Ty::Int, ExprForm::Local(0));
    let two = expr(3, 16, Ty::Int, ExprForm::Num(2));
    let sum = binary(alloc, 14, Ty::Int, 1, x, two)?;
    let five = expr(3, 21, Ty::Int, ExprForm::Num(5));
    let equal = binary(alloc, 18, Ty::Bool, 11, sum, five)?;
    body.push(stmt(3, StmtForm::Check(equal)))?;
    let mut args = Items::new(alloc);
    args.push(PrintArg::Value(expr(4, 11, Ty::Int, ExprForm::Local(0))))?;
    body.push(stmt(4, StmtForm::Print(args)))?;
    Ok(body)
}

fn module(alloc: Global) -> Result<Module, AllocError> {
    let mut locals = Items::new(alloc);
    locals.push(Ty::Int)?;
    let mut methods = Items::new(alloc);
    methods.push(Method {
        name: 1,
        place: Place { line: 1, col: 5 },
        owner: None,
        params: Items::new(alloc),
        locals,
        ret: Ty::Void,
        pre: Items::new(alloc),
        post: Items::new(alloc),
        exits: Items::new(alloc),
        makes: 0,
        body: body(alloc)?,
    })?;
    Ok(Module {
        names: Items::new(alloc),
        classes: Items::new(alloc),
        methods,
        predicates: Items::new(alloc),
        main: 0,
        end: Place { line: 5, col: 1 },
    })
}

#[test]
fn a_run_starts_with_the_items_of_main_in_turn(rt: HostRuntime) -> Result<(), Fail> {
    let alloc = rt.alloc();
    let State { heap, mut threads } = start(alloc, &module(alloc)?).map_err(|_| "no memory")?;
    assert!(rt; heap.is_empty());
    let Some(mut thread) = threads.pop() else {
        return Err(Fail::from("no thread"));
    };
    assert!(rt; threads.pop().is_none());
    assert_eq!(rt; thread.own, None);
    assert!(rt; !thread.ended);
    let Some(mut frame) = thread.frames.pop() else {
        return Err(Fail::from("no frame"));
    };
    assert!(rt; thread.frames.pop().is_none());
    assert_eq!(rt; frame.method, 0);
    assert_eq!(rt; frame.store.as_slice(), [None].as_slice());
    for item in [
        "Begin",
        "Num(3)",
        "Store(0)",
        "Load(0)",
        "Num(2)",
        "Bin(Place { line: 3, col: 14 }, 1)",
        "Num(5)",
        "Bin(Place { line: 3, col: 18 }, 11)",
        "Check(Place { line: 3, col: 5 })",
        "Load(0)",
        "Print(Items { items: [Value(Expr { place: Place { line: 4, col: 11 }, ty: Int, form: Local(0) })] })",
        "End",
    ] {
        let Some(next) = frame.control.pop() else {
            return Err(Fail::from("no item"));
        };
        assert_eq!(rt; format!(in alloc; "{next:?}")?.as_str(), item);
    }
    assert!(rt; frame.control.pop().is_none());
    Ok(())
}
