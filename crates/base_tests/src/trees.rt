// What no clause says: that a copy succeeds, and that it is written as what it copies.
use py_base::{Place, Text, Units};
use py_syntax::{
    Assertion, AtomForm, Expr, ExprForm, Instance, PrintArg, Stmt, StmtForm, Ty, Value,
};
use sqlite_items::{Boxed, Items};
use std::alloc::{AllocError, Global};
use std::test::Fail;

fn expr(col: u32, form: ExprForm) -> Expr {
    Expr {
        place: Place { line: 2, col },
        ty: Ty::Obj(3),
        form,
    }
}

fn instance(alloc: Global) -> Result<Instance, AllocError> {
    let mut args = Items::new(alloc);
    args.push(expr(5, ExprForm::Local(1)))?;
    args.push(expr(8, ExprForm::Num(-7)))?;
    Ok(Instance {
        place: Place { line: 2, col: 1 },
        pred: 4,
        args,
    })
}

// The field of an object, where an instance of a predicate is unfolded.
fn opened(alloc: Global) -> Result<Expr, AllocError> {
    let object = Boxed::new(alloc, expr(20, ExprForm::Local(1)))?;
    let field = Boxed::new(alloc, expr(22, ExprForm::Get(object, 6)))?;
    let instance = Boxed::new(alloc, instance(alloc)?)?;
    Ok(expr(1, ExprForm::Opened(instance, field)))
}

// A third of a field, where an expression holds.
fn assertion(alloc: Global) -> Result<Assertion, AllocError> {
    let place = Place { line: 3, col: 1 };
    let units = Units::of(1, 3).unwrap_or(Units::full());
    let access = Assertion {
        place,
        form: AtomForm::AccOf(opened(alloc)?, 6, units),
    };
    let condition = expr(9, ExprForm::Truth(true));
    Ok(Assertion {
        place,
        form: AtomForm::When(condition, Boxed::new(alloc, access)?),
    })
}

fn stmt(line: u32, form: StmtForm) -> Stmt {
    Stmt {
        place: Place { line, col: 5 },
        form,
    }
}

fn block(alloc: Global, line: u32, form: StmtForm) -> Result<Items<Stmt>, AllocError> {
    let mut block = Items::new(alloc);
    block.push(stmt(line, form))?;
    block.push(stmt(line, StmtForm::Pass))?;
    Ok(block)
}

fn print(alloc: Global) -> Result<StmtForm, AllocError> {
    let mut args = Items::new(alloc);
    args.push(PrintArg::Literal(Text::of(vec![in alloc; 97, 98]?)))?;
    args.push(PrintArg::Value(opened(alloc)?))?;
    Ok(StmtForm::Print(args))
}

fn repeated(alloc: Global) -> Result<StmtForm, AllocError> {
    let mut invariant = Items::new(alloc);
    invariant.push(assertion(alloc)?)?;
    let body = block(alloc, 9, print(alloc)?)?;
    Ok(StmtForm::Loop(invariant, expr(3, ExprForm::Nil), body))
}

// A loop that is tried, with a handler, an `else` block and a `finally` block.
fn tried(alloc: Global) -> Result<Stmt, AllocError> {
    let body = block(alloc, 10, repeated(alloc)?)?;
    let mut handlers = Items::new(alloc);
    handlers.push((2, block(alloc, 11, StmtForm::Raise(2))?))?;
    let other = block(alloc, 12, StmtForm::Break)?;
    let last = block(alloc, 13, StmtForm::Continue)?;
    Ok(stmt(10, StmtForm::Try(body, handlers, other, Some(last))))
}

#[test]
fn a_copy_is_written_as_its_original(rt: HostRuntime) -> Result<(), Fail> {
    let alloc = rt.alloc();
    let e = opened(alloc)?;
    let copy = e.copy(alloc).map_err(|_| "no memory")?;
    assert_eq!(rt; format!(in alloc; "{copy:?}")?, format!(in alloc; "{e:?}")?);
    let i = instance(alloc)?;
    let copy = i.copy(alloc).map_err(|_| "no memory")?;
    assert_eq!(rt; format!(in alloc; "{copy:?}")?, format!(in alloc; "{i:?}")?);
    let a = assertion(alloc)?;
    let copy = a.copy(alloc).map_err(|_| "no memory")?;
    assert_eq!(rt; format!(in alloc; "{copy:?}")?, format!(in alloc; "{a:?}")?);
    let s = tried(alloc)?;
    let copy = s.copy(alloc).map_err(|_| "no memory")?;
    assert_eq!(rt; format!(in alloc; "{copy:?}")?, format!(in alloc; "{s:?}")?);
    Ok(())
}
