// Modules, contracts and heaps that are built by hand. Field 1 is `next`, and field 2 is `value`.

use contract_reading::View;
use machine_model::{Fields, LockState, Object};
use py_base::{Place, Units};
use py_syntax::{Assertion, AtomForm, Expr, ExprForm, Instance, Method, Module, Pred, Ty, Value};
use sqlite_items::{Boxed, Items};
use std::alloc::{AllocError, Global};
use std::test::Fail;

pub const NEXT: u32 = 1;

pub const VALUE: u32 = 2;

pub fn place(col: u32) -> Place {
    Place { line: 1, col }
}

pub fn expr(col: u32, form: ExprForm) -> Expr {
    Expr {
        place: place(col),
        ty: Ty::Int,
        form,
    }
}

pub fn number(z: i128) -> Expr {
    expr(1, ExprForm::Num(z))
}

// A field of the first parameter.
pub fn field(alloc: Global, name: u32) -> Result<Expr, AllocError> {
    let first = Boxed::new(alloc, expr(1, ExprForm::Local(0)))?;
    Ok(expr(1, ExprForm::Get(first, name)))
}

pub fn old(alloc: Global, e: Expr) -> Result<Expr, AllocError> {
    Ok(expr(1, ExprForm::Old(Boxed::new(alloc, e)?)))
}

pub fn binary(alloc: Global, key: u16, a: Expr, b: Expr) -> Result<Expr, AllocError> {
    let form = ExprForm::Bin(key, Boxed::new(alloc, a)?, Boxed::new(alloc, b)?);
    Ok(expr(1, form))
}

pub fn atom(col: u32, form: AtomForm) -> Assertion {
    Assertion {
        place: place(col),
        form,
    }
}

pub fn only(alloc: Global, a: Assertion) -> Result<Items<Assertion>, AllocError> {
    let mut all = Items::new(alloc);
    all.push(a)?;
    Ok(all)
}

// The predicate 0 of an argument.
pub fn list_of(alloc: Global, col: u32, argument: Expr) -> Result<Assertion, AllocError> {
    let mut args = Items::new(alloc);
    args.push(argument)?;
    Ok(atom(
        col,
        AtomForm::Holds(Instance {
            place: place(col),
            pred: 0,
            args,
        }),
    ))
}

// `Acc(x.next) and Implies(x.next is not None, list_of(x.next))`
fn list_body(alloc: Global) -> Result<Assertion, AllocError> {
    let mut parts = Items::new(alloc);
    let x = expr(1, ExprForm::Local(0));
    parts.push(atom(2, AtomForm::AccOf(x, NEXT, Units::full())))?;
    let there = binary(alloc, 16, field(alloc, NEXT)?, expr(1, ExprForm::Nil))?;
    let more = list_of(alloc, 4, field(alloc, NEXT)?)?;
    let behind = Boxed::new(alloc, more)?;
    parts.push(atom(3, AtomForm::When(there, behind)))?;
    Ok(atom(1, AtomForm::Both(parts)))
}

// A module with that predicate.
pub fn module(alloc: Global) -> Result<Module, AllocError> {
    let mut params = Items::new(alloc);
    params.push(Ty::Opt(1))?;
    let mut predicates = Items::new(alloc);
    predicates.push(Pred {
        name: 0,
        place: place(1),
        params,
        body: list_body(alloc)?,
    })?;
    Ok(Module {
        names: Items::new(alloc),
        classes: Items::new(alloc),
        methods: Items::new(alloc),
        predicates,
        main: 0,
        end: place(1),
    })
}

// A method with this contract.
pub fn method(
    alloc: Global,
    pre: Items<Assertion>,
    post: Items<Assertion>,
) -> Result<Method, AllocError> {
    let mut params = Items::new(alloc);
    params.push(Ty::Opt(1))?;
    Ok(Method {
        name: 0,
        place: place(1),
        owner: None,
        params,
        locals: Items::new(alloc),
        ret: Ty::Void,
        pre,
        post,
        exits: Items::new(alloc),
        makes: 0,
        body: Items::new(alloc),
    })
}

// An object with these two fields.
pub fn node(alloc: Global, next: Value, value: i128) -> Result<Object, Fail> {
    let mut fields = Fields::new(alloc);
    fields.set(NEXT, next).map_err(|_| "no memory")?;
    fields
        .set(VALUE, Value::Num(value))
        .map_err(|_| "no memory")?;
    Ok(Object {
        class: 1,
        fields,
        lock: None,
    })
}

// A lock of a thread, or of none.
pub fn lock(alloc: Global, owner: Option<u32>) -> Object {
    Object {
        class: 2,
        fields: Fields::new(alloc),
        lock: Some(LockState {
            owner,
            locked: 0,
            level: 1,
        }),
    }
}

// Nodes one behind another, the last of which has this one behind it.
pub fn nodes(alloc: Global, count: u32, last: Value) -> Result<Items<Object>, Fail> {
    let mut heap = Items::new(alloc);
    for at in 1..count {
        heap.push(node(alloc, Value::Ref(at), 0)?)?;
    }
    heap.push(node(alloc, last, 0)?)?;
    Ok(heap)
}

// What a contract with one parameter is read in.
pub fn view<'a>(
    m: &Module,
    heap: &'a [Object],
    before: &'a [Object],
    store: &'a [Option<Value>],
) -> Result<View<'a>, Fail> {
    if m.names.len() >= 4294967295 {
        return Err(Fail::from("too many names"));
    }
    Ok(View::of(m, heap, before, store, None))
}
