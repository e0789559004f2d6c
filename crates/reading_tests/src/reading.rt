// What no clause says: that contracts are read, and how.

use crate::build::{
    VALUE, atom, binary, expr, field, list_of, module, node, nodes, number, old, place, view,
};
use contract_reading::{Holder, Miss, read_assertion};
use machine_model::Object;
use py_syntax::{Assertion, AtomForm, Expr, ExprForm, Value};
use sqlite_items::{Boxed, Items};
use std::alloc::{AllocError, Global};
use std::test::Fail;

// What an assertion on object 0 is read as over a heap and the heap at the entry.
fn read(
    alloc: Global,
    a: &Assertion,
    heap: &[Object],
    before: &[Object],
) -> Result<Option<Miss>, Fail> {
    let m = module(alloc)?;
    let store = [Some(Value::Ref(0))];
    let seen = view(&m, heap, before, &store)?;
    Ok(read_assertion(alloc, &m, Holder::Anyone, seen, a).map_err(|_| "not read")?)
}

// The predicate at the first parameter.
fn whole_list(alloc: Global) -> Result<Assertion, AllocError> {
    list_of(alloc, 9, expr(1, ExprForm::Local(0)))
}

#[test]
fn a_predicate_over_a_cycle_of_objects_is_false(rt: HostRuntime) -> Result<(), Fail> {
    let alloc = rt.alloc();
    let heap = nodes(alloc, 2, Value::Ref(0))?;
    let found = read(alloc, &whole_list(alloc)?, heap.as_slice(), heap.as_slice())?;
    assert!(rt; found == Some(Miss::Untrue(place(9))));
    Ok(())
}

#[test]
fn a_list_of_three_nodes_is_one(rt: HostRuntime) -> Result<(), Fail> {
    let alloc = rt.alloc();
    let heap = nodes(alloc, 3, Value::Nil)?;
    let found = read(alloc, &whole_list(alloc)?, heap.as_slice(), heap.as_slice())?;
    assert!(rt; found.is_none());
    Ok(())
}

#[test]
fn a_node_without_a_field_is_none(rt: HostRuntime) -> Result<(), Fail> {
    let alloc = rt.alloc();
    let heap = nodes(alloc, 2, Value::Ref(2))?;
    let found = read(alloc, &whole_list(alloc)?, heap.as_slice(), heap.as_slice())?;
    assert!(rt; found == Some(Miss::Untrue(place(9))));
    Ok(())
}

// One node with a value.
fn one_node(alloc: Global, value: i128) -> Result<Items<Object>, Fail> {
    let mut heap = Items::new(alloc);
    heap.push(node(alloc, Value::Nil, value)?)?;
    Ok(heap)
}

// `a == z`
fn is_number(alloc: Global, a: Expr, z: i128) -> Result<Assertion, AllocError> {
    Ok(atom(7, AtomForm::True(binary(alloc, 11, a, number(z))?)))
}

#[test]
fn old_reads_the_heap_at_the_entry(rt: HostRuntime) -> Result<(), Fail> {
    let alloc = rt.alloc();
    let before = one_node(alloc, 1)?;
    let mut one = node(alloc, Value::Nil, 1)?;
    one.fields
        .set(VALUE, Value::Num(2))
        .map_err(|_| "no memory")?;
    one.fields
        .set(VALUE, Value::Num(3))
        .map_err(|_| "no memory")?;
    let mut heap = Items::new(alloc);
    heap.push(one)?;
    let was = is_number(alloc, old(alloc, field(alloc, VALUE)?)?, 1)?;
    let is = is_number(alloc, field(alloc, VALUE)?, 3)?;
    let is_not = is_number(alloc, field(alloc, VALUE)?, 1)?;
    assert!(rt; read(alloc, &was, heap.as_slice(), before.as_slice())?.is_none());
    assert!(rt; read(alloc, &is, heap.as_slice(), before.as_slice())?.is_none());
    let found = read(alloc, &is_not, heap.as_slice(), before.as_slice())?;
    assert!(rt; found == Some(Miss::Untrue(place(7))));
    Ok(())
}

#[test]
fn what_follows_an_undefined_condition_is_not_asked_for(rt: HostRuntime) -> Result<(), Fail> {
    let alloc = rt.alloc();
    let heap = one_node(alloc, 0)?;
    let quotient = binary(alloc, 4, number(1), field(alloc, VALUE)?)?;
    let condition = binary(alloc, 11, quotient, number(1))?;
    let never = atom(8, AtomForm::True(expr(8, ExprForm::Truth(false))));
    let a = atom(7, AtomForm::When(condition, Boxed::new(alloc, never)?));
    assert!(rt; read(alloc, &a, heap.as_slice(), heap.as_slice())?.is_none());
    Ok(())
}

#[test]
fn an_undefined_expression_is_false(rt: HostRuntime) -> Result<(), Fail> {
    let alloc = rt.alloc();
    let heap = one_node(alloc, 0)?;
    let quotient = binary(alloc, 4, number(1), field(alloc, VALUE)?)?;
    let a = is_number(alloc, quotient, 1)?;
    let found = read(alloc, &a, heap.as_slice(), heap.as_slice())?;
    assert!(rt; found == Some(Miss::Untrue(place(7))));
    Ok(())
}
