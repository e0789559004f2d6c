// What no clause says: that calls are tested, and which faults come first.

use crate::build::{atom, expr, list_of, lock, method, module, nodes, number, only, place};
use contract_duties::{End, add_cap, call_tests, caps_of, exit_tests, measure_of};
use machine_model::{Frame, Object, Stack};
use py_syntax::{Assertion, AtomForm, ExprForm, Value};
use sqlite_items::Items;
use std::alloc::{AllocError, Global};
use std::test::Fail;

// A frame of a method with a measure.
fn frame(alloc: Global, measure: Option<i128>) -> Frame {
    Frame {
        method: 0,
        control: Stack::new(alloc),
        stack: Stack::new(alloc),
        store: Items::new(alloc),
        before: Items::new(alloc),
        measure,
        caps: Items::new(alloc),
        turns: Stack::new(alloc),
    }
}

// What the entry tests of a call from thread 7 answer, with the measure and the caps of the duties.
fn called(
    alloc: Global,
    heap: &[Object],
    caller: &Frame,
    args: &[Value],
    pre: Items<Assertion>,
) -> Result<String, Fail> {
    let m = module(alloc)?;
    if m.names.len() >= 4294967295 {
        return Err(Fail::from("too many names"));
    }
    let method = method(alloc, pre, Items::new(alloc))?;
    match call_tests(alloc, &m, 7, heap, place(5), caller, args, &method) {
        Ok(found) => {
            let measure = measure_of(found.as_slice());
            let caps = caps_of(alloc, found.as_slice()).map_err(|_| "no memory")?;
            let caps = caps.as_slice();
            Ok(format!(in alloc; "{measure:?} {caps:?}")?)
        }
        Err(stop) => Ok(format!(in alloc; "{stop:?}")?),
    }
}

// `MustTerminate(z)`
fn terminates(alloc: Global, z: i128) -> Result<Items<Assertion>, AllocError> {
    only(alloc, atom(8, AtomForm::Terminates(number(z))))
}

// `MustRelease(x, z)` of the first parameter
fn releases(z: i128) -> Assertion {
    atom(
        8,
        AtomForm::Releases(expr(1, ExprForm::Local(0)), Some(number(z))),
    )
}

#[test]
fn a_precondition_is_tested_at_the_call(rt: HostRuntime) -> Result<(), Fail> {
    let alloc = rt.alloc();
    let caller = frame(alloc, None);
    let pre = only(alloc, list_of(alloc, 9, expr(1, ExprForm::Local(0)))?)?;
    let heap = nodes(alloc, 2, Value::Ref(0))?;
    let found = called(alloc, heap.as_slice(), &caller, &[Value::Ref(0)], pre)?;
    assert_eq!(rt;
        found.as_str(),
        "Halt(Failed(PreValue, Place { line: 1, col: 5 }))"
    );
    Ok(())
}

#[test]
fn a_measure_falls(rt: HostRuntime) -> Result<(), Fail> {
    let alloc = rt.alloc();
    let equal = called(
        alloc,
        &[],
        &frame(alloc, Some(2)),
        &[],
        terminates(alloc, 2)?,
    )?;
    assert_eq!(rt;
        equal.as_str(),
        "Halt(Failed(Measure, Place { line: 1, col: 5 }))"
    );
    let lower = called(
        alloc,
        &[],
        &frame(alloc, Some(3)),
        &[],
        terminates(alloc, 2)?,
    )?;
    assert_eq!(rt; lower.as_str(), "Some(2) []");
    let none = called(alloc, &[], &frame(alloc, Some(3)), &[], Items::new(alloc))?;
    assert_eq!(rt;
        none.as_str(),
        "Halt(Failed(NoMeasure, Place { line: 1, col: 5 }))"
    );
    Ok(())
}

// What a contract with the duty for a lock at this owner answers.
fn locked(alloc: Global, owner: Option<u32>) -> Result<String, Fail> {
    let mut heap = Items::new(alloc);
    heap.push(lock(alloc, owner))?;
    let pre = only(alloc, releases(3))?;
    called(
        alloc,
        heap.as_slice(),
        &frame(alloc, None),
        &[Value::Ref(0)],
        pre,
    )
}

#[test]
fn a_duty_is_for_a_lock_that_is_held(rt: HostRuntime) -> Result<(), Fail> {
    let alloc = rt.alloc();
    let held = locked(alloc, Some(7))?;
    assert_eq!(rt; held.as_str(), "None [(0, 3)]");
    let not_held = locked(alloc, Some(6))?;
    assert_eq!(rt;
        not_held.as_str(),
        "Halt(Failed(NotHeld, Place { line: 1, col: 5 }))"
    );
    Ok(())
}

#[test]
fn the_lower_of_two_caps_holds(rt: HostRuntime) -> Result<(), Fail> {
    let alloc = rt.alloc();
    let mut caps = Items::new(alloc);
    add_cap(4, 9, &mut caps).map_err(|_| "no memory")?;
    add_cap(5, 1, &mut caps).map_err(|_| "no memory")?;
    add_cap(4, 6, &mut caps).map_err(|_| "no memory")?;
    add_cap(4, 8, &mut caps).map_err(|_| "no memory")?;
    assert!(rt; caps.as_slice() == [(4, 6), (5, 1)].as_slice());
    Ok(())
}

// What the tests at an end answer, of a contract whose postcondition is false.
fn ended(alloc: Global, end: End) -> Result<String, Fail> {
    let m = module(alloc)?;
    if m.names.len() >= 4294967295 {
        return Err(Fail::from("too many names"));
    }
    let post = only(
        alloc,
        atom(6, AtomForm::True(expr(6, ExprForm::Truth(false)))),
    )?;
    let method = method(alloc, Items::new(alloc), post)?;
    let answer = exit_tests(
        alloc,
        &m,
        7,
        &[],
        &frame(alloc, None),
        end,
        place(3),
        &method,
    );
    Ok(format!(in alloc; "{answer:?}")?)
}

#[test]
fn an_end_is_tested_by_its_own_conditions(rt: HostRuntime) -> Result<(), Fail> {
    let alloc = rt.alloc();
    let normal = ended(alloc, End::Normal(Value::Nil))?;
    assert_eq!(rt;
        normal.as_str(),
        "Err(Halt(Failed(PostValue, Place { line: 1, col: 6 })))"
    );
    let raised = ended(alloc, End::Raised(0))?;
    assert_eq!(rt;
        raised.as_str(),
        "Err(Halt(Failed(Undeclared, Place { line: 1, col: 3 })))"
    );
    Ok(())
}
