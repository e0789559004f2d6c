// What each item does to the running frame, read off the frame without a change of it. `first` in the
// clauses says whether the item stands behind the mark at the start of `main`.
ghost use Rattle.std.specs.Prelude.{◌≡◌, Bool, List, [], IfSome, slice_get};
ghost use Rattle.machine_model.specs.declared.state.Object.{Object as Thing};
ghost use Rattle.machine_model.specs.declared.state.ThreadState.{ThreadState as Thread};
ghost use Rattle.machine_model.specs.Results.{Got, then_do};
ghost use Rattle.machine_model.specs.Frames.{pop_value, local_at, stored, stays};
ghost use Rattle.machine_model.specs.Items.{act, applies_binary, applies_unary, checks, prints, pushes, tests_not_nil, with_stack};
ghost use Rattle.machine_values.specs.Agreement.{Agrees};
ghost use Rattle.machine_values.specs.Bits.{has_128_bits};
ghost use Rattle.machine_step.specs.Built.{HasNoConditions, IsBuiltItem};
ghost use Rattle.machine_step.specs.Changes.{begun, done};

use crate::change::Deed;
use crate::ending::end;
use crate::print::print;
use machine_model::{Frame, Halt, Object};
use machine_values::{Stop, binary, local, test_divisor, top_truth, unary, value_at};
use py_base::{Kind, Place};
use py_syntax::{Item, Module, Value};
use std::alloc::Global;

fn load(i: u32, frame: &Frame) -> Result<Deed, Stop>
    ensures { (heap : List Thing) (first : Bool) → Agrees (pushes heap [] (begun first frame.now) (local_at i frame.now.store)) result (λ d. done d heap (begun first frame.now)) }
{
    Ok(Deed::pushing(0, local(i, &frame.store)?))
}

fn apply_unary(p: Place, key: u16, frame: &Frame) -> Result<Deed, Stop>
    ensures { (heap : List Thing) (first : Bool) → Agrees (applies_unary has_128_bits p key heap (begun first frame.now) []) result (λ d. done d heap (begun first frame.now)) }
{
    let a = value_at(0, &frame.stack)?;
    Ok(Deed::pushing(1, unary(p, key, a)?))
}

fn apply_binary(p: Place, key: u16, frame: &Frame) -> Result<Deed, Stop>
    ensures { (heap : List Thing) (first : Bool) → Agrees (applies_binary has_128_bits p key heap (begun first frame.now) []) result (λ d. done d heap (begun first frame.now)) }
{
    let b = value_at(0, &frame.stack)?;
    let a = value_at(1, &frame.stack)?;
    test_divisor(p, key, b)?;
    Ok(Deed::pushing(2, binary(p, key, a, b)?))
}

fn store(i: u32, frame: &Frame) -> Result<Deed, Stop>
    ensures { (heap : List Thing) (first : Bool) → Agrees (then_do (pop_value frame.now.stack) (λ v. then_do (stored i v.0 frame.now.store) (λ store. stays heap (record (begun first frame.now) { stack = v.1; store = store }) []))) result (λ d. done d heap (begun first frame.now)) }
{
    let value = value_at(0, &frame.stack)?;
    if i as usize >= frame.store.len() {
        return Err(Stop::Halt(Halt::NoOperand));
    }
    Ok(Deed::storing(i, value))
}

fn drop_value(frame: &Frame) -> Result<Deed, Stop>
    ensures { (heap : List Thing) (first : Bool) → Agrees (then_do (pop_value frame.now.stack) (λ v. stays heap (with_stack v.1 (begun first frame.now)) [])) result (λ d. done d heap (begun first frame.now)) }
{
    value_at(0, &frame.stack)?;
    Ok(Deed::dropping(1))
}

fn test_not_nil(p: Place, frame: &Frame) -> Result<Deed, Stop>
    ensures { (heap : List Thing) (first : Bool) → Agrees (tests_not_nil p heap (begun first frame.now) []) result (λ d. done d heap (begun first frame.now)) }
{
    match value_at(0, &frame.stack)? {
        Value::Nil => Err(Stop::Halt(Halt::Failed(Kind::NoneValue, p))),
        _ => Ok(Deed::dropping(0)),
    }
}

fn check(p: Place, frame: &Frame) -> Result<Deed, Stop>
    ensures { (heap : List Thing) (first : Bool) → Agrees (checks p heap (begun first frame.now) []) result (λ d. done d heap (begun first frame.now)) }
{
    if top_truth(&frame.stack)? {
        Ok(Deed::dropping(1))
    } else {
        Err(Stop::Halt(Halt::Failed(Kind::Assert, p)))
    }
}

/// What an item does.
pub fn deed_of(
    alloc: Global,
    m: &Module,
    thread: u32,
    heap: &[Object],
    item: &Item<Value>,
    frame: &Frame,
) -> Result<Deed, Stop>
    requires form { IsBuiltItem item.now }
    requires conditions { IfSome (slice_get m.now.methods frame.now.method) HasNoConditions }
    ensures { (threads : List Thread) (first : Bool) → Agrees (act has_128_bits m.now thread threads heap.now (begun first frame.now) [] item.now) result (λ d. done d heap.now (begun first frame.now)) }
{
    match item {
        Item::Begin => Err(Stop::Halt(Halt::NoOperand)),
        Item::Num(n) => Ok(Deed::pushing(0, Value::Num(*n))),
        Item::Truth(truth) => Ok(Deed::pushing(0, Value::Truth(*truth))),
        Item::Nil => Ok(Deed::pushing(0, Value::Nil)),
        Item::Load(i) => load(*i, frame),
        Item::Un(p, key) => apply_unary(*p, *key, frame),
        Item::Bin(p, key) => apply_binary(*p, *key, frame),
        Item::Store(i) => store(*i, frame),
        Item::Check(p) => check(*p, frame),
        Item::Print(args) => print(alloc, args.as_slice(), frame),
        Item::NotNil(p) => test_not_nil(*p, frame),
        Item::Drop => drop_value(frame),
        Item::Pass | Item::Fold(_, _) | Item::Unfold(_, _) => Ok(Deed::dropping(0)),
        Item::End => end(m, thread, heap, frame),
        _ => unreachable!(),
    }
}
