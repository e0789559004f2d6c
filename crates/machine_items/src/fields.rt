// Items that read and write fields.
ghost use Rattle.std.specs.Prelude.{◌≡◌, ◌+◌, drop, slice_set, true, if◌then◌else◌};
ghost use Rattle.std.specs.Prelude.{false};
ghost use Rattle.std.specs.Option.{option_map_or};
ghost use Rattle.machine_model.specs.Results.{of_option, tested, then_do};
ghost use Rattle.machine_model.specs.Heap as heaps;
ghost use Rattle.machine_model.specs.Frames.{operand, pop_receiver};
ghost use Rattle.machine_model.specs.Items.{pushes, reads_field, with_stack, writes_back, writes_field, writes_under};
ghost use Rattle.machine_model.specs.declared.Halt.TheVariants.{Failed};
ghost use Rattle.py_base.specs.declared.Kind.TheVariants.{NoneReceiver};
ghost use Rattle.machine_values.specs.Agreement.{Agrees};
ghost use Rattle.machine_items.specs.Deeds.{IsDeed};

use crate::control::open_below;
use crate::going::{changing, going, pushing};
use crate::moment::Moment;
use machine_deeds::{Deed, Gain, HeapDeed};
use machine_model::{EventForm, Halt, Object, Stack};
use machine_values::{Stop, value_at};
use py_base::{Kind, Place};
use py_syntax::Value;
use std::alloc::Global;

/// The reference below so many values. None there is a fault at the place.
#[tactic(auto, using(crate::proofs::Depths::popped, crate::proofs::Depths::not_popped))]
pub fn receiver_at(p: Place, depth: usize, stack: &Stack<Value>) -> Result<u32, Stop>
    ensures { Agrees (pop_receiver p (drop depth stack.now)) result (λ r. (r, drop (depth + 1) stack.now)) }
{
    match value_at(depth, stack)? {
        Value::Ref(r) => Ok(r),
        Value::Nil => Err(Stop::Halt(Halt::Failed(Kind::NoneReceiver, p))),
        _ => Err(Stop::Halt(Halt::NoOperand)),
    }
}

// The value of a field of an object. A field that isn't there is a fault at the place.
fn field(p: Place, heap: &[Object], r: u32, name: u32) -> Result<Value, Stop>
    ensures { Agrees (of_option (Failed NoneReceiver p) (heaps.field_of heap.now r name)) result (λ v. v) }
{
    match field_of(heap, r, name) {
        Some(value) => Ok(value),
        None => Err(Stop::Halt(Halt::Failed(Kind::NoneReceiver, p))),
    }
}

// The value of a field of an object, if the object has it.
fn field_of(heap: &[Object], r: u32, name: u32) -> Option<Value>
    ensures { result ≡ heaps.field_of heap.now r name }
{
    match heap.get(r as usize) {
        Some(object) => object.fields.get(name),
        None => None,
    }
}

// The object that a lock locks.
fn locked_of(heap: &[Object], r: u32) -> Result<Value, Stop>
    ensures { Agrees (operand (heaps.locked_of heap.now r)) result (λ v. v) }
{
    match heap.get(r as usize) {
        Some(object) => match object.lock {
            Some(lock) => Ok(Value::Ref(lock.locked)),
            None => Err(Stop::Halt(Halt::NoOperand)),
        },
        None => Err(Stop::Halt(Halt::NoOperand)),
    }
}

// An object with this value in a field.
fn with_field(heap: &[Object], r: u32, name: u32, value: Value) -> Result<Object, Stop>
    ensures { Agrees (operand (heaps.with_field heap.now r name value)) result (λ o. slice_set heap.now r o) }
{
    match heap.get(r as usize) {
        Some(object) => {
            let mut fields = object.fields.copy()?;
            fields.set(name, value)?;
            Ok(Object {
                class: object.class,
                fields,
                lock: object.lock,
            })
        }
        None => Err(Stop::Halt(Halt::NoOperand)),
    }
}

// That a field is there, or is made.
fn test_field(makes: bool, p: Place, heap: &[Object], r: u32, name: u32) -> Result<(), Stop>
    ensures { Agrees (tested NoneReceiver p (if makes then true else option_map_or (λ w. true) (heaps.field_of heap.now r name) false)) result (λ _. tt) }
{
    if makes || field_of(heap, r, name).is_some() {
        Ok(())
    } else {
        Err(Stop::Halt(Halt::Failed(Kind::NoneReceiver, p)))
    }
}

/// Reads a field of the topmost object, which stays below where it is kept.
#[tactic(auto, using(crate::proofs::Depths::receiver_there))]
pub fn read_field(
    alloc: Global,
    at: Moment<'_>,
    kept: bool,
    p: Place,
    name: u32,
) -> Result<Deed, Stop>
    ensures { IsDeed (reads_field kept p name) at.entry result }
{
    let r = receiver_at(p, 0, &at.frame.stack)?;
    let value = field(p, at.heap, r, name)?;
    let control = open_below(alloc, at.taken, &at.frame.control)?;
    let dropped = if kept { 0 } else { 1 };
    Ok(Deed {
        event: Some(EventForm::Read(r, name)),
        ..going(changing(control, dropped, Gain::OnStack(value)))
    })
}

/// Replaces a lock by its object.
pub fn locked(alloc: Global, at: Moment<'_>, p: Place) -> Result<Deed, Stop>
    ensures { IsDeed (λ heap f below. then_do (pop_receiver p f.stack) (λ l. pushes heap below (with_stack l.1 f) (operand (heaps.locked_of heap l.0)))) at.entry result }
{
    let lock = receiver_at(p, 0, &at.frame.stack)?;
    let value = locked_of(at.heap, lock)?;
    pushing(alloc, at, 1, value)
}

// Writes a value to a field that is there, or makes it; two values are dropped.
fn write_field(
    alloc: Global,
    at: Moment<'_>,
    makes: bool,
    p: Place,
    name: u32,
    r: u32,
    value: Value,
) -> Result<Deed, Stop>
    ensures { IsDeed (λ heap f below. writes_field makes p name r value (drop 2 f.stack) heap f below) at.entry result }
{
    test_field(makes, p, at.heap, r, name)?;
    let object = with_field(at.heap, r, name, value)?;
    let control = open_below(alloc, at.taken, &at.frame.control)?;
    Ok(Deed {
        heap: HeapDeed::Changes(r, object),
        event: Some(EventForm::Wrote(r, name)),
        ..going(changing(control, 2, Gain::Nothing))
    })
}

/// Writes the value below the topmost object to its field, or makes the field.
pub fn write_under(
    alloc: Global,
    at: Moment<'_>,
    makes: bool,
    p: Place,
    name: u32,
) -> Result<Deed, Stop>
    ensures { IsDeed (writes_under makes p name) at.entry result }
{
    let r = receiver_at(p, 0, &at.frame.stack)?;
    let value = value_at(1, &at.frame.stack)?;
    write_field(alloc, at, makes, p, name, r, value)
}

/// Writes the topmost value to a field of the object below it.
pub fn write_back(alloc: Global, at: Moment<'_>, p: Place, name: u32) -> Result<Deed, Stop>
    ensures { IsDeed (writes_back p name) at.entry result }
{
    let value = value_at(0, &at.frame.stack)?;
    let r = receiver_at(p, 1, &at.frame.stack)?;
    write_field(alloc, at, false, p, name, r, value)
}
