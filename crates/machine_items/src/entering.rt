// The entry of a call.
ghost use Rattle.std.specs.Prelude.{◌≡◌, [], ◌∷◌, ◌++◌, map, replicate, drop, slice_get, Some, None, IfOk};
ghost use Rattle.machine_model.specs.Results.{then_do};
ghost use Rattle.machine_model.specs.Frames.{goes_on, operand};
ghost use Rattle.py_syntax.specs.declared.Item.TheVariants.{Called};
ghost use Rattle.machine_model.specs.Items.{with_stack};
ghost use Rattle.machine_model.specs.Calls as calls;
ghost use Rattle.machine_values.specs.Agreement.{Agrees};
ghost use Rattle.machine_values.specs.Bits.{has_128_bits};
ghost use Rattle.machine_items.specs.Deeds.{IsDeed, running};
ghost use Rattle.machine_items.specs.Entries.{entered_with, duties_read};

use crate::going::changing;
use crate::moment::Moment;
use machine_deeds::{ControlDeed, Deed, FramesDeed, Gain, HeapDeed};
use machine_model::{Frame, Halt, Object, Stack, method_control};
use machine_values::Stop;
use py_base::{OutOfMemory, Place};
use py_syntax::{Gives, Item, Method, Module, Value};
use sqlite_items::Items;
use std::alloc::Global;

/// The measure and the caps that a contract gives a frame.
#[derive(Debug, Drop)]
pub struct Duties {
    pub measure: Option<i128>,
    pub caps: Items<(u32, i128)>,
}

/// The call that an item makes: its place, the method that the text names, the method that runs, and what
/// the call gives.
#[derive(Clone, Copy, Debug, PartialEq, Eq)]
pub struct Entry {
    pub place: Place,
    pub seen: u32,
    pub run: u32,
    pub gives: Gives<Value>,
}

fn copy_object(object: &Object) -> Result<Object, OutOfMemory>
    ensures { IfOk result (λ copy. copy ≡ object.now) }
{
    Ok(Object {
        class: object.class,
        fields: object.fields.copy()?,
        lock: object.lock,
    })
}

/// An equal heap.
pub fn copy_heap(alloc: Global, heap: &[Object]) -> Result<Items<Object>, OutOfMemory>
    ensures { IfOk result (λ copy. copy ≡ heap.now) }
{
    let mut copy = Items::new(alloc);
    for object in heap {
        copy.push(copy_object(object)?)?;
    }
    Ok(copy)
}

// The locals at an entry: the arguments, and locals without a value.
fn first_store(
    alloc: Global,
    args: &[Value],
    locals: usize,
) -> Result<Items<Option<Value>>, OutOfMemory>
    ensures { IfOk result (λ store. store ≡ map (λ v. Some v) args.now ++ replicate locals None) }
{
    let mut store = given(alloc, args)?;
    store.append(Items::from_vec(vec![in alloc; None; locals]?))?;
    Ok(store)
}

fn given(alloc: Global, args: &[Value]) -> Result<Items<Option<Value>>, OutOfMemory>
    ensures { IfOk result (λ store. store ≡ map (λ v. Some v) args.now) }
{
    let mut store = Items::new(alloc);
    for value in args {
        store.push(Some(*value))?;
    }
    Ok(store)
}

/// The frame of a method as it is entered.
pub fn entered(
    alloc: Global,
    number: u32,
    method: &Method,
    heap: &[Object],
    args: &[Value],
    duties: Duties,
) -> Result<Frame, OutOfMemory>
    ensures { IfOk result (λ f. f ≡ entered_with number method.now heap.now args.now duties.measure duties.caps) }
{
    let control = method_control(alloc, method)?;
    let store = first_store(alloc, args, method.locals.len())?;
    Ok(Frame {
        method: number,
        control,
        stack: Stack::new(alloc),
        store,
        before: copy_heap(alloc, heap)?,
        measure: duties.measure,
        caps: duties.caps,
        turns: Stack::new(alloc),
    })
}

// The control of a caller as it waits.
fn waiting(alloc: Global, at: Moment<'_>, entry: Entry) -> Result<ControlDeed, OutOfMemory>
    ensures { IfOk result (λ c. c ≡ record { dropped = at.entry.taken; items = Called entry.place entry.seen entry.gives ∷ [] }) }
{
    let mut items = Stack::new(alloc);
    items.push(Item::Called(entry.place, entry.seen, entry.gives))?;
    Ok(ControlDeed {
        dropped: at.taken,
        items,
    })
}

// Enters a method with these arguments, this measure and these caps.
fn enter_with(
    alloc: Global,
    m: &Module,
    at: Moment<'_>,
    entry: Entry,
    args: &[Value],
    values_dropped: usize,
    duties: Duties,
) -> Result<Deed, Stop>
    ensures { IsDeed (λ heap f below. then_do (operand (slice_get m.now.methods entry.run)) (λ run. goes_on heap (entered_with entry.run run heap args.now duties.measure duties.caps ∷ calls.waiting entry.place entry.seen entry.gives (with_stack (drop values_dropped f.stack) f) ∷ below))) at.entry result }
{
    let Some(method) = m.methods.get(entry.run as usize) else {
        return Err(Stop::Halt(Halt::NoOperand));
    };
    let frame = entered(alloc, entry.run, method, at.heap, args, duties)?;
    let control = waiting(alloc, at, entry)?;
    Ok(Deed {
        heap: HeapDeed::Same,
        frames: FramesDeed::Enters(changing(control, values_dropped, Gain::Nothing), frame),
        started: None,
        event: None,
        line: None,
    })
}

/// Enters a method with these arguments, for which so many values are dropped, where the tests of both
/// contracts were made and gave the measure and the caps.
#[tactic(auto, using(crate::proofs::Entrances::enters))]
pub fn enter(
    alloc: Global,
    m: &Module,
    at: Moment<'_>,
    _thread: u32,
    entry: Entry,
    args: &[Value],
    values_dropped: usize,
    duties: Result<Duties, Stop>,
) -> Result<Deed, Stop>
    requires { Agrees (duties_read has_128_bits m.now _thread at.heap.now entry.place entry.seen entry.run args.now (with_stack (drop values_dropped (running at).stack) (running at))) duties (λ d. (d.measure, d.caps)) }
    ensures { IsDeed (λ heap f below. calls.enter has_128_bits m.now _thread heap entry.place entry.seen entry.run entry.gives args.now (with_stack (drop values_dropped f.stack) f) below) at.entry result }
{
    match duties {
        Ok(duties) => enter_with(alloc, m, at, entry, args, values_dropped, duties),
        Err(stop) => Err(stop),
    }
}
