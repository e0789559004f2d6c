// Items on locks.
ghost use Rattle.std.specs.Prelude.{◌≡◌, slice_set, slice_get, drop, nat_eq, not, filter, ◌++◌, IfOk};
ghost use Rattle.machine_model.specs.Results.{tested, then_do};
ghost use Rattle.machine_model.specs.Heap as heaps;
ghost use Rattle.machine_model.specs.Sharing as sharing;
ghost use Rattle.machine_model.specs.Frames.{operand, stays_with};
ghost use Rattle.machine_model.specs.Frames as frames;
ghost use Rattle.machine_model.specs.Items.{acquires, takes_with, with_stack};
ghost use Rattle.machine_model.specs.declared.EventForm.TheVariants.{Released};
ghost use Rattle.machine_values.specs.Agreement.{Agrees};
ghost use Rattle.machine_values.specs.Bits.{has_128_bits};
ghost use Rattle.machine_items.specs.Deeds.{IsDeed};
ghost use Rattle.machine_items.specs.Tests.{release_tests};

use crate::control::{block_then_item, open_below};
use crate::fields::receiver_at;
use crate::going::{changing, going};
use crate::moment::Moment;
use machine_deeds::{Deed, FrameDeed, Gain, HeapDeed};
use machine_model::{EventForm, Halt, LockState, Object};
use machine_values::Stop;
use py_base::{Kind, OutOfMemory, Place};
use py_syntax::{Item, Module, Stmt, Value};
use sqlite_items::Items;
use std::alloc::Global;

fn is_held(heap: &[Object], lock: u32) -> bool
    ensures { result ≡ heaps.is_held heap.now lock }
{
    match heap.get(lock as usize) {
        Some(object) => match object.lock {
            Some(state) => state.owner.is_some(),
            None => false,
        },
        None => false,
    }
}

/// Whether a thread holds a lock.
pub fn owns(heap: &[Object], thread: u32, lock: u32) -> bool
    ensures { result ≡ heaps.owns heap.now thread lock }
{
    match heap.get(lock as usize) {
        Some(object) => match object.lock {
            Some(state) => state.owner == Some(thread),
            None => false,
        },
        None => false,
    }
}

// A lock with this owner, or none.
fn with_owner(heap: &[Object], lock: u32, owner: Option<u32>) -> Result<Object, Stop>
    ensures { Agrees (operand (heaps.with_owner heap.now lock owner)) result (λ o. slice_set heap.now lock o) }
{
    match heap.get(lock as usize) {
        Some(object) => match object.lock {
            Some(state) => {
                let fields = object.fields.copy()?;
                Ok(Object {
                    class: object.class,
                    fields,
                    lock: Some(LockState { owner, ..state }),
                })
            }
            None => Err(Stop::Halt(Halt::NoOperand)),
        },
        None => Err(Stop::Halt(Halt::NoOperand)),
    }
}

// A lock that the thread has taken; it waits where anyone holds it.
fn acquired(heap: &[Object], thread: u32, lock: u32) -> Result<Object, Stop>
    ensures { Agrees (sharing.acquired thread heap.now lock) result (λ o. slice_set heap.now lock o) }
{
    if is_held(heap, lock) {
        Err(Stop::Halt(Halt::Waits))
    } else {
        with_owner(heap, lock, Some(thread))
    }
}

/// `acquire` of the topmost lock.
pub fn acquire(alloc: Global, at: Moment<'_>, thread: u32, p: Place) -> Result<Deed, Stop>
    ensures { IsDeed (acquires thread p) at.entry result }
{
    let lock = receiver_at(p, 0, &at.frame.stack)?;
    let object = acquired(at.heap, thread, lock)?;
    let control = open_below(alloc, at.taken, &at.frame.control)?;
    Ok(Deed {
        heap: HeapDeed::Changes(lock, object),
        event: Some(EventForm::Acquired(lock)),
        ..going(changing(control, 1, Gain::Nothing))
    })
}

/// Takes the topmost lock and goes on with the body of a `with`.
pub fn take_with(
    alloc: Global,
    at: Moment<'_>,
    thread: u32,
    p: Place,
    body: &[Stmt],
) -> Result<Deed, Stop>
    ensures { IsDeed (takes_with thread p body.now) at.entry result }
{
    let lock = receiver_at(p, 0, &at.frame.stack)?;
    let object = acquired(at.heap, thread, lock)?;
    let end = Item::WithEnd(p, Value::Ref(lock), None);
    let control = block_then_item(alloc, at, body, end)?;
    Ok(Deed {
        heap: HeapDeed::Changes(lock, object),
        event: Some(EventForm::Acquired(lock)),
        ..going(changing(control, 1, Gain::Nothing))
    })
}

/// The caps without the one for a lock.
pub fn caps_without(
    alloc: Global,
    lock: u32,
    caps: &[(u32, i128)],
) -> Result<Items<(u32, i128)>, OutOfMemory>
    ensures { IfOk result (λ left. left ≡ frames.caps_without lock caps.now) }
{
    let mut left = Items::new(alloc);
    for cap in caps {
        if cap.0 != lock {
            left.push(*cap)?;
        }
    }
    Ok(left)
}

/// A lock that the thread has given back. Only its holder may, and then its invariant is tested.
#[tactic(auto, using(crate::proofs::Releasing::released_is))]
pub fn released(
    _m: &Module,
    heap: &[Object],
    thread: u32,
    lock: u32,
    p: Place,
    invariant: Result<(), Stop>,
) -> Result<Object, Stop>
    requires { Agrees (release_tests has_128_bits _m.now heap.now lock p) invariant (λ _. tt) }
    ensures { Agrees (sharing.released has_128_bits _m.now thread heap.now lock p) result (λ o. slice_set heap.now lock o) }
{
    if !owns(heap, thread, lock) {
        return Err(Stop::Halt(Halt::Failed(Kind::NotHeld, p)));
    }
    invariant?;
    with_owner(heap, lock, None)
}

/// `release` of this lock, which is on top of the stack. Its invariant was tested in the heap as it is.
pub fn release(
    alloc: Global,
    m: &Module,
    at: Moment<'_>,
    thread: u32,
    p: Place,
    lock: u32,
    invariant: Result<(), Stop>,
) -> Result<Deed, Stop>
    requires { Agrees (release_tests has_128_bits m.now at.heap.now lock p) invariant (λ _. tt) }
    ensures { IsDeed (λ heap f below. then_do (sharing.released has_128_bits m.now thread heap lock p) (λ changed. stays_with (Released lock) changed (sharing.without_cap lock (with_stack (drop 1 f.stack) f)) below)) at.entry result }
{
    let object = released(m, at.heap, thread, lock, p, invariant)?;
    let caps = caps_without(alloc, lock, at.frame.caps.as_slice())?;
    let control = open_below(alloc, at.taken, &at.frame.control)?;
    let frame = FrameDeed {
        caps: Some(caps),
        ..changing(control, 1, Gain::Nothing)
    };
    Ok(Deed {
        heap: HeapDeed::Changes(lock, object),
        event: Some(EventForm::Released(lock)),
        ..going(frame)
    })
}
