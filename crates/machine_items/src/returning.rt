// The end of a call, and what its caller goes on with.
ghost use Rattle.std.specs.Prelude.{◌≡◌, List, ◌∷◌, drop, slice_get, Some, IfOk};
ghost use Rattle.std.specs.Option.{option_map};
ghost use Rattle.py_syntax.specs.WaysOut.{Normal, Raised};
ghost use Rattle.machine_model.specs.declared.Frame.{Frame as Activation};
ghost use Rattle.machine_model.specs.Calls as calls;
ghost use Rattle.machine_model.specs.Frames as frames;
ghost use Rattle.machine_model.specs.Frames.{stays};
ghost use Rattle.machine_deeds.specs.Deeds.{done};
ghost use Rattle.machine_values.specs.Agreement.{Agrees};
ghost use Rattle.machine_values.specs.Bits.{has_128_bits};
ghost use Rattle.machine_items.specs.Deeds.{running};
ghost use Rattle.machine_items.specs.Callers as callers;

use crate::control::open_below;
use crate::locks::owns;
use crate::moment::Moment;
use machine_deeds::{Deed, Ended, FrameDeed, FramesDeed, Gain, HeapDeed};
use machine_model::{Frame, Halt, Object};
use machine_values::Stop;
use py_base::{OutOfMemory, Place};
use py_syntax::{Gives, Item, Module, Value};
use sqlite_items::Items;
use std::alloc::Global;

/// The call that a frame waits for: its place, the method that the text names, and what it gives.
pub fn awaited(caller: &Frame) -> Option<(Place, u32, Gives<Value>)>
    ensures { result ≡ callers.called_of caller.now.control }
{
    match caller.control.get(0) {
        Some(Item::Called(p, seen, gives)) => Some((*p, *seen, *gives)),
        _ => None,
    }
}

fn given_back(gives: Gives<Value>, value: Value) -> Gain
    ensures { result ≡ callers.gain_of gives value }
{
    match gives {
        Gives::Result => Gain::OnStack(value),
        Gives::Made(object) => Gain::OnStack(object),
        Gives::Nothing => Gain::Nothing,
    }
}

/// The caps that stay once a call has ended: those for locks that the thread owns.
pub fn kept_caps(
    alloc: Global,
    heap: &[Object],
    thread: u32,
    caps: &[(u32, i128)],
) -> Result<Items<(u32, i128)>, OutOfMemory>
    ensures { IfOk result (λ kept. kept ≡ frames.kept_caps heap.now thread caps.now) }
{
    let mut kept = Items::new(alloc);
    for cap in caps {
        if owns(heap, thread, cap.0) {
            kept.push(*cap)?;
        }
    }
    Ok(kept)
}

// The caller goes on with what the call gives.
#[tactic(auto, using(crate::proofs::Calling::given_is))]
fn resumed(
    alloc: Global,
    at: Moment<'_>,
    thread: u32,
    value: Value,
    gives: Gives<Value>,
    caller: &Frame,
) -> Result<Deed, Stop>
    ensures { (below : List Activation) → Agrees (calls.call_ended at.entry.frame.now.method (Normal value) (stays at.entry.heap.now (record (calls.resumed thread at.entry.heap.now (drop 1 caller.now.control) caller.now) { stack = calls.given_back gives value caller.now.stack }) below)) result (λ d. done d at.entry.heap.now (at.entry.frame.now ∷ caller.now ∷ below)) }
{
    let control = open_below(alloc, 1, &caller.control)?;
    let caps = kept_caps(alloc, at.heap, thread, caller.caps.as_slice())?;
    let frame = FrameDeed {
        control,
        values_dropped: 0,
        turns_dropped: 0,
        gain: given_back(gives, value),
        stored: None,
        caps: Some(caps),
    };
    Ok(Deed {
        heap: HeapDeed::Same,
        frames: FramesDeed::Leaves(frame, Ended::Normally(value)),
        started: None,
        event: None,
        line: None,
    })
}

/// A caller that waits goes on with the result of the running frame, whose tests were made.
#[tactic(auto, using(crate::proofs::Calling::returns_to, crate::proofs::Calling::returns_nowhere))]
pub fn return_to(
    alloc: Global,
    m: &Module,
    at: Moment<'_>,
    thread: u32,
    value: Value,
    caller: &Frame,
    tests: Result<(), Stop>,
) -> Result<Deed, Stop>
    requires { Agrees (callers.caller_tests has_128_bits m.now thread at.heap.now (running at) (Normal value) caller.now.control) tests (λ _. tt) }
    ensures { (below : List Activation) → Agrees (calls.return_to has_128_bits m.now thread at.entry.heap.now (running at.entry) value caller.now below caller.now.control) result (λ d. done d at.entry.heap.now (at.entry.frame.now ∷ caller.now ∷ below)) }
{
    match awaited(caller) {
        Some((_, _, gives)) => {
            tests?;
            resumed(alloc, at, thread, value, gives, caller)
        }
        None => Err(Stop::Halt(Halt::NoOperand)),
    }
}
