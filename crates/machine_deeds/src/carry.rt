// How a deed is carried out. What can fail comes first, and without memory it is undone.
ghost use Rattle.std.specs.Prelude.{◌≡◌, [], ◌∷◌, ◌++◌, slice_set, OnOk, OnErr, IfOk};
ghost use Rattle.std.specs.Option.{option_map};
ghost use Rattle.machine_model.specs.Steps.{state_after, with_started};
ghost use Rattle.machine_deeds.specs.Deeds.{done, frames_at, heap_after, moved, trace_of};

use crate::deed::{Deed, FramesDeed, HeapDeed};
use crate::threads::change_threads;
use machine_model::{Event, EventForm, Object, State, ThreadState, Trace};
use py_base::{OutOfMemory, Text};
use sqlite_items::Items;
use std::alloc::Global;

// An object becomes another one.
fn change_object(number: u32, object: Object, heap: &mut Items<Object>)
    ensures { heap.new ≡ slice_set heap.old number object }
{
    let number = number as usize;
    if number < heap.len() {
        heap.set(number, object);
    }
}

// An object is made, and the threads change.
#[tactic(auto, using(crate::proofs::Places::last_away))]
fn make_and_move(
    alloc: Global,
    object: Object,
    deed: FramesDeed,
    started: Option<ThreadState>,
    s: &mut State,
    thread: u32,
) -> Result<(), OutOfMemory>
    ensures heap { OnOk result (s.new.heap ≡ s.old.heap ++ object ∷ []) }
    ensures threads { OnOk result (s.new.threads ≡ with_started started (moved deed thread s.old.threads)) }
    ensures err { OnErr result (s.new ≡ s.old) }
{
    s.heap.push(object)?;
    match change_threads(alloc, deed, started, thread, &mut s.threads) {
        Ok(()) => Ok(()),
        Err(OutOfMemory) => {
            s.heap.pop();
            Err(OutOfMemory)
        }
    }
}

fn change_state(
    alloc: Global,
    heap: HeapDeed,
    deed: FramesDeed,
    started: Option<ThreadState>,
    s: &mut State,
    thread: u32,
) -> Result<(), OutOfMemory>
    ensures heap { OnOk result (s.new.heap ≡ heap_after heap s.old.heap) }
    ensures threads { OnOk result (s.new.threads ≡ with_started started (moved deed thread s.old.threads)) }
    ensures err { OnErr result (s.new ≡ s.old) }
{
    match heap {
        HeapDeed::Same => change_threads(alloc, deed, started, thread, &mut s.threads),
        HeapDeed::Changes(number, object) => {
            change_threads(alloc, deed, started, thread, &mut s.threads)?;
            change_object(number, object, &mut s.heap);
            Ok(())
        }
        HeapDeed::Makes(object) => make_and_move(alloc, object, deed, started, s, thread),
    }
}

fn trace(thread: u32, event: Option<EventForm>, line: Option<Text>) -> Trace
    ensures { result ≡ record { event = option_map (λ form. record { thread = thread; form = form }) event; line = line } }
{
    match event {
        Some(form) => Trace {
            event: Some(Event { thread, form }),
            line,
        },
        None => Trace { event: None, line },
    }
}

/// Carries out what an item of a thread does. Without memory the state is as it was.
pub fn carry_out(
    alloc: Global,
    deed: Deed,
    s: &mut State,
    thread: u32,
) -> Result<Trace, OutOfMemory>
    ensures ok { OnOk result (s.new ≡ state_after s.old thread (done deed s.old.heap (frames_at s.old thread))) }
    ensures trace { IfOk result (λ trace. trace ≡ trace_of thread (done deed s.old.heap (frames_at s.old thread))) }
    ensures err { OnErr result (s.new ≡ s.old) }
{
    let Deed {
        heap,
        frames,
        started,
        event,
        line,
    } = deed;
    change_state(alloc, heap, frames, started, s, thread)?;
    Ok(trace(thread, event, line))
}
