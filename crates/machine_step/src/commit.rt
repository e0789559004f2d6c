// How a plan is carried out. What can fail comes first, so that the state is as it was without memory.
ghost use Rattle.std.specs.Prelude.{◌≡◌, [], Bool, All, None, true, drop, slice_get, IsSomeAnd, OnOk, OnErr, IfOk};
ghost use Rattle.machine_model.specs.Steps.{state_after};
ghost use Rattle.machine_step.specs.declared.change.Deed.TheVariants.{Stays, Ends};
ghost use Rattle.machine_step.specs.Built.{IsBuiltItem, IsRunning};
ghost use Rattle.machine_step.specs.Changes.{begun, changed, frames_at, planned, pushed_on, stored_in};
ghost use Rattle.machine_step.specs.Stepping.{trace_of};

use crate::change::{Change, Deed, Plan};
use machine_model::{Event, EventForm, Frame, Stack, State, ThreadState, Trace};
use py_base::OutOfMemory;
use py_syntax::Value;
use sqlite_items::Items;
use std::alloc::Global;

fn change_stack(
    drops: usize,
    pushes: Option<Value>,
    stack: &mut Stack<Value>,
) -> Result<(), OutOfMemory>
    ensures ok { OnOk result (stack.new ≡ pushed_on pushes (drop drops stack.old)) }
    ensures err { OnErr result (stack.new ≡ stack.old) }
{
    match pushes {
        Some(value) => stack.put(drops, value),
        None => {
            stack.drop_top(drops);
            Ok(())
        }
    }
}

fn change_store(stores: Option<(u32, Value)>, store: &mut Items<Option<Value>>)
    ensures { store.new ≡ stored_in stores store.old }
{
    if let Some((i, value)) = stores {
        let i = i as usize;
        if i < store.len() {
            store.set(i, Some(value));
        }
    }
}

// The items are of built forms, so no `finally` block is entered.
#[tactic(auto, using(crate::proofs::Opened::opened_drop))]
fn change_frame(
    alloc: Global,
    first: bool,
    change: &Change,
    frame: &mut Frame,
) -> Result<(), OutOfMemory>
    requires { All IsBuiltItem frame.old.control }
    ensures ok { OnOk result (frame.new ≡ changed change.now (begun first frame.old)) }
    ensures err { OnErr result (frame.new ≡ frame.old) }
{
    change_stack(change.drops, change.pushes, &mut frame.stack)?;
    change_store(change.stores, &mut frame.store);
    if first {
        frame.control.drop_top(2);
        frame.measure = None;
        frame.caps = Items::new(alloc);
    } else {
        frame.control.drop_top(1);
    }
    Ok(())
}

// What stands in the place of a frame while it changes.
fn no_frame(alloc: Global) -> Frame
    ensures { result.control ≡ [] }
{
    Frame {
        method: 0,
        control: Stack::new(alloc),
        stack: Stack::new(alloc),
        store: Items::new(alloc),
        before: Items::new(alloc),
        measure: None,
        caps: Items::new(alloc),
        turns: Stack::new(alloc),
    }
}

// What stands in the place of a thread while it changes.
fn no_thread(alloc: Global) -> ThreadState
    ensures { result ≡ record { frames = []; own = None; ended = true } }
{
    ThreadState {
        frames: Stack::new(alloc),
        own: None,
        ended: true,
    }
}

// The running frame goes on.
fn go_on(
    alloc: Global,
    first: bool,
    change: &Change,
    s: &mut State,
    thread: u32,
) -> Result<(), OutOfMemory>
    requires { IsSomeAnd (slice_get s.old.threads thread) IsRunning }
    ensures ok { OnOk result (s.new ≡ state_after s.old thread (planned (record { first = first; deed = Stays change.now }) s.old.heap (frames_at s.old thread))) }
    ensures err { OnErr result (s.new ≡ s.old) }
{
    let mut running = s.threads.exchange(thread as usize, no_thread(alloc));
    let mut frame = running.frames.exchange(0, no_frame(alloc));
    let done = change_frame(alloc, first, change, &mut frame);
    running.frames.exchange(0, frame);
    s.threads.exchange(thread as usize, running);
    done
}

// The thread has ended.
fn end_thread(alloc: Global, s: &mut State, thread: u32)
    requires { IsSomeAnd (slice_get s.old.threads thread) IsRunning }
    ensures { (first : Bool) → s.new ≡ state_after s.old thread (planned (record { first = first; deed = Ends }) s.old.heap (frames_at s.old thread)) }
{
    let mut ended = s.threads.exchange(thread as usize, no_thread(alloc));
    ended.frames = Stack::new(alloc);
    ended.ended = true;
    s.threads.exchange(thread as usize, ended);
}

/// Carries a plan out.
pub fn carry_out(
    alloc: Global,
    plan: Plan,
    s: &mut State,
    thread: u32,
) -> Result<Trace, OutOfMemory>
    requires { IsSomeAnd (slice_get s.old.threads thread) IsRunning }
    ensures ok { OnOk result (s.new ≡ state_after s.old thread (planned plan s.old.heap (frames_at s.old thread))) }
    ensures trace { IfOk result (λ trace. trace ≡ trace_of thread (planned plan s.old.heap (frames_at s.old thread))) }
    ensures err { OnErr result (s.new ≡ s.old) }
{
    let Plan { first, deed } = plan;
    match deed {
        Deed::Stays(change) => {
            go_on(alloc, first, &change, s, thread)?;
            let Change { line, .. } = change;
            Ok(Trace { event: None, line })
        }
        Deed::Ends => {
            end_thread(alloc, s, thread);
            let form = EventForm::Ended;
            Ok(Trace {
                event: Some(Event { thread, form }),
                line: None,
            })
        }
    }
}
