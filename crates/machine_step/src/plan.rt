// The next item of a thread.
ghost use Rattle.std.specs.Prelude.{◌≡◌, List, [], true, slice_get, IfSome, IsSomeAnd, OnOk};
ghost use Rattle.machine_model.specs.declared.state.ThreadState.{ThreadState as Thread};
ghost use Rattle.machine_model.specs.declared.state.State.{State as Machine};
ghost use Rattle.machine_model.specs.Steps.{control_step, thread_step, state_step};
ghost use Rattle.machine_values.specs.Agreement.{Agrees};
ghost use Rattle.machine_values.specs.Bits.{has_128_bits};
ghost use Rattle.machine_step.specs.Built.{IsBuilt, IsBuiltFrame, IsBuiltThread, IsRunning};
ghost use Rattle.machine_step.specs.Changes.{begun, done, frames_at, is_begin, planned};

use crate::change::Plan;
use crate::items::deed_of;
use machine_model::{Frame, Halt, Object, State, ThreadState};
use machine_values::Stop;
use py_syntax::{Item, Module, Value};
use std::alloc::Global;

// Whether an item is the mark at the start of `main`.
fn is_mark(item: &Item<Value>) -> bool
    ensures { result ≡ is_begin item.now }
{
    match item {
        Item::Begin => true,
        _ => false,
    }
}

// The next item of the only frame of a thread.
fn frame_plan(
    alloc: Global,
    m: &Module,
    thread: u32,
    heap: &[Object],
    frame: &Frame,
) -> Result<Plan, Stop>
    requires { IsBuiltFrame m.now frame.now }
    ensures { (threads : List Thread) → Agrees (control_step has_128_bits m.now thread threads heap.now frame.now [] frame.now.control) result (λ p. done p.deed heap.now (begun p.first frame.now)) }
{
    let Some(item) = frame.control.get(0) else {
        return Err(Stop::Halt(Halt::NoOperand));
    };
    if is_mark(item) {
        return first_plan(alloc, m, thread, heap, frame);
    }
    match deed_of(alloc, m, thread, heap, item, frame) {
        Ok(deed) => Ok(Plan { first: false, deed }),
        Err(stop) => Err(stop),
    }
}

// The first item of `main`, with the mark in front of it.
fn first_plan(
    alloc: Global,
    m: &Module,
    thread: u32,
    heap: &[Object],
    frame: &Frame,
) -> Result<Plan, Stop>
    requires built { IsBuiltFrame m.now frame.now }
    requires first { IfSome (slice_get frame.now.control 0) (λ i. is_begin i ≡ true) }
    ensures { (threads : List Thread) → Agrees (control_step has_128_bits m.now thread threads heap.now frame.now [] frame.now.control) result (λ p. done p.deed heap.now (begun p.first frame.now)) }
{
    let Some(item) = frame.control.get(1) else {
        return Err(Stop::Halt(Halt::NoOperand));
    };
    if m.methods.get(frame.method as usize).is_none() {
        return Err(Stop::Halt(Halt::NoOperand));
    }
    match deed_of(alloc, m, thread, heap, item, frame) {
        Ok(deed) => Ok(Plan { first: true, deed }),
        Err(stop) => Err(stop),
    }
}

fn thread_plan(
    alloc: Global,
    m: &Module,
    thread: u32,
    heap: &[Object],
    running: &ThreadState,
) -> Result<Plan, Stop>
    requires { IsBuiltThread m.now running.now }
    ensures plan { (s : Machine) → s.heap ≡ heap.now → Agrees (thread_step has_128_bits m.now thread s running.now) result (λ p. planned p heap.now running.now.frames) }
    ensures running { OnOk result (IsRunning running.now) }
{
    if running.ended {
        return Err(Stop::Halt(Halt::Waits));
    }
    match running.frames.get(0) {
        Some(frame) => frame_plan(alloc, m, thread, heap, frame),
        None => Err(Stop::Halt(Halt::NoOperand)),
    }
}

/// The next item of a thread, if the thread can do it.
pub fn next_plan(alloc: Global, m: &Module, s: &State, thread: u32) -> Result<Plan, Stop>
    requires { IsBuilt m.now s.now }
    ensures plan { Agrees (state_step has_128_bits m.now s.now thread) result (λ p. planned p s.now.heap (frames_at s.now thread)) }
    ensures running { OnOk result (IsSomeAnd (slice_get s.now.threads thread) IsRunning) }
{
    match s.threads.get(thread as usize) {
        Some(running) => thread_plan(alloc, m, thread, s.heap.as_slice(), running),
        None => Err(Stop::Halt(Halt::Waits)),
    }
}
