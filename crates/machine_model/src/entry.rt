// The first state of a run.
ghost use Rattle.std.specs.Prelude.{◌≡◌, None, replicate, slice_get, IfOk};
ghost use Rattle.machine_model.specs.Steps.{first_frame, first_frames, first_state};

use crate::control::method_control;
use crate::slots::Slots;
use crate::stack::Stack;
use crate::state::{Frame, State, ThreadState};
use py_base::OutOfMemory;
use py_syntax::{Item, Method, Module, Value};
use sqlite_items::Items;
use std::alloc::Global;

/// The state of a run of `main` before its first step.
pub fn start(alloc: Global, m: &Module) -> Result<State, OutOfMemory>
    ensures { IfOk result (λ s. s ≡ first_state m.now) }
{
    let mut threads = Slots::new(alloc);
    threads.push(ThreadState {
        frames: frames_of_main(alloc, m)?,
        own: None,
        ended: false,
    })?;
    Ok(State {
        heap: Items::new(alloc),
        threads,
    })
}

fn frames_of_main(alloc: Global, m: &Module) -> Result<Stack<Frame>, OutOfMemory>
    ensures { IfOk result (λ frames. frames ≡ first_frames m.now (slice_get m.now.methods m.now.main)) }
{
    let mut frames = Stack::new(alloc);
    if let Some(method) = m.methods.get(m.main as usize) {
        frames.push(frame_of_main(alloc, m.main, method)?)?;
    }
    Ok(frames)
}

fn frame_of_main(alloc: Global, number: u32, method: &Method) -> Result<Frame, OutOfMemory>
    ensures { IfOk result (λ frame. frame ≡ first_frame number method.now) }
{
    let mut control = method_control(alloc, method)?;
    control.push(Item::Begin)?;
    Ok(Frame {
        method: number,
        control,
        stack: Stack::new(alloc),
        store: unset(alloc, method.locals.len())?,
        before: Items::new(alloc),
        measure: None,
        caps: Items::new(alloc),
        turns: Stack::new(alloc),
    })
}

// So many locals without a value.
fn unset(alloc: Global, count: usize) -> Result<Items<Option<Value>>, OutOfMemory>
    ensures { IfOk result (λ store. store ≡ replicate count None) }
{
    Ok(Items::from_vec(vec![in alloc; None; count]?))
}
