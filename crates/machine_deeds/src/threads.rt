// How the threads of a state change.
ghost use Rattle.std.specs.Prelude.{◌≡◌, [], ◌∷◌, ◌++◌, OnOk, OnErr};
ghost use Rattle.machine_model.specs.Steps.{with_started};
ghost use Rattle.machine_deeds.specs.Deeds.{moved};

use crate::deed::FramesDeed;
use crate::frames::change_thread;
use machine_model::{Slots, Stack, ThreadState};
use py_base::OutOfMemory;
use std::alloc::Global;

// What stands in the place of a thread while it changes.
fn no_thread(alloc: Global) -> ThreadState {
    ThreadState {
        frames: Stack::new(alloc),
        own: None,
        ended: true,
    }
}

// Changes the thread of a number, if there is one.
#[tactic(auto, using(crate::proofs::Places::moved_there, crate::proofs::Places::put_back, crate::proofs::Places::moved_past))]
fn move_thread(
    alloc: Global,
    deed: FramesDeed,
    thread: u32,
    threads: &mut Slots<ThreadState>,
) -> Result<(), OutOfMemory>
    ensures ok { OnOk result (threads.new ≡ moved deed thread threads.old) }
    ensures err { OnErr result (threads.new ≡ threads.old) }
{
    let thread = thread as usize;
    if thread < threads.as_slice().len() {
        let mut running = threads.exchange(thread, no_thread(alloc));
        let changed = change_thread(alloc, deed, &mut running);
        threads.exchange(thread, running);
        changed
    } else {
        Ok(())
    }
}

// Changes the thread of a number, and puts a thread that it started behind all others.
#[tactic(auto, using(crate::proofs::Places::moved_beside, crate::proofs::Places::moved_past))]
fn move_and_start(
    alloc: Global,
    deed: FramesDeed,
    started: ThreadState,
    thread: u32,
    threads: &mut Slots<ThreadState>,
) -> Result<(), OutOfMemory>
    ensures ok { OnOk result (threads.new ≡ moved deed thread threads.old ++ started ∷ []) }
    ensures err { OnErr result (threads.new ≡ threads.old) }
{
    let is_there = (thread as usize) < threads.as_slice().len();
    threads.push(started)?;
    if !is_there {
        return Ok(());
    }
    match move_thread(alloc, deed, thread, threads) {
        Ok(()) => Ok(()),
        Err(OutOfMemory) => {
            threads.pop();
            Err(OutOfMemory)
        }
    }
}

/// Changes the threads.
pub fn change_threads(
    alloc: Global,
    deed: FramesDeed,
    started: Option<ThreadState>,
    thread: u32,
    threads: &mut Slots<ThreadState>,
) -> Result<(), OutOfMemory>
    ensures ok { OnOk result (threads.new ≡ with_started started (moved deed thread threads.old)) }
    ensures err { OnErr result (threads.new ≡ threads.old) }
{
    match started {
        None => move_thread(alloc, deed, thread, threads),
        Some(started) => move_and_start(alloc, deed, started, thread, threads),
    }
}
