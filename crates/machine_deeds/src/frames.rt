// How the frames of a thread change.
ghost use Rattle.std.specs.Prelude.{◌≡◌, [], ◌∷◌, drop, OnOk, OnErr};
ghost use Rattle.machine_deeds.specs.Deeds.{changed_at, ends, frames_after};

use crate::deed::{FrameDeed, FramesDeed};
use crate::frame::change_frame;
use machine_model::{Frame, Stack, ThreadState};
use py_base::OutOfMemory;
use sqlite_items::Items;
use std::alloc::Global;

// What stands in the place of a frame while it changes.
fn no_frame(alloc: Global) -> Frame
    ensures { result.control ≡ [] }
{
    Frame {
        method: 0,
        control: Stack::new(alloc),
        stack: Stack::new(alloc),
        store: Items::new(alloc),
        before: Items::new(alloc),
        measure: None,
        caps: Items::new(alloc),
        turns: Stack::new(alloc),
    }
}

// Changes the frame at a depth, if there is one.
#[tactic(auto, using(crate::proofs::Places::changed_there, crate::proofs::Places::put_back, crate::proofs::Places::changed_past))]
fn change_at(
    alloc: Global,
    depth: usize,
    deed: FrameDeed,
    frames: &mut Stack<Frame>,
) -> Result<(), OutOfMemory>
    ensures ok { OnOk result (frames.new ≡ changed_at deed depth frames.old) }
    ensures err { OnErr result (frames.new ≡ frames.old) }
{
    if depth < frames.len() {
        let mut frame = frames.exchange(depth, no_frame(alloc));
        let changed = change_frame(deed, &mut frame);
        frames.exchange(depth, frame);
        changed
    } else {
        Ok(())
    }
}

// The running frame calls.
fn enter(
    alloc: Global,
    deed: FrameDeed,
    frame: Frame,
    frames: &mut Stack<Frame>,
) -> Result<(), OutOfMemory>
    ensures ok { OnOk result (frames.new ≡ frame ∷ changed_at deed 0 frames.old) }
    ensures err { OnErr result (frames.new ≡ frames.old) }
{
    frames.push(frame)?;
    match change_at(alloc, 1, deed, frames) {
        Ok(()) => Ok(()),
        Err(OutOfMemory) => {
            frames.pop();
            Err(OutOfMemory)
        }
    }
}

// The running frame ends.
#[tactic(auto, using(crate::proofs::Places::changed_below))]
fn leave(alloc: Global, deed: FrameDeed, frames: &mut Stack<Frame>) -> Result<(), OutOfMemory>
    ensures ok { OnOk result (frames.new ≡ changed_at deed 0 (drop 1 frames.old)) }
    ensures err { OnErr result (frames.new ≡ frames.old) }
{
    change_at(alloc, 1, deed, frames)?;
    frames.drop_top(1);
    Ok(())
}

fn change_frames(
    alloc: Global,
    deed: FramesDeed,
    frames: &mut Stack<Frame>,
) -> Result<(), OutOfMemory>
    ensures ok { OnOk result (frames.new ≡ frames_after deed frames.old) }
    ensures err { OnErr result (frames.new ≡ frames.old) }
{
    match deed {
        FramesDeed::Goes(deed) => change_at(alloc, 0, deed, frames),
        FramesDeed::Enters(deed, frame) => enter(alloc, deed, frame, frames),
        FramesDeed::Leaves(deed, _) => leave(alloc, deed, frames),
        FramesDeed::Ends(_) => {
            *frames = Stack::new(alloc);
            Ok(())
        }
    }
}

// Whether the thread ends.
fn is_end(deed: &FramesDeed) -> bool
    ensures { result ≡ ends deed.now }
{
    match deed {
        FramesDeed::Ends(_) => true,
        _ => false,
    }
}

/// Changes a thread.
pub fn change_thread(
    alloc: Global,
    deed: FramesDeed,
    running: &mut ThreadState,
) -> Result<(), OutOfMemory>
    ensures ok { OnOk result (running.new ≡ record running.old { frames = frames_after deed running.old.frames; ended = ends deed }) }
    ensures err { OnErr result (running.new ≡ running.old) }
{
    let ended = is_end(&deed);
    change_frames(alloc, deed, &mut running.frames)?;
    running.ended = ended;
    Ok(())
}
