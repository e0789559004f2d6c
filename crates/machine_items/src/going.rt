// What becomes of a thread whose running frame goes on.
ghost use Rattle.std.specs.Prelude.{◌∷◌, ◌≡◌, drop, None};
ghost use Rattle.machine_model.specs.Frames.{goes_on, stays};
ghost use Rattle.machine_model.specs.Items.{with_stack};
ghost use Rattle.machine_deeds.specs.declared.HeapDeed.TheVariants.{Same};
ghost use Rattle.machine_deeds.specs.declared.FramesDeed.TheVariants.{Goes};
ghost use Rattle.machine_items.specs.Deeds.{IsDeed};

use crate::control::open_below;
use crate::moment::Moment;
use machine_deeds::{ControlDeed, Deed, FrameDeed, FramesDeed, Gain, HeapDeed};
use machine_values::Stop;
use py_syntax::Value;
use std::alloc::Global;

/// A frame of which the control and the values change.
pub fn changing(control: ControlDeed, values_dropped: usize, gain: Gain) -> FrameDeed
    ensures { result ≡ record { control = control; values_dropped = values_dropped; turns_dropped = 0; gain = gain; stored = None; caps = None } }
{
    FrameDeed {
        control,
        values_dropped,
        turns_dropped: 0,
        gain,
        stored: None,
        caps: None,
    }
}

/// The running frame goes on, and nothing else is seen.
pub fn going(frame: FrameDeed) -> Deed
    ensures { result ≡ record { heap = Same; frames = Goes frame; started = None; event = None; line = None } }
{
    Deed {
        heap: HeapDeed::Same,
        frames: FramesDeed::Goes(frame),
        started: None,
        event: None,
        line: None,
    }
}

/// A value takes the place of the topmost ones, so many.
pub fn pushing(
    alloc: Global,
    at: Moment<'_>,
    values_dropped: usize,
    value: Value,
) -> Result<Deed, Stop>
    ensures { IsDeed (λ heap f below. stays heap (with_stack (value ∷ drop values_dropped f.stack) f) below) at.entry result }
{
    let control = open_below(alloc, at.taken, &at.frame.control)?;
    Ok(going(changing(control, values_dropped, Gain::OnStack(value))))
}

/// So many values are dropped.
pub fn dropping(alloc: Global, at: Moment<'_>, values_dropped: usize) -> Result<Deed, Stop>
    ensures { IsDeed (λ heap f below. stays heap (with_stack (drop values_dropped f.stack) f) below) at.entry result }
{
    let control = open_below(alloc, at.taken, &at.frame.control)?;
    Ok(going(changing(control, values_dropped, Gain::Nothing)))
}
