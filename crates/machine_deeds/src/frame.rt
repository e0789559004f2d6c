// How a frame changes.
ghost use Rattle.std.specs.Prelude.{◌≡◌, drop, OnOk, OnErr};
ghost use Rattle.machine_deeds.specs.Deeds.{capped, changed, on_stack, on_turns, stored_in};

use crate::control::{fill, settle};
use crate::deed::{FrameDeed, Gain};
use machine_model::{Frame, Stack};
use py_base::OutOfMemory;
use py_syntax::Value;
use sqlite_items::Items;

fn change_stacks(
    gain: Gain,
    values: usize,
    turns: usize,
    stack: &mut Stack<Value>,
    heads: &mut Stack<i128>,
) -> Result<(), OutOfMemory>
    ensures stack { OnOk result (stack.new ≡ on_stack gain (drop values stack.old)) }
    ensures turns { OnOk result (heads.new ≡ on_turns gain (drop turns heads.old)) }
    ensures stack_err { OnErr result (stack.new ≡ stack.old) }
    ensures turns_err { OnErr result (heads.new ≡ heads.old) }
{
    match gain {
        Gain::Nothing => {
            stack.drop_top(values);
            heads.drop_top(turns);
            Ok(())
        }
        Gain::OnStack(value) => {
            stack.put(values, value)?;
            heads.drop_top(turns);
            Ok(())
        }
        Gain::OnTurns(measure) => {
            heads.put(turns, measure)?;
            stack.drop_top(values);
            Ok(())
        }
    }
}

fn change_store(stored: Option<(u32, Value)>, store: &mut Items<Option<Value>>)
    ensures { store.new ≡ stored_in stored store.old }
{
    if let Some((i, value)) = stored {
        let i = i as usize;
        if i < store.len() {
            store.set(i, Some(value));
        }
    }
}

fn change_caps(new: Option<Items<(u32, i128)>>, caps: &mut Items<(u32, i128)>)
    ensures { caps.new ≡ capped new caps.old }
{
    if let Some(new) = new {
        *caps = new;
    }
}

/// Changes a frame.
#[tactic(auto, using(crate::proofs::Stacks::filled_away, crate::proofs::Stacks::filled_long))]
pub fn change_frame(deed: FrameDeed, frame: &mut Frame) -> Result<(), OutOfMemory>
    ensures ok { OnOk result (frame.new ≡ changed deed frame.old) }
    ensures err { OnErr result (frame.new ≡ frame.old) }
{
    let FrameDeed {
        control,
        values_dropped,
        turns_dropped,
        gain,
        stored,
        caps,
    } = deed;
    let count = control.items.len();
    fill(count, &mut frame.control)?;
    let stacks = change_stacks(
        gain,
        values_dropped,
        turns_dropped,
        &mut frame.stack,
        &mut frame.turns,
    );
    match stacks {
        Ok(()) => {
            settle(control, &mut frame.control);
            change_store(stored, &mut frame.store);
            change_caps(caps, &mut frame.caps);
            Ok(())
        }
        Err(OutOfMemory) => {
            frame.control.drop_top(count);
            Err(OutOfMemory)
        }
    }
}
