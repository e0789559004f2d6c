// How a control changes. Room is made first, which can fail, and then the items move.
ghost use Rattle.std.specs.Prelude.{◌≡◌, ◌≤◌, ◌++◌, drop, length, replicate, OnOk, OnErr};
ghost use Rattle.py_syntax.specs.declared.Item.TheVariants.{Pass};
ghost use Rattle.machine_deeds.specs.Deeds.{controlled};

use crate::deed::ControlDeed;
use machine_model::Stack;
use py_base::OutOfMemory;
use py_syntax::{Item, Value};

/// Puts so many items on top that stand for others.
#[tactic(auto, using(crate::proofs::Stacks::one_more, crate::proofs::Stacks::filled_away))]
pub fn fill(count: usize, control: &mut Stack<Item<Value>>) -> Result<(), OutOfMemory>
    ensures ok { OnOk result (control.new ≡ replicate count Pass ++ control.old) }
    ensures err { OnErr result (control.new ≡ control.old) }
{
    for filled in 0..count {
        if control.push(Item::Pass).is_err() {
            control.drop_top(filled);
            return Err(OutOfMemory);
        }
    }
    Ok(())
}

// Puts members in the place of the topmost ones, as many.
#[tactic(auto, using(crate::proofs::Stacks::all_placed))]
fn place<T: Drop>(mut members: Stack<T>, stack: &mut Stack<T>)
    requires { length members ≤ length stack.old }
    ensures { stack.new ≡ members ++ drop (length members) stack.old }
{
    let count = members.len();
    for depth in 0..count {
        if let Some(member) = members.pop() {
            stack.exchange(depth, member);
        }
    }
}

/// Changes a control on whose top as many items stand for those to come.
#[tactic(auto, using(crate::proofs::Stacks::dropped_below, crate::proofs::Stacks::all_below, crate::proofs::Stacks::room_left))]
pub fn settle(deed: ControlDeed, control: &mut Stack<Item<Value>>)
    requires { length deed.items ≤ length control.old }
    ensures { control.new ≡ controlled deed (drop (length deed.items) control.old) }
{
    let ControlDeed { dropped, items } = deed;
    let most = control.len() - items.len();
    control.drop_top(if dropped < most { dropped } else { most });
    place(items, control)
}
