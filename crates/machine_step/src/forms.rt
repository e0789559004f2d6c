// The test of what `step` does steps of.
ghost use Rattle.std.specs.Prelude.{◌↔◌, All, IfSome, IsTrue, slice_get};
ghost use Rattle.machine_step.specs.Built.{HasNoConditions, IsBuilt, IsBuiltFrame, IsBuiltItem, IsBuiltThread};

use machine_model::{Frame, Stack, State, ThreadState};
use py_syntax::{Item, Module, Value};

/// Whether the steps from a state on are built.
pub fn is_built(m: &Module, s: &State) -> bool
    ensures { IsTrue result ↔ IsBuilt m.now s.now }
{
    s.threads
        .as_slice()
        .iter()
        .all(|thread| is_built_thread(m, thread))
}

fn is_built_thread(m: &Module, thread: &ThreadState) -> bool
    ensures { IsTrue result ↔ IsBuiltThread m.now thread.now }
{
    match (thread.frames.get(0), thread.frames.get(1)) {
        (None, _) => true,
        (Some(frame), None) => is_built_frame(m, frame),
        (Some(_), Some(_)) => false,
    }
}

fn is_built_frame(m: &Module, frame: &Frame) -> bool
    ensures { IsTrue result ↔ IsBuiltFrame m.now frame.now }
{
    are_built_items(&frame.control) && has_no_conditions(m, frame.method)
}

fn has_no_conditions(m: &Module, method: u32) -> bool
    ensures { IsTrue result ↔ IfSome (slice_get m.now.methods method) HasNoConditions }
{
    match m.methods.get(method as usize) {
        Some(method) => method.pre.is_empty() && method.post.is_empty(),
        None => true,
    }
}

fn are_built_items(control: &Stack<Item<Value>>) -> bool
    ensures { IsTrue result ↔ All IsBuiltItem control.now }
{
    for depth in 0..control.len() {
        if let Some(item) = control.get(depth) {
            if !is_built_item(item) {
                return false;
            }
        }
    }
    true
}

fn is_built_item(item: &Item<Value>) -> bool
    ensures { IsTrue result ↔ IsBuiltItem item.now }
{
    match item {
        Item::Begin
        | Item::Num(_)
        | Item::Truth(_)
        | Item::Nil
        | Item::Load(_)
        | Item::Un(_, _)
        | Item::Bin(_, _)
        | Item::Store(_)
        | Item::Check(_)
        | Item::Print(_)
        | Item::Pass
        | Item::NotNil(_)
        | Item::Drop
        | Item::Fold(_, _)
        | Item::Unfold(_, _)
        | Item::End => true,
        _ => false,
    }
}
