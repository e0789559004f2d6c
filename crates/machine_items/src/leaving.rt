// Ways out of the running frame.
ghost use Rattle.std.specs.Prelude.{◌≡◌, [], ◌∷◌, drop, false, IfOk};
ghost use Rattle.machine_deeds.specs.Deeds.{controlled, done};
ghost use Rattle.machine_model.specs.Results.{Got, Stops};
ghost use Rattle.machine_model.specs.declared.Halt.TheVariants.{NoOperand};
ghost use Rattle.py_syntax.specs.declared.Way.TheVariants.{Raise as IsRaise};
ghost use Rattle.machine_items.specs.Handlers.{tried};
ghost use Rattle.machine_model.specs.Frames.{goes_on, stays};
ghost use Rattle.machine_model.specs.Calls as calls;
ghost use Rattle.machine_model.specs.Items.{goes_further, handles, returns, with_control, before_finally};
ghost use Rattle.py_syntax.specs.StmtItems.{block_items};
ghost use Rattle.py_syntax.specs.declared.Item.TheVariants.{TryEnd};
ghost use Rattle.machine_items.specs.Deeds.{IsDeed, running, waiting_below};
ghost use Rattle.machine_items.specs.Outcomes.{IsOutcome};

use crate::classes::is_subclass;
use crate::control::block_then;
use crate::going::{changing, dropping, going};
use crate::lists::{copy_block, copy_handlers, split};
use crate::moment::Moment;
use crate::ways_out::{Landing, way_out};
use machine_deeds::{ControlDeed, Deed, FrameDeed, Gain};
use machine_model::{Halt, Stack};
use machine_values::{Stop, value_at};
use py_base::{OutOfMemory, Place};
use py_syntax::{Item, Module, Stmt, Value, Way};
use sqlite_items::Items;
use std::alloc::Global;

/// What a way out of blocks comes to.
#[derive(Debug, Drop)]
pub enum Outcome {
    /// The thread goes on with its frames.
    Goes(Deed),
    /// The method is left with a value.
    Left(Value),
}

// The running frame goes on with this control; its values are dropped, and so many measures of loops.
#[tactic(auto, using(crate::proofs::Landings::all_dropped))]
fn emptying(at: Moment<'_>, control: ControlDeed, turns: usize) -> Deed
    ensures { goes_on at.entry.heap.now (record (running at.entry) { control = controlled control at.entry.frame.now.control; stack = []; turns = drop turns at.entry.frame.now.turns } ∷ waiting_below at.entry) ≡ Got (done result at.entry.heap.now (at.entry.frame.now ∷ waiting_below at.entry)) }
{
    going(FrameDeed {
        turns_dropped: turns,
        ..changing(control, at.frame.stack.len(), Gain::Nothing)
    })
}

// The running frame has this item as its last one.
#[tactic(auto, using(crate::proofs::Landings::all_dropped))]
fn last_item(alloc: Global, at: Moment<'_>, turns: usize, item: Item<Value>) -> Result<Deed, Stop>
    ensures { IsDeed (λ heap f below. goes_on heap (record f { control = item ∷ []; stack = []; turns = drop turns f.turns } ∷ below)) at.entry result }
{
    let mut items = Stack::new(alloc);
    items.push(item)?;
    let dropped = at.frame.control.len();
    Ok(emptying(at, ControlDeed { dropped, items }, turns))
}

// A way out leaves the method.
fn leave_blocks(
    alloc: Global,
    at: Moment<'_>,
    from_with: bool,
    w: Way<Value>,
    turns: usize,
) -> Result<Outcome, Stop>
    ensures { IsOutcome (λ ends heap f below. calls.way_left from_with w ends heap (record f { stack = []; turns = drop turns f.turns }) below) at.entry result }
{
    match w {
        Way::Raise(class, p) => {
            let deed = last_item(alloc, at, turns, Item::Throw(class, p))?;
            Ok(Outcome::Goes(deed))
        }
        Way::Return(value) if from_with => {
            let deed = last_item(alloc, at, turns, Item::Exit(value))?;
            Ok(Outcome::Goes(deed))
        }
        Way::Return(value) => Ok(Outcome::Left(value)),
        Way::Break => Err(Stop::Halt(Halt::NoOperand)),
        Way::Continue => Err(Stop::Halt(Halt::NoOperand)),
    }
}

/// Goes a way out of the running frame.
pub fn go_out(
    alloc: Global,
    at: Moment<'_>,
    from_with: bool,
    w: Way<Value>,
) -> Result<Outcome, Stop>
    ensures { IsOutcome (calls.go_out from_with w) at.entry result }
{
    let landing = way_out(alloc, at, w)?;
    let Landing { control, turns } = landing;
    match control {
        Some(control) => Ok(Outcome::Goes(emptying(at, control, turns))),
        None => leave_blocks(alloc, at, from_with, w, turns),
    }
}

/// `return` with the topmost value, or with None.
pub fn return_value(alloc: Global, at: Moment<'_>, has_value: bool) -> Result<Outcome, Stop>
    ensures { IsOutcome (λ ends. returns has_value (λ g. ends)) at.entry result }
{
    if has_value {
        let value = value_at(0, &at.frame.stack)?;
        go_out(alloc, at, false, Way::Return(value))
    } else {
        go_out(alloc, at, false, Way::Return(Value::Nil))
    }
}

/// Goes on behind a `finally` block: normally, or on the way out.
pub fn end_finally(alloc: Global, at: Moment<'_>, w: Option<Way<Value>>) -> Result<Outcome, Stop>
    ensures { IsOutcome (λ ends. goes_further false w (λ g. ends)) at.entry result }
{
    match w {
        None => {
            let deed = dropping(alloc, at, 0)?;
            Ok(Outcome::Goes(deed))
        }
        Some(w) => go_out(alloc, at, false, w),
    }
}

// The end of the body of a `try`, and the mark of its `finally` block behind it.
fn try_items(
    alloc: Global,
    handlers: &[(u32, Items<Stmt>)],
    other: &[Stmt],
    last: &Option<Items<Stmt>>,
) -> Result<Stack<Item<Value>>, OutOfMemory>
    ensures { IfOk result (λ items. items ≡ TryEnd handlers.now other.now ∷ before_finally last.now []) }
{
    let mut items = Stack::new(alloc);
    if let Some(block) = last {
        items.push(Item::Finally(copy_block(alloc, block.as_slice())?))?;
    }
    let handlers = copy_handlers(alloc, handlers)?;
    items.push(Item::TryEnd(handlers, copy_block(alloc, other)?))?;
    Ok(items)
}

/// `try`
#[tactic(auto, using(crate::proofs::Landings::finally_behind))]
pub fn enter_try(
    alloc: Global,
    at: Moment<'_>,
    body: &[Stmt],
    handlers: &[(u32, Items<Stmt>)],
    other: &[Stmt],
    last: &Option<Items<Stmt>>,
) -> Result<Deed, Stop>
    ensures { IsDeed (λ heap f below. stays heap (with_control (block_items body.now (TryEnd handlers.now other.now ∷ before_finally last.now f.control)) f) below) at.entry result }
{
    let items = try_items(alloc, handlers, other, last)?;
    let control = block_then(alloc, at, body, items)?;
    Ok(going(changing(control, 0, Gain::Nothing)))
}

/// The end of the body of a `try`.
pub fn end_try(alloc: Global, at: Moment<'_>, other: &[Stmt]) -> Result<Deed, Stop>
    ensures { IsDeed (λ heap f below. stays heap (with_control (block_items other.now f.control) f) below) at.entry result }
{
    let control = block_then(alloc, at, other, Stack::new(alloc))?;
    Ok(going(changing(control, 0, Gain::Nothing)))
}

// An exception goes on with no handler of this `try` left.
fn throw_on(alloc: Global, at: Moment<'_>, class: u32, p: Place) -> Result<Deed, Stop>
    ensures { IsDeed (calls.go_out false (IsRaise class p) (λ v. Stops NoOperand)) at.entry result }
{
    match go_out(alloc, at, false, Way::Raise(class, p)) {
        Ok(Outcome::Goes(deed)) => Ok(deed),
        Ok(Outcome::Left(_)) => Err(Stop::Halt(Halt::NoOperand)),
        Err(stop) => Err(stop),
    }
}

// An exception tries the handlers behind one that isn't for it.
fn next_handler(
    alloc: Global,
    at: Moment<'_>,
    class: u32,
    p: Place,
    handlers: &[(u32, Items<Stmt>)],
) -> Result<Deed, Stop>
    ensures { IsDeed (tried class p handlers.now) at.entry result }
{
    if handlers.is_empty() {
        return throw_on(alloc, at, class, p);
    }
    let mut items = Stack::new(alloc);
    items.push(Item::Handle(class, p, copy_handlers(alloc, handlers)?))?;
    let control = ControlDeed {
        dropped: at.taken,
        items,
    };
    Ok(going(changing(control, 0, Gain::Nothing)))
}

/// An exception tries the first of the handlers.
#[tactic(auto, using(crate::proofs::Handling::handles_first, crate::proofs::Handling::handles_none))]
pub fn handle(
    alloc: Global,
    m: &Module,
    at: Moment<'_>,
    class: u32,
    p: Place,
    handlers: &[(u32, Items<Stmt>)],
) -> Result<Deed, Stop>
    ensures { IsDeed (handles m.now class p handlers.now) at.entry result }
{
    match split(handlers) {
        None => Err(Stop::Halt(Halt::NoOperand)),
        Some((handler, handlers)) => {
            if is_subclass(m, class, handler.0) {
                end_try(alloc, at, handler.1.as_slice())
            } else {
                next_handler(alloc, at, class, p, handlers)
            }
        }
    }
}
