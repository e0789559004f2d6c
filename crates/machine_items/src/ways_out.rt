// Where a way out leads in a control.
ghost use Rattle.std.specs.Prelude.{◌≡◌, ◌≤◌, ◌+◌, ◌∷◌, drop, slice_get, Some, None, IfSome, IfOk, MatchOption};
ghost use Rattle.py_syntax.specs.declared.Value.{Value as Scalar};
ghost use Rattle.py_syntax.specs.declared.Item.TheVariants.{Again, FinallyEnd};
ghost use Rattle.py_syntax.specs.StmtItems.{block_items};
ghost use Rattle.py_syntax.specs.Control.{Unwound, at_handlers, at_loop, unwind};
ghost use Rattle.machine_model.specs.Frames as frames;
ghost use Rattle.machine_items.specs.Ways as ways;
ghost use Rattle.machine_items.specs.Ways.{GoesOn};
ghost use Rattle.machine_items.specs.Deeds.{running};

use crate::bounding::must_terminate;
use crate::choices::{again, turns_of};
use crate::control::open_below;
use crate::lists::copy_handlers;
use crate::moment::Moment;
use machine_deeds::ControlDeed;
use machine_model::{Stack, push_block};
use py_base::{OutOfMemory, Place};
use py_syntax::{Assertion, Expr, Item, Stmt, Value, Way};
use sqlite_items::Items;
use std::alloc::Global;

/// Where a way out leads: the control with which the method goes on, none where the method is left, and
/// how many measures of loops it drops.
#[derive(Debug, Drop)]
pub struct Landing {
    pub control: Option<ControlDeed>,
    pub turns: usize,
}

fn passes_try(none: bool, w: Way<Value>) -> Option<bool>
    ensures { result ≡ ways.passes_try none w }
{
    match w {
        Way::Raise(_, _) if !none => None,
        _ => Some(false),
    }
}

fn passes_loop(measured: bool, w: Way<Value>) -> Option<bool>
    ensures { result ≡ ways.passes_loop measured w }
{
    match w {
        Way::Break => None,
        Way::Continue => None,
        Way::Raise(_, _) => Some(measured),
        Way::Return(_) => Some(measured),
    }
}

fn is_none(handlers: &[(u32, Items<Stmt>)]) -> bool
    ensures { result ≡ ways.is_empty handlers.now }
{
    match handlers {
        [] => true,
        [_, ..] => false,
    }
}

// Whether a way out passes an item, and then whether a measure of a loop is dropped there.
fn passing(i: &Item<Value>, w: Way<Value>) -> Option<bool>
    ensures { result ≡ ways.passing i.now w }
{
    match i {
        Item::End => None,
        Item::Finally(_) => None,
        Item::WithEnd(_, _, _) => None,
        Item::TryEnd(handlers, _) => passes_try(is_none(handlers.as_slice()), w),
        Item::Again(_, invariant, _, _) => passes_loop(must_terminate(invariant.as_slice()), w),
        Item::Turn(_, invariant, _, _) => Some(must_terminate(invariant.as_slice())),
        _ => Some(false),
    }
}

// How far a way out goes from a depth on, and how many measures it drops there.
struct Reached {
    depth: usize,
    turns: usize,
}

// Whether a way out passes the item at a depth, and then whether a measure is dropped there.
#[tactic(auto, using(crate::proofs::Unwinding::passed_here))]
fn passing_at(w: Way<Value>, depth: usize, control: &Stack<Item<Value>>) -> Option<bool>
    ensures { MatchOption result (IfSome (slice_get control.now depth) (λ i. ways.passing i w ≡ None)) (λ b. ways.counted (unwind w (drop depth control.now)) ≡ ways.more (ways.turns_of b) (ways.counted (unwind w (drop (depth + 1) control.now)))) }
{
    match control.get(depth) {
        Some(i) => passing(i, w),
        None => None,
    }
}

fn count(measured: bool) -> usize
    ensures count { result ≡ ways.turns_of measured }
    ensures small { result ≤ 1 }
{
    if measured { 1 } else { 0 }
}

#[tactic(auto, using(crate::proofs::Unwinding::more_on, crate::proofs::Unwinding::more_none, crate::proofs::Unwinding::stops_past))]
fn reach(w: Way<Value>, from: usize, control: &Stack<Item<Value>>) -> Reached
    ensures leads { ways.counted (unwind w (drop from control.now)) ≡ ways.more result.turns (ways.counted (unwind w (drop result.depth control.now))) }
    ensures stops { IfSome (slice_get control.now result.depth) (λ i. ways.passing i w ≡ None) }
{
    let mut turns = 0;
    for depth in from..control.len() {
        match passing_at(w, depth, control) {
            Some(measured) => turns += count(measured),
            None => return Reached { depth, turns },
        }
    }
    Reached {
        depth: control.len(),
        turns,
    }
}

// An item stands in front of those from a depth on.
fn land_on(
    alloc: Global,
    w: Way<Value>,
    item: Item<Value>,
    behind: usize,
    control: &Stack<Item<Value>>,
) -> Result<Landing, OutOfMemory>
    ensures { IfOk result (λ l. ways.landed l.control l.turns w control.now ≡ GoesOn (item ∷ drop behind control.now) 0) }
{
    let mut items = Stack::new(alloc);
    items.push(item)?;
    Ok(Landing {
        control: Some(ControlDeed {
            dropped: behind,
            items,
        }),
        turns: 0,
    })
}

// A `finally` block is gone through, and the way out waits at its end.
#[tactic(auto, using(crate::proofs::Laid::block_before))]
fn land_in_finally(
    alloc: Global,
    w: Way<Value>,
    block: &[Stmt],
    behind: usize,
    control: &Stack<Item<Value>>,
) -> Result<Landing, OutOfMemory>
    ensures { IfOk result (λ l. ways.landed l.control l.turns w control.now ≡ GoesOn (block_items block.now (FinallyEnd (Some w) ∷ drop behind control.now)) 0) }
{
    let mut items = Stack::new(alloc);
    items.push(Item::FinallyEnd(Some(w)))?;
    push_block(alloc, &mut items, block)?;
    Ok(Landing {
        control: Some(ControlDeed {
            dropped: behind,
            items,
        }),
        turns: 0,
    })
}

// An exception tries handlers.
fn land_at_handlers(
    alloc: Global,
    w: Way<Value>,
    handlers: &[(u32, Items<Stmt>)],
    behind: usize,
    control: &Stack<Item<Value>>,
) -> Result<Landing, OutOfMemory>
    requires { ways.passes_try (ways.is_empty handlers.now) w ≡ None }
    ensures { (further : Unwound Scalar) → IfOk result (λ l. ways.landed l.control l.turns w control.now ≡ ways.counted (at_handlers w handlers.now (drop behind control.now) further)) }
{
    match w {
        Way::Raise(class, p) => {
            let item = Item::Handle(class, p, copy_handlers(alloc, handlers)?);
            land_on(alloc, w, item, behind, control)
        }
        Way::Break => unreachable!(),
        Way::Continue => unreachable!(),
        Way::Return(_) => unreachable!(),
    }
}

// `break` ends the loop, and `continue` goes on with its next head.
fn land_at_loop(
    alloc: Global,
    w: Way<Value>,
    p: Place,
    invariant: &[Assertion],
    e: &Expr,
    body: &[Stmt],
    behind: usize,
    control: &Stack<Item<Value>>,
) -> Result<Landing, OutOfMemory>
    requires { ways.passes_loop (frames.must_terminate invariant.now) w ≡ None }
    ensures { (further : Unwound Scalar) → IfOk result (λ l. ways.landed l.control l.turns w control.now ≡ ways.counted (at_loop w invariant.now (Again p invariant.now e.now body.now) (drop behind control.now) further)) }
{
    match w {
        Way::Break => Ok(Landing {
            control: Some(open_below(alloc, behind, control)?),
            turns: turns_of(invariant),
        }),
        Way::Continue => {
            let item = again(alloc, p, invariant, e, body)?;
            land_on(alloc, w, item, behind, control)
        }
        Way::Raise(_, _) => unreachable!(),
        Way::Return(_) => unreachable!(),
    }
}

// The method is left.
fn land_outside() -> Landing
    ensures { result ≡ record { control = None; turns = 0 } }
{
    Landing {
        control: None,
        turns: 0,
    }
}

// Where a way out leads that doesn't pass the item in front of those from a depth on.
fn land_at(
    alloc: Global,
    w: Way<Value>,
    i: &Item<Value>,
    behind: usize,
    control: &Stack<Item<Value>>,
) -> Result<Landing, OutOfMemory>
    requires { ways.passing i.now w ≡ None }
    ensures { IfOk result (λ l. ways.landed l.control l.turns w control.now ≡ ways.counted (unwind w (i.now ∷ drop behind control.now))) }
{
    match i {
        Item::End => Ok(land_outside()),
        Item::Finally(block) => land_in_finally(alloc, w, block.as_slice(), behind, control),
        Item::WithEnd(p, lock, _) => {
            land_on(alloc, w, Item::WithEnd(*p, *lock, Some(w)), behind, control)
        }
        Item::TryEnd(handlers, _) => {
            land_at_handlers(alloc, w, handlers.as_slice(), behind, control)
        }
        Item::Again(p, invariant, e, body) => land_at_loop(
            alloc,
            w,
            *p,
            invariant.as_slice(),
            e,
            body.as_slice(),
            behind,
            control,
        ),
        _ => unreachable!(),
    }
}

// Where a way out leads from a depth on, if it doesn't pass the item there.
#[tactic(auto, using(crate::proofs::Unwinding::stops_there, crate::proofs::Unwinding::nothing_there))]
fn land(
    alloc: Global,
    w: Way<Value>,
    depth: usize,
    control: &Stack<Item<Value>>,
) -> Result<Landing, OutOfMemory>
    requires { IfSome (slice_get control.now depth) (λ i. ways.passing i w ≡ None) }
    ensures { IfOk result (λ l. ways.landed l.control l.turns w control.now ≡ ways.counted (unwind w (drop depth control.now))) }
{
    if control.len() <= depth {
        return Ok(land_outside());
    }
    match control.get(depth) {
        Some(i) => land_at(alloc, w, i, depth + 1, control),
        None => Ok(land_outside()),
    }
}

/// Where a way out of the running frame leads.
#[tactic(auto, using(crate::proofs::Unwinding::more_landed))]
pub fn way_out(alloc: Global, at: Moment<'_>, w: Way<Value>) -> Result<Landing, OutOfMemory>
    ensures { IfOk result (λ l. ways.landed l.control l.turns w at.entry.frame.now.control ≡ ways.counted (unwind w (running at.entry).control)) }
{
    let Reached { depth, turns } = reach(w, at.taken, &at.frame.control);
    let landing = land(alloc, w, depth, &at.frame.control)?;
    let Landing {
        control,
        turns: last,
    } = landing;
    match turns.checked_add(last) {
        Some(turns) => Ok(Landing { control, turns }),
        None => Err(OutOfMemory),
    }
}
