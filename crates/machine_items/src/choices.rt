// Items that choose what comes next.
ghost use Rattle.std.specs.Prelude.{◌≡◌, ◌∷◌, drop, not, IfOk, Some, if◌then◌else◌};
ghost use Rattle.machine_model.specs.Frames.{goes_on, operand};
ghost use Rattle.machine_model.specs.Frames as frames;
ghost use Rattle.py_syntax.specs.declared.Item.TheVariants.{Again, Link};
ghost use Rattle.py_syntax.specs.ExprItems.{expr_items};
ghost use Rattle.machine_model.specs.Items.{branches, chain_on as chain_goes_on, decides, links, turns_or_leaves, with_stack};
ghost use Rattle.machine_model.specs.Operators as operators;
ghost use Rattle.machine_values.specs.Agreement.{Agrees};
ghost use Rattle.machine_items.specs.Deeds.{IsDeed};
ghost use Rattle.machine_items.specs.Links.{truth_in};
ghost use Rattle.machine_items.specs.Ways as ways;

use crate::bounding::must_terminate;
use crate::control::{block_then, block_then_item, expr_first, expr_then, open_below};
use crate::going::{changing, going, pushing};
use crate::lists::{copy_assertions, copy_block, copy_exprs, copy_keys, split};
use crate::moment::Moment;
use machine_deeds::{Deed, FrameDeed, Gain};
use machine_model::{Halt, Stack};
use machine_values::{Stop, binary, top_truth, value_at};
use py_base::{OutOfMemory, Place};
use py_syntax::{Assertion, Expr, Item, Stmt, Value};
use std::alloc::Global;

// Whether `and`, with `on`, or `or` goes on with its right side.
fn goes_right(on: bool, a: bool) -> bool
    ensures { result ≡ (if on then a else not a) }
{
    if on { a } else { !a }
}

/// `and`, with `on`, and `or` go on with the right side, or give the left one.
pub fn decide(alloc: Global, at: Moment<'_>, on: bool, e: &Expr) -> Result<Deed, Stop>
    ensures { IsDeed (decides on e.now) at.entry result }
{
    let a = top_truth(&at.frame.stack)?;
    if goes_right(on, a) {
        let control = expr_first(alloc, at, e)?;
        Ok(going(changing(control, 1, Gain::Nothing)))
    } else {
        pushing(alloc, at, 1, Value::Truth(a))
    }
}

// The truth value that a comparison gave.
fn truth_of(v: Value) -> Result<bool, Stop>
    ensures { Agrees (operand (truth_in (Some v))) result (λ t. t) }
{
    match v {
        Value::Truth(truth) => Ok(truth),
        _ => Err(Stop::Halt(Halt::NoOperand)),
    }
}

// Whether a comparison is true. A result that is no truth value isn't one, whatever its size.
#[tactic(auto, using(crate::proofs::Comparing::stopped))]
fn compare(key: u16, a: Value, b: Value) -> Result<bool, Stop>
    ensures { Agrees (operand (truth_in (operators.binary key a b))) result (λ t. t) }
{
    match binary(Place { line: 0, col: 0 }, key, a, b) {
        Ok(v) => truth_of(v),
        Err(Stop::Halt(_)) => Err(Stop::Halt(Halt::NoOperand)),
        Err(Stop::OutOfMemory) => Err(Stop::OutOfMemory),
    }
}

// A chain goes on with this operand, and keeps the last one.
fn chain_to(
    alloc: Global,
    at: Moment<'_>,
    b: Value,
    e: &Expr,
    es: &[Expr],
    key: u16,
    keys: &[u16],
) -> Result<Deed, Stop>
    ensures { IsDeed (λ heap f below. goes_on heap (record f { control = expr_items e.now (Link key es.now keys.now ∷ f.control); stack = b ∷ drop 2 f.stack } ∷ below)) at.entry result }
{
    let keys = copy_keys(alloc, keys)?;
    let link = Item::Link(key, copy_exprs(alloc, es)?, keys);
    let control = expr_then(alloc, at, e, link)?;
    Ok(going(changing(control, 2, Gain::OnStack(b))))
}

// A chain goes on with its next operand, and keeps the last one.
#[tactic(auto, using(crate::proofs::Comparing::chain_is))]
fn chain_on(
    alloc: Global,
    at: Moment<'_>,
    b: Value,
    es: &[Expr],
    keys: &[u16],
) -> Result<Deed, Stop>
    ensures { IsDeed (λ heap f below. chain_goes_on b es.now keys.now heap (with_stack (drop 2 f.stack) f) below) at.entry result }
{
    match split(es) {
        None => pushing(alloc, at, 2, Value::Truth(true)),
        Some((e, es)) => match split(keys) {
            None => Err(Stop::Halt(Halt::NoOperand)),
            Some((key, keys)) => chain_to(alloc, at, b, e, es, *key, keys),
        },
    }
}

/// Compares the two topmost values in a chain.
#[tactic(auto, using(crate::proofs::Comparing::links_is))]
pub fn link(
    alloc: Global,
    at: Moment<'_>,
    key: u16,
    es: &[Expr],
    keys: &[u16],
) -> Result<Deed, Stop>
    ensures { IsDeed (links key es.now keys.now) at.entry result }
{
    let b = value_at(0, &at.frame.stack)?;
    let a = value_at(1, &at.frame.stack)?;
    if compare(key, a, b)? {
        chain_on(alloc, at, b, es, keys)
    } else {
        pushing(alloc, at, 2, Value::Truth(false))
    }
}

// How many measures a loop has among those of the open loops.
pub fn turns_of(invariant: &[Assertion]) -> usize
    ensures { result ≡ ways.turns_of (frames.must_terminate invariant.now) }
{
    if must_terminate(invariant) { 1 } else { 0 }
}

/// The head of a loop after a turn.
pub fn again(
    alloc: Global,
    p: Place,
    invariant: &[Assertion],
    e: &Expr,
    body: &[Stmt],
) -> Result<Item<Value>, OutOfMemory>
    ensures { IfOk result (λ i. i ≡ Again p invariant.now e.now body.now) }
{
    let invariant = copy_assertions(alloc, invariant)?;
    let e = e.copy(alloc)?;
    Ok(Item::Again(p, invariant, e, copy_block(alloc, body)?))
}

/// Takes a turn of a loop, or leaves it.
#[tactic(auto, using(crate::proofs::Unwinding::loop_left))]
pub fn turn(
    alloc: Global,
    at: Moment<'_>,
    p: Place,
    invariant: &[Assertion],
    e: &Expr,
    body: &[Stmt],
) -> Result<Deed, Stop>
    ensures { IsDeed (turns_or_leaves p invariant.now e.now body.now) at.entry result }
{
    if top_truth(&at.frame.stack)? {
        let again = again(alloc, p, invariant, e, body)?;
        let control = block_then_item(alloc, at, body, again)?;
        Ok(going(changing(control, 1, Gain::Nothing)))
    } else {
        let control = open_below(alloc, at.taken, &at.frame.control)?;
        Ok(going(FrameDeed {
            turns_dropped: turns_of(invariant),
            ..changing(control, 1, Gain::Nothing)
        }))
    }
}

/// Goes on with one of two blocks.
pub fn branch(alloc: Global, at: Moment<'_>, a: &[Stmt], b: &[Stmt]) -> Result<Deed, Stop>
    ensures { IsDeed (branches a.now b.now) at.entry result }
{
    let block = if top_truth(&at.frame.stack)? { a } else { b };
    let control = block_then(alloc, at, block, Stack::new(alloc))?;
    Ok(going(changing(control, 1, Gain::Nothing)))
}
