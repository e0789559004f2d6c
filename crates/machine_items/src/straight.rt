// Items of straight-line code.
ghost use Rattle.machine_model.specs.Results.{then_do};
ghost use Rattle.machine_model.specs.Frames.{pop_value, local_at, stored, stays};
ghost use Rattle.machine_model.specs.Items.{applies_binary, applies_unary, checks, pushed, pushes, tests_not_nil, with_stack};
ghost use Rattle.machine_values.specs.Bits.{has_128_bits};
ghost use Rattle.machine_items.specs.Deeds.{IsDeed};

use crate::control::open_below;
use crate::going::{changing, dropping, going, pushing};
use crate::moment::Moment;
use machine_deeds::{Deed, FrameDeed, Gain};
use machine_model::Halt;
use machine_values::{Stop, binary, local, test_divisor, top_truth, unary, value_at};
use py_base::{Kind, Place};
use py_syntax::Value;
use std::alloc::Global;

/// A literal.
pub fn push(alloc: Global, at: Moment<'_>, value: Value) -> Result<Deed, Stop>
    ensures { IsDeed (λ heap f below. stays heap (pushed value f) below) at.entry result }
{
    pushing(alloc, at, 0, value)
}

/// `pass`, and what only a verifier reads.
pub fn pass(alloc: Global, at: Moment<'_>) -> Result<Deed, Stop>
    ensures { IsDeed stays at.entry result }
{
    dropping(alloc, at, 0)
}

/// Pushes a parameter or local.
pub fn load(alloc: Global, at: Moment<'_>, i: u32) -> Result<Deed, Stop>
    ensures { IsDeed (λ heap f below. pushes heap below f (local_at i f.store)) at.entry result }
{
    let value = local(i, &at.frame.store)?;
    pushing(alloc, at, 0, value)
}

/// A prefix operator.
pub fn apply_unary(alloc: Global, at: Moment<'_>, p: Place, key: u16) -> Result<Deed, Stop>
    ensures { IsDeed (applies_unary has_128_bits p key) at.entry result }
{
    let a = value_at(0, &at.frame.stack)?;
    let value = unary(p, key, a)?;
    pushing(alloc, at, 1, value)
}

/// An operator on the two topmost values.
pub fn apply_binary(alloc: Global, at: Moment<'_>, p: Place, key: u16) -> Result<Deed, Stop>
    ensures { IsDeed (applies_binary has_128_bits p key) at.entry result }
{
    let b = value_at(0, &at.frame.stack)?;
    let a = value_at(1, &at.frame.stack)?;
    test_divisor(p, key, b)?;
    let value = binary(p, key, a, b)?;
    pushing(alloc, at, 2, value)
}

/// Writes the topmost value to a local.
pub fn store(alloc: Global, at: Moment<'_>, i: u32) -> Result<Deed, Stop>
    ensures { IsDeed (λ heap f below. then_do (pop_value f.stack) (λ v. then_do (stored i v.0 f.store) (λ store. stays heap (record f { stack = v.1; store = store }) below))) at.entry result }
{
    let value = value_at(0, &at.frame.stack)?;
    if i as usize >= at.frame.store.len() {
        return Err(Stop::Halt(Halt::NoOperand));
    }
    let control = open_below(alloc, at.taken, &at.frame.control)?;
    Ok(going(FrameDeed {
        stored: Some((i, value)),
        ..changing(control, 1, Gain::Nothing)
    }))
}

/// Drops the result of a call.
pub fn drop_value(alloc: Global, at: Moment<'_>) -> Result<Deed, Stop>
    ensures { IsDeed (λ heap f below. then_do (pop_value f.stack) (λ v. stays heap (with_stack v.1 f) below)) at.entry result }
{
    value_at(0, &at.frame.stack)?;
    dropping(alloc, at, 1)
}

/// Tests that the topmost value isn't None.
pub fn test_not_nil(alloc: Global, at: Moment<'_>, p: Place) -> Result<Deed, Stop>
    ensures { IsDeed (tests_not_nil p) at.entry result }
{
    match value_at(0, &at.frame.stack)? {
        Value::Nil => Err(Stop::Halt(Halt::Failed(Kind::NoneValue, p))),
        _ => dropping(alloc, at, 0),
    }
}

/// `assert`
pub fn check(alloc: Global, at: Moment<'_>, p: Place) -> Result<Deed, Stop>
    ensures { IsDeed (checks p) at.entry result }
{
    if top_truth(&at.frame.stack)? {
        dropping(alloc, at, 1)
    } else {
        Err(Stop::Halt(Halt::Failed(Kind::Assert, p)))
    }
}
