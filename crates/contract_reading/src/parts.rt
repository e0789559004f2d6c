// The forms of expressions, over what their parts are read as.
ghost use Rattle.std.specs.Prelude.{◌≡◌, true, false, slice_get, if◌then◌else◌};
ghost use Rattle.std.specs.Option.{option_and_then, option_map};
ghost use Rattle.py_syntax.specs.declared.Value.TheVariants.{Num, Truth as IsTruth};
ghost use Rattle.machine_model.specs.Results.{Got};
ghost use Rattle.machine_model.specs.Operators as operators;
ghost use Rattle.machine_model.specs.Evaluation.{with_value, of_reference, of_truth, given, defined, not_nil};
ghost use Rattle.machine_values.specs.Bits.{has_128_bits};
ghost use Rattle.contract_reading.specs.Scenes.{scene_in, told, truth_in};
ghost use Rattle.contract_reading.specs.Links.{IsLink};

use crate::objects::{field_of, level_named, locked_of};
use crate::scene::View;
use machine_model::Halt;
use machine_values::{Stop, binary, unary};
use py_base::Place;
use py_syntax::Value;

/// The value of a local that has one.
pub fn local(view: View<'_>, i: u32) -> Option<Value>
    ensures { result ≡ option_and_then (λ v. v) (slice_get (scene_in view.entry).store i) }
{
    match view.store.get(i as usize) {
        Some(value) => *value,
        None => None,
    }
}

/// A field of what was read.
pub fn field(
    view: View<'_>,
    name: u32,
    o: Result<Option<Value>, Place>,
) -> Result<Option<Value>, Place>
    ensures { told result ≡ with_value (told o) (λ v. of_reference v (λ r. Got ((scene_in view.entry).now r name))) }
{
    match o {
        Ok(Some(Value::Ref(r))) => Ok(field_of(view.now, r, name)),
        Ok(_) => Ok(None),
        Err(p) => Err(p),
    }
}

/// The object that a lock locks.
pub fn locked(view: View<'_>, o: Result<Option<Value>, Place>) -> Result<Option<Value>, Place>
    ensures { told result ≡ with_value (told o) (λ v. of_reference v (λ r. Got ((scene_in view.entry).locked r))) }
{
    match o {
        Ok(Some(Value::Ref(r))) => Ok(locked_of(view.heap, r)),
        Ok(_) => Ok(None),
        Err(p) => Err(p),
    }
}

fn number(z: Option<i128>) -> Option<Value>
    ensures { result ≡ option_map (λ n. Num n) z }
{
    match z {
        Some(z) => Some(Value::Num(z)),
        None => None,
    }
}

/// The level of a lock or a thread.
pub fn level(view: View<'_>, o: Result<Option<Value>, Place>) -> Result<Option<Value>, Place>
    ensures { told result ≡ with_value (told o) (λ v. of_reference v (λ r. Got (option_map (λ z. Num z) ((scene_in view.entry).level r)))) }
{
    match o {
        Ok(Some(Value::Ref(r))) => Ok(number(level_named(view.level_name, view.heap, r))),
        Ok(_) => Ok(None),
        Err(p) => Err(p),
    }
}

/// What was read, where it isn't None.
pub fn not_nil(o: Result<Option<Value>, Place>) -> Result<Option<Value>, Place>
    ensures { told result ≡ with_value (told o) not_nil }
{
    match o {
        Ok(Some(Value::Nil)) => Ok(None),
        o => o,
    }
}

/// `and`
pub fn both(
    a: Result<Option<Value>, Place>,
    b: Result<Option<Value>, Place>,
) -> Result<Option<Value>, Place>
    ensures { told result ≡ with_value (told a) (λ v. of_truth v (λ x. if x then told b else defined (IsTruth false))) }
{
    match a {
        Ok(Some(Value::Truth(true))) => b,
        Ok(Some(Value::Truth(false))) => Ok(Some(Value::Truth(false))),
        Ok(_) => Ok(None),
        Err(p) => Err(p),
    }
}

/// `or`
pub fn either(
    a: Result<Option<Value>, Place>,
    b: Result<Option<Value>, Place>,
) -> Result<Option<Value>, Place>
    ensures { told result ≡ with_value (told a) (λ v. of_truth v (λ x. if x then defined (IsTruth true) else told b)) }
{
    match a {
        Ok(Some(Value::Truth(true))) => Ok(Some(Value::Truth(true))),
        Ok(Some(Value::Truth(false))) => b,
        Ok(_) => Ok(None),
        Err(p) => Err(p),
    }
}

/// The second where the first holds, and else true.
pub fn implied(
    a: Result<Option<Value>, Place>,
    b: Result<Option<Value>, Place>,
) -> Result<Option<Value>, Place>
    ensures { told result ≡ with_value (told a) (λ v. of_truth v (λ x. if x then told b else defined (IsTruth true))) }
{
    match a {
        Ok(Some(Value::Truth(true))) => b,
        Ok(Some(Value::Truth(false))) => Ok(Some(Value::Truth(true))),
        Ok(_) => Ok(None),
        Err(p) => Err(p),
    }
}

// A value that an operator gave, none where it has no such operands.
#[tactic(auto, using(crate::proofs::Given::given_value, crate::proofs::Given::given_wide, crate::proofs::Given::given_none, crate::proofs::Given::never_failed, crate::proofs::Given::never_waits))]
fn apply_unary(p: Place, key: u16, a: Value) -> Result<Option<Value>, Place>
    ensures { told result ≡ given has_128_bits p (operators.unary key a) }
{
    match unary(p, key, a) {
        Ok(v) => Ok(Some(v)),
        Err(Stop::Halt(Halt::Wide(q))) => Err(q),
        Err(Stop::Halt(Halt::NoOperand)) => Ok(None),
        Err(Stop::Halt(Halt::Failed(_, _))) => unreachable!(),
        Err(Stop::Halt(Halt::Waits)) => unreachable!(),
        Err(Stop::OutOfMemory) => unreachable!(),
    }
}

#[tactic(auto, using(crate::proofs::Given::given_value, crate::proofs::Given::given_wide, crate::proofs::Given::given_none, crate::proofs::Given::never_failed, crate::proofs::Given::never_waits))]
fn apply_binary(p: Place, key: u16, a: Value, b: Value) -> Result<Option<Value>, Place>
    ensures { told result ≡ given has_128_bits p (operators.binary key a b) }
{
    match binary(p, key, a, b) {
        Ok(v) => Ok(Some(v)),
        Err(Stop::Halt(Halt::Wide(q))) => Err(q),
        Err(Stop::Halt(Halt::NoOperand)) => Ok(None),
        Err(Stop::Halt(Halt::Failed(_, _))) => unreachable!(),
        Err(Stop::Halt(Halt::Waits)) => unreachable!(),
        Err(Stop::OutOfMemory) => unreachable!(),
    }
}

/// A prefix operator on what was read.
pub fn prefixed(p: Place, key: u16, a: Result<Option<Value>, Place>) -> Result<Option<Value>, Place>
    ensures { told result ≡ with_value (told a) (λ v. given has_128_bits p (operators.unary key v)) }
{
    match a {
        Ok(Some(v)) => apply_unary(p, key, v),
        Ok(None) => Ok(None),
        Err(q) => Err(q),
    }
}

/// An operator between what was read.
pub fn joined(
    p: Place,
    key: u16,
    a: Result<Option<Value>, Place>,
    b: Result<Option<Value>, Place>,
) -> Result<Option<Value>, Place>
    ensures { told result ≡ with_value (told a) (λ v. with_value (told b) (λ w. given has_128_bits p (operators.binary key v w))) }
{
    match a {
        Ok(Some(v)) => match b {
            Ok(Some(w)) => apply_binary(p, key, v, w),
            Ok(None) => Ok(None),
            Err(q) => Err(q),
        },
        Ok(None) => Ok(None),
        Err(q) => Err(q),
    }
}

/// What a comparison says of two values, where they can be compared so.
#[tactic(auto, using(crate::proofs::Given::truth_given, crate::proofs::Given::no_truth_none, crate::proofs::Given::no_truth_number, crate::proofs::Given::no_truth_nil, crate::proofs::Given::no_truth_reference, crate::proofs::Given::no_truth_wide))]
pub fn compared(p: Place, key: u16, a: Value, b: Value) -> Option<bool>
    ensures { result ≡ truth_in (operators.binary key a b) }
{
    match apply_binary(p, key, a, b) {
        Ok(Some(Value::Truth(truth))) => Some(truth),
        Ok(Some(Value::Num(_))) => None,
        Ok(Some(Value::Nil)) => None,
        Ok(Some(Value::Ref(_))) => None,
        Ok(None) => None,
        Err(_) => None,
    }
}

/// What a link of a chain of comparisons leads to.
#[derive(Debug, Drop)]
pub enum Link {
    /// The chain goes on behind an operand with this value.
    Next(Value),
    /// The chain is read.
    Ends(Result<Option<Value>, Place>),
}

/// The link between an operand with a value and the one that was read.
#[tactic(auto, using(crate::proofs::Given::link_true, crate::proofs::Given::link_none))]
pub fn link_to(p: Place, key: u16, v: Value, read: Result<Option<Value>, Place>) -> Link
    ensures { IsLink key v (told read) result }
{
    match read {
        Ok(Some(w)) => match compared(p, key, v, w) {
            Some(true) => Link::Next(w),
            Some(false) => Link::Ends(Ok(Some(Value::Truth(false)))),
            None => Link::Ends(Ok(None)),
        },
        Ok(None) => Link::Ends(Ok(None)),
        Err(q) => Link::Ends(Err(q)),
    }
}
