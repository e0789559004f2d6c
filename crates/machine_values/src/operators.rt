// Operators.
ghost use Rattle.std.specs.Prelude.{◌≢◌, IfErr, not, if◌then◌else◌};
ghost use Rattle.machine_model.specs.Results.{sized, tested, then_do};
ghost use Rattle.machine_model.specs.Frames.{operand};
ghost use Rattle.machine_model.specs.Operators as operators;
ghost use Rattle.py_base.specs.declared.Kind.TheVariants.{ZeroDivisor};
ghost use Rattle.machine_values.specs.declared.stop.Stop.TheVariants.{OutOfMemory};
ghost use Rattle.machine_values.specs.Agreement.{Agrees};
ghost use Rattle.machine_values.specs.Bits.{has_128_bits};

use crate::numbers::{difference, on_numbers};
use crate::stop::Stop;
use machine_model::Halt;
use py_base::{Kind, Place};
use py_syntax::Value;

// An operator on two truth values.
fn on_truths(p: Place, key: u16, a: bool, b: bool) -> Result<Value, Stop>
    ensures agrees { Agrees (then_do (operand (operators.on_truths key a b)) (sized has_128_bits p)) result (λ v. v) }
    ensures halts { IfErr result (λ e. e ≢ OutOfMemory) }
{
    match key {
        13 => Ok(Value::Truth(a == b)),
        14 => Ok(Value::Truth(a != b)),
        _ => Err(Stop::Halt(Halt::NoOperand)),
    }
}

// An operator on two references that are one or not.
fn on_references(p: Place, key: u16, same: bool) -> Result<Value, Stop>
    ensures agrees { Agrees (then_do (operand (operators.on_references key same)) (sized has_128_bits p)) result (λ v. v) }
    ensures halts { IfErr result (λ e. e ≢ OutOfMemory) }
{
    match key {
        15 => Ok(Value::Truth(same)),
        16 => Ok(Value::Truth(!same)),
        _ => Err(Stop::Halt(Halt::NoOperand)),
    }
}

/// A prefix operator on a value, whose number must fit.
pub fn unary(p: Place, key: u16, a: Value) -> Result<Value, Stop>
    ensures agrees { Agrees (then_do (operand (operators.unary key a)) (sized has_128_bits p)) result (λ v. v) }
    ensures halts { IfErr result (λ e. e ≢ OutOfMemory) }
{
    match a {
        Value::Num(x) if key == 6 => difference(p, 0, x),
        Value::Truth(b) if key == 17 => Ok(Value::Truth(!b)),
        _ => Err(Stop::Halt(Halt::NoOperand)),
    }
}

/// An operator between two values, whose number must fit.
pub fn binary(p: Place, key: u16, a: Value, b: Value) -> Result<Value, Stop>
    ensures agrees { Agrees (then_do (operand (operators.binary key a b)) (sized has_128_bits p)) result (λ v. v) }
    ensures halts { IfErr result (λ e. e ≢ OutOfMemory) }
{
    match (a, b) {
        (Value::Num(x), Value::Num(y)) => on_numbers(p, key, x, y),
        (Value::Truth(x), Value::Truth(y)) => on_truths(p, key, x, y),
        (Value::Ref(x), Value::Ref(y)) => on_references(p, key, x == y),
        (Value::Ref(_), Value::Nil) => on_references(p, key, false),
        (Value::Nil, Value::Ref(_)) => on_references(p, key, false),
        (Value::Nil, Value::Nil) => on_references(p, key, true),
        _ => Err(Stop::Halt(Halt::NoOperand)),
    }
}

/// The test that an operator doesn't divide by zero.
pub fn test_divisor(p: Place, key: u16, b: Value) -> Result<(), Stop>
    ensures { Agrees (tested ZeroDivisor p (not (operators.divides_by_zero key b))) result (λ _. tt) }
{
    match b {
        Value::Num(0) if key == 4 || key == 5 => {
            Err(Stop::Halt(Halt::Failed(Kind::ZeroDivisor, p)))
        }
        _ => Ok(()),
    }
}
