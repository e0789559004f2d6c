// What is read of the value stack and of the locals.
ghost use Rattle.std.specs.Prelude.{◌+◌, drop, length, if◌then◌else◌, nat_lt};
ghost use Rattle.machine_model.specs.Frames.{pop_value, pop_truth, local_at};
ghost use Rattle.machine_values.specs.Agreement.{Agrees};

use crate::stop::Stop;
use machine_model::{Halt, Stack};
use py_syntax::Value;
use sqlite_items::Items;

/// The value below so many others.
#[tactic(auto, using(crate::proofs::Depths::drop_there, crate::proofs::Depths::drop_past))]
pub fn value_at(depth: usize, stack: &Stack<Value>) -> Result<Value, Stop>
    ensures { Agrees (pop_value (drop depth stack.now)) result (λ v. (v, drop (depth + 1) stack.now)) }
{
    match stack.get(depth) {
        Some(value) => Ok(*value),
        None => Err(Stop::Halt(Halt::NoOperand)),
    }
}

/// The topmost value, which is a truth value.
#[tactic(auto, using(crate::proofs::Depths::drop_there, crate::proofs::Depths::drop_past))]
pub fn top_truth(stack: &Stack<Value>) -> Result<bool, Stop>
    ensures { Agrees (pop_truth stack.now) result (λ b. (b, drop 1 stack.now)) }
{
    match stack.get(0) {
        Some(Value::Truth(truth)) => Ok(*truth),
        _ => Err(Stop::Halt(Halt::NoOperand)),
    }
}

/// The value of a local that has one.
pub fn local(i: u32, store: &Items<Option<Value>>) -> Result<Value, Stop>
    ensures { Agrees (local_at i store.now) result (λ v. v) }
{
    match store.get(i as usize) {
        Some(Some(value)) => Ok(*value),
        _ => Err(Stop::Halt(Halt::NoOperand)),
    }
}
