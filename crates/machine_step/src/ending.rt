// The end of a thread.
ghost use Rattle.std.specs.Prelude.{◌≡◌, Bool, [], IfSome, slice_get};
ghost use Rattle.std.specs.List.{list_any};
ghost use Rattle.py_syntax.specs.declared.Value.TheVariants.{Nil};
ghost use Rattle.machine_model.specs.Calls.{leave};
ghost use Rattle.machine_values.specs.Agreement.{Agrees};
ghost use Rattle.machine_values.specs.Bits.{has_128_bits};
ghost use Rattle.machine_step.specs.Built.{HasNoConditions};
ghost use Rattle.machine_step.specs.Owned as owned;
ghost use Rattle.machine_step.specs.Changes.{begun, done};

use crate::change::Deed;
use machine_model::{Frame, Halt, Object};
use machine_values::Stop;
use py_base::Kind;
use py_syntax::Module;

#[tactic(auto, using(crate::proofs::Locks::owns_any_is))]
/// Ends a thread with its first method, if it owns no lock.
pub fn end(m: &Module, thread: u32, heap: &[Object], frame: &Frame) -> Result<Deed, Stop>
    requires { IfSome (slice_get m.now.methods frame.now.method) HasNoConditions }
    ensures { (first : Bool) → Agrees (leave has_128_bits m.now thread heap.now (begun first frame.now) [] Nil) result (λ d. done d heap.now (begun first frame.now)) }
{
    let Some(method) = m.methods.get(frame.method as usize) else {
        return Err(Stop::Halt(Halt::NoOperand));
    };
    if owns_any(thread, heap) {
        Err(Stop::Halt(Halt::Failed(Kind::Leak, method.place)))
    } else {
        Ok(Deed::Ends)
    }
}

// Whether an object is a lock that a thread owns.
fn is_owned(thread: u32, object: &Object) -> bool
    ensures { result ≡ owned.is_owned thread object.now }
{
    match object.lock {
        Some(lock) => lock.owner == Some(thread),
        None => false,
    }
}

// Whether a thread owns a lock.
fn owns_any(thread: u32, heap: &[Object]) -> bool
    ensures { result ≡ list_any (owned.is_owned thread) heap.now }
{
    heap.iter().any(|object| is_owned(thread, object))
}
