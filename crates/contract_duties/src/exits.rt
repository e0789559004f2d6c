// The tests of contracts where calls end.
ghost use Rattle.std.specs.Prelude.{◌≡◌, ◌<◌, ◌-◌, ◌^◌, ◌∷◌, [], Some, None, MatchOption, length};
ghost use Rattle.py_syntax.specs.Classes as classes;
ghost use Rattle.py_base.specs.declared.Kind.TheVariants.{Undeclared};
ghost use Rattle.py_syntax.specs.WaysOut.{exit_for, way_of};
ghost use Rattle.machine_model.specs.declared.Halt.TheVariants.{Failed};
ghost use Rattle.machine_model.specs.Results.{then_do, of_option};
ghost use Rattle.machine_model.specs.Moments.{atoms_hold, at_atom};
ghost use Rattle.machine_model.specs.Calls as calls;
ghost use Rattle.machine_values.specs.Agreement.{Agrees};
ghost use Rattle.machine_values.specs.Bits.{has_128_bits};
ghost use Rattle.contract_reading.specs.Scenes.{scene_in};
ghost use Rattle.contract_duties.specs.Ends.{ending_in};

use contract_reading::{Placing, View, test_assertion, test_atoms};
use machine_model::{Frame, Halt, Object};
use machine_values::Stop;
use py_base::{Kind, Place};
use py_syntax::{Assertion, Method, Module, Value};
use std::alloc::Global;

/// How a call ends.
#[derive(Clone, Copy, Debug, PartialEq, Eq)]
pub enum End {
    /// Normally, with a value.
    Normal(Value),
    /// By an exception of a class.
    Raised(u32),
}

/// Whether the class `d` is `c` or stands above it.
#[tactic(auto, using(crate::proofs::Bases::subclass_is))]
pub fn is_subclass(m: &Module, c: u32, d: u32) -> bool
    ensures { result ≡ classes.is_subclass m.now c d }
{
    class_table::is_subclass(m.classes.as_slice(), c, d)
}

/// The first exceptional postcondition whose class is that of the exception or above it.
pub fn exit_for<'m>(m: &Module, c: u32, exits: &'m [(u32, Assertion)]) -> Option<&'m Assertion>
    ensures { MatchOption result (exit_for m.now c exits.entry.now ≡ None) (λ a. exit_for m.now c exits.entry.now ≡ Some (a.now ∷ [])) }
{
    for exit in exits {
        if is_subclass(m, c, exit.0) {
            return Some(&exit.1);
        }
    }
    None
}

/// A method by its number.
pub fn method_at<'m>(m: &'m Module, i: u32) -> Result<&'m Method, Stop>
    ensures { Agrees (calls.method_at m.now i) result (λ method. method.now) }
{
    match m.methods.get(i as usize) {
        Some(method) => Ok(method),
        None => Err(Stop::Halt(Halt::NoOperand)),
    }
}

// The value that a call gives.
fn value_of(end: End) -> Option<Value>
    ensures { result ≡ calls.result_of (ending_in end) }
{
    match end {
        End::Normal(v) => Some(v),
        End::Raised(_) => None,
    }
}

// The postconditions of an end hold.
fn end_tests(
    alloc: Global,
    m: &Module,
    t: u32,
    view: View<'_>,
    end: End,
    p: Place,
    method: &Method,
) -> Result<(), Stop>
    ensures { Agrees (then_do (of_option (Failed Undeclared p) (way_of m.now method.now (ending_in end))) (atoms_hold has_128_bits m.now t view.entry.heap.now (scene_in view.entry) (calls.end_kind (ending_in end)) at_atom)) result (λ u. tt) }
{
    match end {
        End::Normal(_) => {
            let all = method.post.as_slice();
            test_atoms(alloc, m, t, view, Kind::PostValue, Placing::Atom, all)
        }
        End::Raised(c) => match exit_for(m, c, method.exits.as_slice()) {
            Some(a) => test_assertion(alloc, m, t, view, Kind::Exceptional, Placing::Atom, a),
            None => Err(Stop::Halt(Halt::Failed(Kind::Undeclared, p))),
        },
    }
}

/// The tests of one contract at the end of a call, where an exception came from this place.
pub fn exit_tests(
    alloc: Global,
    m: &Module,
    t: u32,
    heap: &[Object],
    frame: &Frame,
    end: End,
    p: Place,
    method: &Method,
) -> Result<(), Stop>
    requires few { length m.now.names < 2 ^ 32 - 1 }
    ensures { Agrees (calls.exit_tests has_128_bits m.now t heap.now frame.now (ending_in end) p method.now) result (λ u. tt) }
{
    let before = frame.before.as_slice();
    let store = frame.store.as_slice();
    let view = View::of(m, heap, before, store, value_of(end));
    end_tests(alloc, m, t, view, end, p, method)
}

/// The tests at the end of a call: of the method that ran, and then of the one that the caller sees.
pub fn both_exit_tests(
    alloc: Global,
    m: &Module,
    t: u32,
    heap: &[Object],
    frame: &Frame,
    end: End,
    p: Place,
    seen: u32,
) -> Result<(), Stop>
    requires few { length m.now.names < 2 ^ 32 - 1 }
    ensures { Agrees (calls.both_exit_tests has_128_bits m.now t heap.now frame.now (ending_in end) p seen) result (λ u. tt) }
{
    let run = method_at(m, frame.method)?;
    exit_tests(alloc, m, t, heap, frame, end, p, run)?;
    if seen == frame.method {
        return Ok(());
    }
    let method = method_at(m, seen)?;
    exit_tests(alloc, m, t, heap, frame, end, p, method)
}
