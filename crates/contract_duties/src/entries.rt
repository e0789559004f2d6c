// The tests of contracts where calls begin.
ghost use Rattle.std.specs.Prelude.{◌≡◌, ◌<◌, ◌-◌, ◌^◌, length};
ghost use Rattle.machine_model.specs.Calls as calls;
ghost use Rattle.machine_values.specs.Agreement.{Agrees};
ghost use Rattle.machine_values.specs.Bits.{has_128_bits};
ghost use Rattle.contract_reading.specs.Scenes.{scene_in};
ghost use Rattle.contract_reading.specs.Verdicts.{placed};
ghost use Rattle.contract_duties.specs.Listed.{duties_in, duties_where_bounded};

use crate::duty::{Bounds, Duty};
use crate::owned::{must_terminate, owns_beside};
use crate::walk::duties_of;
use contract_reading::{Placing, View, locals_of, test_atoms};
use machine_model::{Frame, Halt, Object};
use machine_values::Stop;
use py_base::{Kind, Place};
use py_syntax::{Method, Module, Value};
use sqlite_items::Items;
use std::alloc::Global;

/// The entry tests of one contract: its atoms, then its measures and caps. They give the duties that the contract names.
pub fn entry_duties<'a>(
    alloc: Global,
    m: &Module,
    t: u32,
    view: View<'_>,
    bounds: Bounds<'a>,
    method: &Method,
) -> Result<Items<Duty>, Stop>
    ensures { Agrees (calls.entry_duties has_128_bits m.now t view.entry.heap.now (placed bounds.entry.at) bounds.entry.measure bounds.entry.caps.now (scene_in view.entry) method.now) result duties_in }
{
    test_atoms(
        alloc,
        m,
        t,
        view,
        Kind::PreValue,
        bounds.at,
        method.pre.as_slice(),
    )?;
    duties_of(alloc, method.pre.as_slice(), view, bounds)
}

/// A call from a bound method, or while the thread owns a lock that the contract doesn't name, asks for `MustTerminate`.
pub fn is_bounded(
    heap: &[Object],
    t: u32,
    measure: Option<i128>,
    found: &[Duty],
    method: &Method,
) -> bool
    ensures { result ≡ calls.is_bounded heap.now t measure (duties_in found.now) method.now }
{
    if measure.is_some() || owns_beside(found, heap, t) {
        must_terminate(method.pre.as_slice())
    } else {
        true
    }
}

// The entry tests of a contract, and that it is bounded where it must be.
fn bounded_duties<'a>(
    alloc: Global,
    m: &Module,
    t: u32,
    view: View<'_>,
    bounds: Bounds<'a>,
    p: Place,
    method: &Method,
) -> Result<Items<Duty>, Stop>
    ensures { Agrees (duties_where_bounded (calls.entry_duties has_128_bits m.now t view.entry.heap.now (placed bounds.entry.at) bounds.entry.measure bounds.entry.caps.now (scene_in view.entry) method.now) p (λ ds. calls.is_bounded view.entry.heap.now t bounds.entry.measure ds method.now)) result duties_in }
{
    let found = entry_duties(alloc, m, t, view, bounds, method)?;
    if is_bounded(view.heap, t, bounds.measure, found.as_slice(), method) {
        Ok(found)
    } else {
        Err(Stop::Halt(Halt::Failed(Kind::NoMeasure, p)))
    }
}

/// The entry tests of a contract at a call from a place.
pub fn call_tests(
    alloc: Global,
    m: &Module,
    t: u32,
    heap: &[Object],
    p: Place,
    caller: &Frame,
    args: &[Value],
    method: &Method,
) -> Result<Items<Duty>, Stop>
    requires few { length m.now.names < 2 ^ 32 - 1 }
    ensures { Agrees (calls.call_tests has_128_bits m.now t heap.now p caller.now args.now method.now) result duties_in }
{
    let store = locals_of(alloc, args)?;
    let view = View::of(m, heap, heap, store.as_slice(), None);
    let bounds = Bounds {
        at: Placing::At(p),
        measure: caller.measure,
        caps: caller.caps.as_slice(),
    };
    bounded_duties(alloc, m, t, view, bounds, p, method)
}
