// Contracts at the moments of a run.
ghost use Rattle.std.specs.Prelude.{◌≡◌, ◌<◌, ◌-◌, ◌^◌, ◌∷◌, [], length};
ghost use Rattle.machine_model.specs.Reading as reading;
ghost use Rattle.machine_model.specs.Moments as moments;
ghost use Rattle.machine_values.specs.Agreement.{Agrees};
ghost use Rattle.machine_values.specs.Bits.{has_128_bits};
ghost use Rattle.contract_reading.specs.Scenes.{scene_in};
ghost use Rattle.contract_reading.specs.Openings.{unmark};
ghost use Rattle.contract_reading.specs.Verdicts.{missed, held_by, placed};

use crate::assertions::{Judging, judge, opens};
use crate::path::Path;
use crate::room::openings;
use crate::scene::View;
use crate::verdict::{Holder, Miss};
use machine_model::{Halt, Object};
use machine_values::Stop;
use py_base::{Kind, Place};
use py_syntax::{Assertion, Module, Value};
use std::alloc::Global;

/// Where a fault of an atom stands.
#[derive(Clone, Copy, Debug, PartialEq, Eq)]
pub enum Placing {
    /// At the atom.
    Atom,
    /// At the call, the assertion or the head that asks.
    At(Place),
}

// A reading that would need more openings than fit into a number ends as one without memory.
fn unmark<T>(read: Result<T, Stop>) -> Result<T, Stop>
    ensures { result ≡ unmark read }
{
    match read {
        Ok(found) => Ok(found),
        Err(Stop::Halt(Halt::Waits)) => Err(Stop::OutOfMemory),
        Err(stop) => Err(stop),
    }
}

/// The first atom of an assertion that doesn't hold, if there is one.
pub fn read_assertion(
    alloc: Global,
    m: &Module,
    holder: Holder,
    view: View<'_>,
    a: &Assertion,
) -> Result<Option<Miss>, Stop>
    ensures { Agrees (reading.read_assertion has_128_bits m.now (length view.entry.heap.now) (held_by view.entry.heap.now holder) (scene_in view.entry) a.now) result missed }
{
    let path = Path::Empty;
    let judging = Judging {
        module: m,
        path: &path,
        left: openings(m, view.heap.len()),
        holder,
    };
    unmark(judge(alloc, a, judging, view))
}

/// The first atom of several assertions that doesn't hold.
pub fn read_assertions(
    alloc: Global,
    m: &Module,
    holder: Holder,
    view: View<'_>,
    all: &[Assertion],
) -> Result<Option<Miss>, Stop>
    ensures { Agrees (reading.read_assertions has_128_bits m.now (length view.entry.heap.now) (held_by view.entry.heap.now holder) (scene_in view.entry) all.now) result missed }
{
    for a in all {
        match read_assertion(alloc, m, holder, view, a)? {
            None => {}
            Some(miss) => return Ok(Some(miss)),
        }
    }
    Ok(None)
}

/// The place of a fault of the atom at a place.
pub fn place_of(at: Placing, p: Place) -> Place
    ensures { result ≡ placed at p }
{
    match at {
        Placing::Atom => p,
        Placing::At(q) => q,
    }
}

// The fault of an atom that doesn't hold: of the moment's kind, or `NotHeld` for a duty.
fn settle(kind: Kind, at: Placing, miss: Option<Miss>) -> Result<(), Stop>
    ensures { Agrees (moments.settled kind (placed at) (missed miss)) result (λ u. tt) }
{
    match miss {
        None => Ok(()),
        Some(Miss::Untrue(p)) => Err(Stop::Halt(Halt::Failed(kind, place_of(at, p)))),
        Some(Miss::Unheld(p)) => Err(Stop::Halt(Halt::Failed(Kind::NotHeld, place_of(at, p)))),
    }
}

/// Each atom of these assertions holds for a thread, or the first that doesn't is a fault.
pub fn test_atoms(
    alloc: Global,
    m: &Module,
    t: u32,
    view: View<'_>,
    kind: Kind,
    at: Placing,
    all: &[Assertion],
) -> Result<(), Stop>
    ensures { Agrees (moments.atoms_hold has_128_bits m.now t view.entry.heap.now (scene_in view.entry) kind (placed at) all.now) result (λ u. tt) }
{
    let miss = read_assertions(alloc, m, Holder::Thread(t), view, all)?;
    settle(kind, at, miss)
}

/// One assertion holds for a thread, or its first atom that doesn't is a fault.
#[tactic(auto, using(crate::proofs::Openings::one_read))]
pub fn test_assertion(
    alloc: Global,
    m: &Module,
    t: u32,
    view: View<'_>,
    kind: Kind,
    at: Placing,
    a: &Assertion,
) -> Result<(), Stop>
    ensures { Agrees (moments.atoms_hold has_128_bits m.now t view.entry.heap.now (scene_in view.entry) kind (placed at) (a.now ∷ [])) result (λ u. tt) }
{
    let miss = read_assertion(alloc, m, Holder::Thread(t), view, a)?;
    settle(kind, at, miss)
}

// Whether an instance holds that is met outside of all others.
fn open_instance(
    alloc: Global,
    m: &Module,
    view: View<'_>,
    q: u32,
    vs: &[Value],
) -> Result<bool, Stop>
    ensures { Agrees (reading.opens_within has_128_bits m.now (scene_in view.entry) (reading.room m.now (length view.entry.heap.now)) [] q vs.now) result (λ b. b) }
{
    let path = Path::Empty;
    let judging = Judging {
        module: m,
        path: &path,
        left: openings(m, view.heap.len()),
        holder: Holder::Anyone,
    };
    unmark(opens(alloc, q, vs, judging, view))
}

/// A lock's invariant holds on a heap, where the lock is made or released.
pub fn test_lock_invariant(
    alloc: Global,
    m: &Module,
    heap: &[Object],
    pred: u32,
    lock: u32,
    p: Place,
) -> Result<(), Stop>
    requires few { length m.now.names < 2 ^ 32 - 1 }
    ensures { Agrees (moments.lock_invariant_holds has_128_bits m.now heap.now pred lock p) result (λ u. tt) }
{
    let view = View::of(m, heap, heap, &[], None);
    if open_instance(alloc, m, view, pred, &[Value::Ref(lock)])? {
        Ok(())
    } else {
        Err(Stop::Halt(Halt::Failed(Kind::LockInvariant, p)))
    }
}
