// The locks that a thread owns, and what must end.
ghost use Rattle.std.specs.Prelude.{◌≡◌, ◌&&◌, not, map};
ghost use Rattle.std.specs.List.{list_any};
ghost use Rattle.machine_model.specs.Heap as heaps;
ghost use Rattle.machine_model.specs.Duties as duties;
ghost use Rattle.machine_model.specs.Moments as moments;
ghost use Rattle.machine_model.specs.Frames as frames;
ghost use Rattle.contract_duties.specs.Listed.{duty_in, duties_in, ends};

use crate::duty::Duty;
use machine_model::Object;
use py_syntax::{Assertion, AtomForm};

// Whether the object at a place of the heap is a lock that a thread owns.
fn owns_at(heap: &[Object], t: u32, at: usize) -> bool
    ensures { result ≡ heaps.owns heap.now t at }
{
    match heap.get(at) {
        Some(object) => match object.lock {
            Some(lock) => match lock.owner {
                Some(owner) => t == owner,
                None => false,
            },
            None => false,
        },
        None => false,
    }
}

fn names_lock(at: usize, duty: &Duty) -> bool
    ensures { result ≡ duties.names_lock at (duty_in duty.now) }
{
    match duty {
        Duty::Capped(_, Some(lock), _) => at == *lock as usize,
        _ => false,
    }
}

fn is_named(found: &[Duty], at: usize) -> bool
    ensures { result ≡ list_any (duties.names_lock at) (duties_in found.now) }
{
    for duty in found {
        if names_lock(at, duty) {
            return true;
        }
    }
    false
}

fn owns_unnamed(found: &[Duty], heap: &[Object], t: u32, at: usize) -> bool
    ensures { result ≡ (heaps.owns heap.now t at && not (list_any (duties.names_lock at) (duties_in found.now))) }
{
    owns_at(heap, t, at) && !is_named(found, at)
}

/// Whether a thread owns a lock beside those that the duties name.
#[tactic(auto, using(crate::proofs::Beside::beside_step))]
pub fn owns_beside(found: &[Duty], heap: &[Object], t: u32) -> bool
    ensures { result ≡ moments.owns_beside (duties_in found.now) heap.now t }
{
    for at in 0..heap.len() {
        if owns_unnamed(found, heap, t, at) {
            return true;
        }
    }
    false
}

// Whether an assertion has `MustTerminate`.
#[cycle(terminates)]
fn terminates(a: &Assertion) -> bool
    ensures { result ≡ ends a.now }
{
    match &a.form {
        AtomForm::Both(all) => any_terminates(all.as_slice()),
        AtomForm::Terminates(_) => true,
        _ => false,
    }
}

// Whether one of these has `MustTerminate`.
#[cycle(terminates)]
fn any_terminates(all: &[Assertion]) -> bool
    ensures { result ≡ list_any (λ b. b) (map ends all.now) }
{
    for a in all {
        if terminates(a) {
            return true;
        }
    }
    false
}

/// Whether assertions have `MustTerminate`.
pub fn must_terminate(all: &[Assertion]) -> bool
    ensures { result ≡ frames.must_terminate all.now }
{
    for a in all {
        if terminates(a) {
            return true;
        }
    }
    false
}
