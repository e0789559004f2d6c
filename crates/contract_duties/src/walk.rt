// The duties of contracts, in the order of the text.
ghost use Rattle.std.specs.Prelude.{◌≡◌, map, if◌then◌else◌};
ghost use Rattle.machine_model.specs.Results.{then_do};
ghost use Rattle.machine_model.specs.Reading.{is_true};
ghost use Rattle.machine_model.specs.Heap as heap;
ghost use Rattle.machine_model.specs.Duties as duties;
ghost use Rattle.machine_values.specs.Agreement.{Agrees};
ghost use Rattle.machine_values.specs.Bits.{has_128_bits};
ghost use Rattle.contract_reading.specs.Scenes.{scene_in, told};
ghost use Rattle.contract_duties.specs.Listed.{duties_in, added, test_by};

use crate::duty::{Bounds, Duty, note};
use contract_reading::{View, evaluate, is_true};
use machine_model::Halt;
use machine_values::Stop;
use py_base::Place;
use py_syntax::{Assertion, AtomForm, Expr, Value};
use sqlite_items::Items;
use std::alloc::Global;

fn number_in(value: Option<Value>) -> Option<i128>
    ensures { result ≡ heap.number_in value }
{
    match value {
        Some(Value::Num(z)) => Some(z),
        _ => None,
    }
}

fn reference_in(value: Option<Value>) -> Option<u32>
    ensures { result ≡ duties.reference_in value }
{
    match value {
        Some(Value::Ref(r)) => Some(r),
        _ => None,
    }
}

// A measure that was read.
fn note_bound<'a>(
    p: Place,
    read: Result<Option<Value>, Place>,
    bounds: Bounds<'a>,
    found: &mut Items<Duty>,
) -> Result<(), Stop>
    ensures { Agrees (added (duties_in found.old) (then_do (told read) (λ n. duties.one_duty (test_by bounds.entry) (duties.Bound p (heap.number_in n))))) result (λ u. duties_in found.new) }
{
    match read {
        Ok(n) => note(Duty::Bound(p, number_in(n)), bounds, found),
        Err(q) => Err(Stop::Halt(Halt::Wide(q))),
    }
}

// A cap that was read, for a lock that was read.
fn note_cap<'a>(
    p: Place,
    lock: Result<Option<Value>, Place>,
    read: Result<Option<Value>, Place>,
    bounds: Bounds<'a>,
    found: &mut Items<Duty>,
) -> Result<(), Stop>
    ensures { Agrees (added (duties_in found.old) (then_do (told lock) (λ v. then_do (told read) (λ n. duties.one_duty (test_by bounds.entry) (duties.Capped p (duties.reference_in v) (heap.number_in n)))))) result (λ u. duties_in found.new) }
{
    match lock {
        Ok(v) => match read {
            Ok(n) => note(
                Duty::Capped(p, reference_in(v), number_in(n)),
                bounds,
                found,
            ),
            Err(q) => Err(Stop::Halt(Halt::Wide(q))),
        },
        Err(q) => Err(Stop::Halt(Halt::Wide(q))),
    }
}

// The cap of an atom that has one.
fn walk_release<'a, 'v>(
    p: Place,
    lock: &Expr,
    cap: &Option<Expr>,
    view: View<'v>,
    bounds: Bounds<'a>,
    found: &mut Items<Duty>,
) -> Result<(), Stop>
    ensures { Agrees (added (duties_in found.old) (duties.capped has_128_bits (test_by bounds.entry) (scene_in view.entry) p lock.now cap.now)) result (λ u. duties_in found.new) }
{
    match cap {
        None => Ok(()),
        Some(e) => note_cap(p, evaluate(lock, view), evaluate(e, view), bounds, found),
    }
}

// The duties of an assertion.
#[cycle(walk)]
fn walk<'a, 'v>(
    a: &Assertion,
    view: View<'v>,
    bounds: Bounds<'a>,
    found: &mut Items<Duty>,
) -> Result<(), Stop>
    ensures { Agrees (added (duties_in found.old) (duties.walk has_128_bits a.now (test_by bounds.entry) (scene_in view.entry))) result (λ u. duties_in found.new) }
{
    match &a.form {
        AtomForm::Both(all) => walk_all(all.as_slice(), view, bounds, found),
        AtomForm::When(e, b) => walk_where(evaluate(e, view), b.get(), view, bounds, found),
        AtomForm::AccOf(_, _, _) => Ok(()),
        AtomForm::Holds(_) => Ok(()),
        AtomForm::Terminates(e) => note_bound(a.place, evaluate(e, view), bounds, found),
        AtomForm::Releases(lock, cap) => walk_release(a.place, lock, cap, view, bounds, found),
        AtomForm::Joins(_, _, _) => Ok(()),
        AtomForm::WaitBelow(_) => Ok(()),
        AtomForm::True(_) => Ok(()),
    }
}

// The duties of these assertions, in turn.
#[cycle(walk)]
#[tactic(auto, using(crate::proofs::Adding::added_then))]
fn walk_all<'a, 'v>(
    all: &[Assertion],
    view: View<'v>,
    bounds: Bounds<'a>,
    found: &mut Items<Duty>,
) -> Result<(), Stop>
    ensures { Agrees (added (duties_in found.old) (duties.walk_all (map (duties.walk has_128_bits) all.now) (test_by bounds.entry) (scene_in view.entry))) result (λ u. duties_in found.new) }
{
    for a in all {
        walk(a, view, bounds, found)?;
    }
    Ok(())
}

// The duties of the assertion, where its condition was read as true.
#[cycle(walk)]
fn walk_where<'a, 'v>(
    read: Result<Option<Value>, Place>,
    a: &Assertion,
    view: View<'v>,
    bounds: Bounds<'a>,
    found: &mut Items<Duty>,
) -> Result<(), Stop>
    ensures { Agrees (added (duties_in found.old) (then_do (told read) (λ v. if is_true v then duties.walk has_128_bits a.now (test_by bounds.entry) (scene_in view.entry) else duties.no_duty))) result (λ u. duties_in found.new) }
{
    match read {
        Ok(v) => {
            if is_true(v) {
                walk(a, view, bounds, found)
            } else {
                Ok(())
            }
        }
        Err(q) => Err(Stop::Halt(Halt::Wide(q))),
    }
}

/// The duties that assertions name where their conditions are true, each tested when its number is read.
pub fn duties_of<'a, 'v>(
    alloc: Global,
    all: &[Assertion],
    view: View<'v>,
    bounds: Bounds<'a>,
) -> Result<Items<Duty>, Stop>
    ensures { Agrees (duties.duties_of has_128_bits all.now (test_by bounds.entry) (scene_in view.entry)) result duties_in }
{
    let mut found = Items::new(alloc);
    walk_all(all, view, bounds, &mut found)?;
    Ok(found)
}
