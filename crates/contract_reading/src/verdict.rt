// The atoms of assertions, over what their parts are read as.
ghost use Rattle.std.specs.Prelude.{◌≡◌, if◌then◌else◌};
ghost use Rattle.machine_model.specs.Results.{Got, then_do};
ghost use Rattle.machine_model.specs.Reading.{Unheld, holds, verdict_if, is_true, has_field};
ghost use Rattle.machine_model.specs.Moments as moments;
ghost use Rattle.machine_model.specs.Heap as heaps;
ghost use Rattle.machine_values.specs.Agreement.{Agrees};
ghost use Rattle.contract_reading.specs.Scenes.{scene_in, told};
ghost use Rattle.contract_reading.specs.Verdicts.{missed, held_by};

use crate::objects::{field_of, lock_of};
use crate::scene::View;
use machine_model::{Halt, Object};
use machine_values::Stop;
use py_base::Place;
use py_syntax::Value;

/// An atom that doesn't hold, and its place.
#[derive(Clone, Copy, Debug, PartialEq, Eq)]
pub enum Miss {
    /// Its expression is false.
    Untrue(Place),
    /// It names a duty for a lock that isn't held.
    Unheld(Place),
}

/// Who must hold the locks that duties are named for.
#[derive(Clone, Copy, Debug, PartialEq, Eq)]
pub enum Holder {
    Anyone,
    Thread(u32),
}

/// Whether what was read is true; an expression that isn't defined is false.
pub fn is_true(read: Option<Value>) -> bool
    ensures { result ≡ is_true read }
{
    match read {
        Some(Value::Truth(truth)) => truth,
        _ => false,
    }
}

pub fn verdict_if(p: Place, truth: bool) -> Result<Option<Miss>, Stop>
    ensures { Agrees (verdict_if p truth) result missed }
{
    if truth {
        Ok(None)
    } else {
        Ok(Some(Miss::Untrue(p)))
    }
}

/// What was read must be true.
pub fn truth(p: Place, read: Result<Option<Value>, Place>) -> Result<Option<Miss>, Stop>
    ensures { Agrees (then_do (told read) (λ v. verdict_if p (is_true v))) result missed }
{
    match read {
        Ok(v) => verdict_if(p, is_true(v)),
        Err(q) => Err(Stop::Halt(Halt::Wide(q))),
    }
}

fn has_field(view: View<'_>, name: u32, o: Option<Value>) -> bool
    ensures { result ≡ has_field (scene_in view.entry) name o }
{
    match o {
        Some(Value::Ref(r)) => field_of(view.now, r, name).is_some(),
        _ => false,
    }
}

/// What was read must be an object with this field.
pub fn access(
    p: Place,
    view: View<'_>,
    name: u32,
    read: Result<Option<Value>, Place>,
) -> Result<Option<Miss>, Stop>
    ensures { Agrees (then_do (told read) (λ v. verdict_if p (has_field (scene_in view.entry) name v))) result missed }
{
    match read {
        Ok(v) => verdict_if(p, has_field(view, name, v)),
        Err(q) => Err(Stop::Halt(Halt::Wide(q))),
    }
}

/// Whether a thread holds the lock.
pub fn owns(heap: &[Object], t: u32, r: u32) -> bool
    ensures { result ≡ heaps.owns heap.now t r }
{
    match lock_of(heap, r) {
        Some(lock) => match lock.owner {
            Some(owner) => t == owner,
            None => false,
        },
        None => false,
    }
}

fn owns_value(heap: &[Object], t: u32, lock: Option<Value>) -> bool
    ensures { result ≡ moments.owns_value heap.now t lock }
{
    match lock {
        Some(Value::Ref(r)) => owns(heap, t, r),
        _ => false,
    }
}

fn is_held(heap: &[Object], holder: Holder, lock: Option<Value>) -> bool
    ensures { result ≡ held_by heap.now holder lock }
{
    match holder {
        Holder::Anyone => true,
        Holder::Thread(t) => owns_value(heap, t, lock),
    }
}

/// What was read must be a lock that is held.
pub fn duty(
    p: Place,
    heap: &[Object],
    holder: Holder,
    read: Result<Option<Value>, Place>,
) -> Result<Option<Miss>, Stop>
    ensures { Agrees (then_do (told read) (λ v. if held_by heap.now holder v then holds else Got (Some (Unheld p)))) result missed }
{
    match read {
        Ok(v) => {
            if is_held(heap, holder, v) {
                Ok(None)
            } else {
                Ok(Some(Miss::Unheld(p)))
            }
        }
        Err(q) => Err(Stop::Halt(Halt::Wide(q))),
    }
}
