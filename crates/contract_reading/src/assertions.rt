// The truth of assertions.
ghost use Rattle.std.specs.Prelude.{◌≡◌, ◌<◌, ◌-◌, ◌∷◌, map, if◌then◌else◌};
ghost use Rattle.machine_model.specs.Results.{then_do};
ghost use Rattle.machine_model.specs.Reading.{holds, is_true, judgement, all_hold, opened_at, values_of, within};
ghost use Rattle.py_syntax.specs.declared.Instance.{out-Instance};
ghost use Rattle.machine_values.specs.Agreement.{Agrees};
ghost use Rattle.machine_values.specs.Bits.{has_128_bits};
ghost use Rattle.contract_reading.specs.Scenes.{scene_in, told};
ghost use Rattle.contract_reading.specs.Openings.{opened_in, opens_marked, body_marked};
ghost use Rattle.contract_reading.specs.Verdicts.{missed};
ghost use Rattle.contract_reading.specs.Judges.{judge_in};

use crate::arguments::{locals_of, values_of};
use crate::evaluation::evaluate;
use crate::path::{Path, is_open};
use crate::scene::View;
use crate::verdict::{Holder, Miss, access, duty, is_true, truth, verdict_if};
use machine_model::Halt;
use machine_values::Stop;
use py_base::Place;
use py_syntax::{Assertion, AtomForm, Instance, Module, Value};
use std::alloc::Global;

/// What reading an assertion asks for besides its view: the predicates, the open instances, how many may still be opened
/// within one another, and who must hold the locks of duties.
#[derive(Clone, Copy)]
pub struct Judging<'a> {
    pub module: &'a Module,
    pub path: &'a Path<'a>,
    pub left: u64,
    pub holder: Holder,
}

/// The first atom that doesn't hold, if there is one.
#[cycle(judge)]
pub fn judge<'j, 'v>(
    alloc: Global,
    a: &Assertion,
    j: Judging<'j>,
    view: View<'v>,
) -> Result<Option<Miss>, Stop>
    ensures { Agrees (judgement has_128_bits a.now (judge_in j.entry view.entry) (scene_in view.entry)) result missed }
{
    match &a.form {
        AtomForm::Both(all) => judge_all(alloc, all.as_slice(), j, view),
        AtomForm::When(e, b) => judge_where(alloc, evaluate(e, view), b.get(), j, view),
        AtomForm::AccOf(e, name, _) => access(a.place, view, *name, evaluate(e, view)),
        AtomForm::Holds(i) => judge_instance(alloc, a.place, i, j, view),
        AtomForm::Terminates(_) => Ok(None),
        AtomForm::Releases(lock, _) => duty(a.place, view.heap, j.holder, evaluate(lock, view)),
        AtomForm::Joins(_, _, _) => Ok(None),
        AtomForm::WaitBelow(_) => Ok(None),
        AtomForm::True(e) => truth(a.place, evaluate(e, view)),
    }
}

// All of these, in turn.
#[cycle(judge)]
fn judge_all<'j, 'v>(
    alloc: Global,
    all: &[Assertion],
    j: Judging<'j>,
    view: View<'v>,
) -> Result<Option<Miss>, Stop>
    ensures { Agrees (all_hold (map (judgement has_128_bits) all.now) (judge_in j.entry view.entry) (scene_in view.entry)) result missed }
{
    for a in all {
        match judge(alloc, a, j, view)? {
            None => {}
            Some(miss) => return Ok(Some(miss)),
        }
    }
    Ok(None)
}

// The assertion, where its condition was read as true.
#[cycle(judge)]
fn judge_where<'j, 'v>(
    alloc: Global,
    read: Result<Option<Value>, Place>,
    a: &Assertion,
    j: Judging<'j>,
    view: View<'v>,
) -> Result<Option<Miss>, Stop>
    ensures { Agrees (then_do (told read) (λ v. if is_true v then judgement has_128_bits a.now (judge_in j.entry view.entry) (scene_in view.entry) else holds)) result missed }
{
    match read {
        Ok(v) => {
            if is_true(v) {
                judge(alloc, a, j, view)
            } else {
                Ok(None)
            }
        }
        Err(p) => Err(Stop::Halt(Halt::Wide(p))),
    }
}

// An instance of a predicate.
#[cycle(judge)]
fn judge_instance<'j, 'v>(
    alloc: Global,
    p: Place,
    i: &Instance,
    j: Judging<'j>,
    view: View<'v>,
) -> Result<Option<Miss>, Stop>
    ensures { Agrees (then_do (values_of has_128_bits (scene_in view.entry) (out-Instance i.now).args) (opened_at (judge_in j.entry view.entry) p (out-Instance i.now).pred)) result missed }
{
    match values_of(alloc, i.args.as_slice(), view)? {
        None => Ok(Some(Miss::Untrue(p))),
        Some(values) => {
            let opened = opens(alloc, i.pred, values.as_slice(), j, view)?;
            verdict_if(p, opened)
        }
    }
}

// Whether an instance holds.
#[cycle(judge)]
pub fn opens<'j, 'v>(
    alloc: Global,
    q: u32,
    vs: &[Value],
    j: Judging<'j>,
    view: View<'v>,
) -> Result<bool, Stop>
    ensures { Agrees (opens_marked has_128_bits j.entry.module.now (scene_in view.entry) j.entry.left (opened_in j.entry.path.now) q vs.now) result (λ b. b) }
{
    if j.left == 0 {
        return Err(Stop::Halt(Halt::Waits));
    }
    if is_open(j.path, q, vs) {
        return Ok(false);
    }
    match j.module.predicates.get(q as usize) {
        None => Ok(false),
        Some(pred) => holds_within(alloc, &pred.body, q, vs, j, view),
    }
}

// Whether the body of a predicate holds at these arguments.
#[cycle(judge)]
fn holds_within<'j, 'v>(
    alloc: Global,
    body: &Assertion,
    q: u32,
    vs: &[Value],
    j: Judging<'j>,
    view: View<'v>,
) -> Result<bool, Stop>
    requires { 0 < j.left }
    ensures { Agrees (body_marked has_128_bits (opens_marked has_128_bits j.entry.module.now (within (scene_in view.entry) vs.now) (j.entry.left - 1) ((q, vs.now) ∷ opened_in j.entry.path.now)) (scene_in view.entry) vs.now body.now) result (λ b. b) }
{
    let store = locals_of(alloc, vs)?;
    let path = Path::More(j.path, q, vs);
    let inner = Judging {
        module: j.module,
        path: &path,
        left: j.left - 1,
        holder: Holder::Anyone,
    };
    let miss = judge(alloc, body, inner, view.within(store.as_slice()))?;
    Ok(miss.is_none())
}
