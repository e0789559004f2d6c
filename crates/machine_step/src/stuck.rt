// Which threads can move, and when a run is over or stuck.
ghost use Rattle.std.specs.Prelude.{◌≡◌, find, option_copied, nat_eq, false, not};
ghost use Rattle.std.specs.List.{list_all};
ghost use Rattle.std.specs.Option.{option_map_or};
ghost use Rattle.machine_model.specs.Heap as heaps;
ghost use Rattle.machine_model.specs.Sharing as sharing;
ghost use Rattle.machine_model.specs.Stuck as stuck;

use machine_model::{Frame, Object, Stack, State, ThreadState};
use py_syntax::{Item, Module, Value};

/// Whether every thread has ended.
pub fn all_ended(s: &State) -> bool
    ensures { result ≡ stuck.all_ended s.now }
{
    s.threads.as_slice().iter().all(|thread| thread.ended)
}

/// Whether some thread is unfinished, and every unfinished thread waits.
pub fn is_stuck(_m: &Module, s: &State) -> bool
    ensures { result ≡ stuck.is_stuck s.now }
{
    !all_ended(s) && all_idle(s)
}

/// Whether a thread is there, hasn't ended and doesn't wait.
pub fn can_move(_m: &Module, s: &State, thread: u32) -> bool
    ensures { result ≡ stuck.can_move s.now thread }
{
    match s.threads.get(thread as usize) {
        Some(thread) => !is_idle(s, thread),
        None => false,
    }
}

fn all_idle(s: &State) -> bool
    ensures { result ≡ list_all (stuck.is_idle s.now) s.now.threads }
{
    s.threads.as_slice().iter().all(|thread| is_idle(s, thread))
}

fn is_idle(s: &State, thread: &ThreadState) -> bool
    ensures { result ≡ stuck.is_idle s.now thread.now }
{
    thread.ended || frames_wait(s, &thread.frames)
}

fn frames_wait(s: &State, frames: &Stack<Frame>) -> bool
    ensures { result ≡ stuck.frames_wait s.now frames.now }
{
    match frames.get(0) {
        Some(frame) => item_waits(s, &frame.stack, &frame.control),
        None => false,
    }
}

fn item_waits(s: &State, stack: &Stack<Value>, control: &Stack<Item<Value>>) -> bool
    ensures { result ≡ stuck.item_waits s.now stack.now control.now }
{
    match control.get(0) {
        Some(Item::Acquire(_)) => lock_is_held(s, stack),
        Some(Item::With(_, _)) => lock_is_held(s, stack),
        Some(Item::Join(_, _)) => thread_runs(s, stack),
        _ => false,
    }
}

fn lock_is_held(s: &State, stack: &Stack<Value>) -> bool
    ensures { result ≡ stuck.lock_is_held s.now stack.now }
{
    match stack.get(0) {
        Some(Value::Ref(lock)) => is_held(s.heap.as_slice(), *lock),
        _ => false,
    }
}

fn is_held(heap: &[Object], lock: u32) -> bool
    ensures { result ≡ heaps.is_held heap.now lock }
{
    match heap.get(lock as usize) {
        Some(object) => match object.lock {
            Some(state) => state.owner.is_some(),
            None => false,
        },
        None => false,
    }
}

fn thread_runs(s: &State, stack: &Stack<Value>) -> bool
    ensures { result ≡ stuck.thread_runs s.now stack.now }
{
    match stack.get(0) {
        Some(Value::Ref(object)) => is_running(*object, s.threads.as_slice()),
        _ => false,
    }
}

#[tactic(auto, using(crate::proofs::Running::runs_some, crate::proofs::Running::runs_none))]
fn is_running(object: u32, threads: &[ThreadState]) -> bool
    ensures { result ≡ option_map_or (λ thread. not (thread.1).ended) (sharing.thread_of object threads.now) false }
{
    match thread_of(object, threads) {
        Some(thread) => !thread.ended,
        None => false,
    }
}

fn thread_of(object: u32, threads: &[ThreadState]) -> Option<&ThreadState>
    ensures { option_copied result ≡ find (λ thread. option_map_or (nat_eq object) thread.own false) threads.now }
{
    threads.iter().find(|thread| thread.own == Some(object))
}
