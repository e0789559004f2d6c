// Runs that go on, and how they end.
ghost use Rattle.std.specs.Prelude.{◌≡◌, ◌+◌, IfOk, IfErr, nat_lt, if◌then◌else◌};
ghost use Rattle.schedule_runner.specs.Output.{thread_of, unfinished_from};
ghost use Rattle.schedule_runner.specs.Playing.{turn_in};

use crate::ending::{RunEnd, RunFault};
use crate::grant::Grant;
use machine_model::{State, ThreadState};
use machine_step::{all_ended, is_stuck};
use py_base::OutOfMemory;
use py_syntax::Module;
use sqlite_items::Items;
use std::alloc::Global;

/// A run that goes on: its state, and the thread that got the last step.
#[derive(Debug, Drop)]
pub struct Running {
    pub state: State,
    pub last: u64,
}

/// Whether a run goes on.
#[derive(Debug, Drop)]
pub enum Turn {
    Goes,
    Ends(RunEnd),
}

impl Running {
    /// The thread that gets a step.
    pub fn thread_for(&self, grant: Grant) -> u64
        ensures { result ≡ thread_of self.now.state self.now.last grant }
    {
        match grant {
            Grant::To(thread) => thread,
            Grant::Following => following(self.last, self.state.threads.as_slice().len() as u64),
        }
    }
}

// The number that follows one, if it is below the count, and else 0.
fn following(last: u64, count: u64) -> u64
    ensures { result ≡ (if nat_lt (last + 1) count then last + 1 else 0) }
{
    match last.checked_add(1) {
        Some(next) if next < count => next,
        _ => 0,
    }
}

// A number of a thread.
fn number_of(at: usize) -> Result<u32, OutOfMemory>
    ensures { IfOk result (λ n. n ≡ at) }
{
    match u32::try_from(at) {
        Ok(number) => Ok(number),
        Err(_) => Err(OutOfMemory),
    }
}

/// The numbers of the unfinished threads, in ascending order.
pub fn unfinished(alloc: Global, threads: &[ThreadState]) -> Result<Items<u32>, OutOfMemory>
    ensures { IfOk result (λ numbers. numbers ≡ unfinished_from 0 threads.now) }
{
    let mut numbers = Items::new(alloc);
    for (at, thread) in threads.iter().enumerate() {
        if !thread.ended {
            numbers.push(number_of(at)?)?;
        }
    }
    Ok(numbers)
}

/// Whether a run goes on in a state.
pub fn turn_in(alloc: Global, m: &Module, s: &State) -> Result<Turn, RunFault>
    ensures ok { IfOk result (λ turn. turn ≡ turn_in s.now) }
    ensures err { IfErr result (λ fault. fault ≡ RunFault.OutOfMemory) }
{
    if all_ended(s) {
        return Ok(Turn::Ends(RunEnd::Finished));
    }
    if !is_stuck(m, s) {
        return Ok(Turn::Goes);
    }
    match unfinished(alloc, s.threads.as_slice()) {
        Ok(threads) => Ok(Turn::Ends(RunEnd::Stuck(threads))),
        Err(_) => Err(RunFault::OutOfMemory),
    }
}
