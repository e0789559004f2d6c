// One step of one thread.
ghost use Rattle.machine_step.specs.Built.{IsBuilt};
ghost use Rattle.machine_step.specs.Stepping.{IsStep};

use crate::commit::carry_out;
use crate::fault::StepFault;
use crate::plan::next_plan;
use machine_model::{Halt, Moved, State};
use machine_values::Stop;
use py_base::OutOfMemory;
use py_syntax::Module;
use std::alloc::Global;

/// One step of a thread: its next item is done, or the state stays as it was.
pub fn step(alloc: Global, m: &Module, s: &mut State, thread: u32) -> Result<Moved, StepFault>
    requires { IsBuilt m.now s.old }
    ensures step { IsStep m.now s.old thread result s.new }
    ensures built { IsBuilt m.now s.new }
{
    match next_plan(alloc, m, s, thread) {
        Ok(plan) => match carry_out(alloc, plan, s, thread) {
            Ok(trace) => Ok(Moved::Went(trace)),
            Err(OutOfMemory) => Err(StepFault::OutOfMemory),
        },
        Err(Stop::Halt(Halt::Failed(kind, place))) => Ok(Moved::Failed(kind, place)),
        Err(Stop::Halt(Halt::Wide(place))) => Err(StepFault::IntTooLarge(place)),
        Err(Stop::Halt(Halt::Waits)) => Ok(Moved::Same),
        Err(Stop::Halt(Halt::NoOperand)) => Ok(Moved::Same),
        Err(Stop::OutOfMemory) => Err(StepFault::OutOfMemory),
    }
}
