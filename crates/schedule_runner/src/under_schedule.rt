// Runs of a module under a schedule.
ghost use Rattle.std.specs.Prelude.{◌≡◌, false, None, IfOk, IfErr, OnOk, OnErr, IsErrOf};
ghost use Rattle.std.specs.Io.KnownBytes.{Appends};
ghost use Rattle.io_edge.specs.Outside.{AppendsPart, Rose};
ghost use Rattle.machine_values.specs.Bits.{has_128_bits};
ghost use Rattle.machine_step.specs.Built.{IsBuilt};
ghost use Rattle.machine_step.specs.SmallForms.{HasSmallForms};
ghost use Rattle.schedule_runner.specs.Output.{output, output_of, grants_of, end_in, text_of, unfinished};

use crate::ending::{RunEnd, RunFault};
use crate::running::{Running, Turn, turn_in, unfinished};
use crate::schedule::{Schedule, ScheduleLine};
use crate::turn::play_lines;
use io_edge::Sink;
use machine_model::{State, start};
use machine_step::small_modules_are_built;
use py_syntax::Module;
use std::alloc::Global;

/// Runs `main` under a schedule, and writes each line that it prints by one write. The end's own line
/// is the caller's.
pub fn run<O: Sink>(
    alloc: Global,
    m: &Module,
    sched: &Schedule,
    out: &mut O,
) -> Result<RunEnd, RunFault>
    requires { HasSmallForms m.now }
    // The end and the text are those of the run that is defined for numbers of 128 bits.
    ensures ends { IfOk result (λ end. (output_of has_128_bits m.now sched.now.lines).ends ≡ end) }
    ensures whole { OnOk result (Appends (O.written out.old) (O.written out.new)
        (text_of (output_of has_128_bits m.now sched.now.lines).lines)) }
    // A run that is cut short has written a front of the text.
    ensures part { OnErr result (AppendsPart (O.written out.old) (O.written out.new)
        (text_of (output_of has_128_bits m.now sched.now.lines).lines)) }

    // A write that fails is the last one.
    ensures counted { IsErrOf result RunFault.Write →
        Rose (O.faults out.old) (O.faults out.new) }
    ensures not_counted { ¬ IsErrOf result RunFault.Write →
        O.faults out.new ≡ O.faults out.old }
    ensures late { O.faults out.old ≡ 0 → O.late out.old ≡ false →
        O.late out.new ≡ false }
{
    small_modules_are_built();
    let Ok(state) = start(alloc, m) else {
        return Err(RunFault::OutOfMemory);
    };
    match turn_in(alloc, m, &state) {
        Ok(Turn::Goes) => run_on(alloc, m, state, sched.lines.as_slice(), out),
        Ok(Turn::Ends(end)) => Ok(end),
        Err(fault) => Err(fault),
    }
}

// Runs on in the first state.
fn run_on<O: Sink>(
    alloc: Global,
    m: &Module,
    state: State,
    lines: &[ScheduleLine],
    out: &mut O,
) -> Result<RunEnd, RunFault>
    requires built { IsBuilt m.now state }
    requires goes { end_in state ≡ None }
    ensures ends { IfOk result (λ end.
        (output has_128_bits m.now (grants_of lines.now) 0 state).ends ≡ end) }
    ensures whole { OnOk result (Appends (O.written out.old) (O.written out.new)
        (text_of (output has_128_bits m.now (grants_of lines.now) 0 state).lines)) }
    ensures part { OnErr result (AppendsPart (O.written out.old) (O.written out.new)
        (text_of (output has_128_bits m.now (grants_of lines.now) 0 state).lines)) }
    ensures counted { IsErrOf result RunFault.Write →
        Rose (O.faults out.old) (O.faults out.new) }
    ensures not_counted { ¬ IsErrOf result RunFault.Write →
        O.faults out.new ≡ O.faults out.old }
    ensures late { O.faults out.old ≡ 0 → O.late out.old ≡ false →
        O.late out.new ≡ false }
{
    let mut running = Running { state, last: 0 };
    match play_lines(alloc, m, &mut running, lines, out) {
        Ok(Turn::Goes) => spent(alloc, &running.state),
        Ok(Turn::Ends(end)) => Ok(end),
        Err(fault) => Err(fault),
    }
}

// The end of a run whose schedule is at its end.
fn spent(alloc: Global, s: &State) -> Result<RunEnd, RunFault>
    ensures ok { IfOk result (λ end. end ≡ RunEnd.Spent (unfinished s.now)) }
    ensures err { IfErr result (λ fault. fault ≡ RunFault.OutOfMemory) }
{
    match unfinished(alloc, s.threads.as_slice()) {
        Ok(threads) => Ok(RunEnd::Spent(threads)),
        Err(_) => Err(RunFault::OutOfMemory),
    }
}
