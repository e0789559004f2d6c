// The command `run FILE SCHEDULE`.
ghost use Rattle.std.specs.Prelude.{◌≡◌, ◌≢◌, ◌⊎◌, false, ℕ, List, IfOk, Some};
ghost use Rattle.std.specs.Io.KnownBytes.{Appends};
ghost use Rattle.io_edge.specs.Outside.{AppendsPart, Rose};
ghost use Rattle.machine_step.specs.SmallForms.{HasSmallForms};
ghost use Rattle.nagini_cli.specs.Allowed.{RunsFiles};
ghost use Rattle.nagini_cli.specs.Commands as commands;
ghost use Rattle.nagini_cli.specs.Commands.{Names};
ghost use Rattle.nagini_cli.specs.Replies.{Says};
ghost use Rattle.nagini_cli.specs.RunAnswers.{end_text, run_status, run_text, status_of};
ghost use Rattle.nagini_cli.specs.Statuses.{IsAnswered, IsCutShort, IsQuiet};
ghost use Rattle.nagini_cli.specs.Texts as texts;

use crate::prepare::{Prepared, prepare};
use crate::reply::{Reply, finish};
use crate::status::{FINISHED, NO_MEMORY, READ_FAULT, SPENT, STOPPED, TOO_LARGE, WRITE_FAULT};
use crate::texts::{spent_line, stopped_line, stuck_line, too_large_line};
use io_edge::{Files, Sink};
use py_base::OutOfMemory;
use py_front::a_spelled_module_is_small;
use py_syntax::Module;
use schedule_runner::{RunEnd, RunFault, Schedule, run};
use std::alloc::Global;

/// Runs the module of a file under the schedule of another, and answers the status.
pub fn run_files<F: Files, O: Sink>(
    alloc: Global,
    file: &str,
    schedule: &str,
    files: &mut F,
    out: &mut O,
) -> u8
    ensures whole { IsQuiet result → (text : List ℕ)
        × RunsFiles (F.held files.old) file.now schedule.now result text
        × Appends (O.written out.old) (O.written out.new) text }
    ensures part { IsCutShort result → (O.written out.new ≡ O.written out.old)
        ⊎ ((status : ℕ) × (text : List ℕ)
        × RunsFiles (F.held files.old) file.now schedule.now status text
        × AppendsPart (O.written out.old) (O.written out.new) text
        × (status ≡ READ_FAULT → Rose (F.faults files.old) (F.faults files.new))) }
    ensures read_fault { result ≡ READ_FAULT → (name : List ℕ)
        × Names (commands.Run file.now schedule.now) name
        × Rose (F.faults files.old) (F.faults files.new)
        × (F.failed files.new ≡ Some name)
        × Appends (O.written out.old) (O.written out.new) (texts.read_fault_line name) }
    ensures no_read_fault { IsAnswered result → F.faults files.new ≡ F.faults files.old }
    ensures no_failed_name { IsAnswered result → F.failed files.new ≡ F.failed files.old }
    ensures write_fault { result ≡ WRITE_FAULT → Rose (O.faults out.old) (O.faults out.new) }
    ensures no_write_fault { result ≢ WRITE_FAULT → O.faults out.new ≡ O.faults out.old }
    ensures no_late_read { F.faults files.old ≡ 0 → F.late files.old ≡ false →
        F.late files.new ≡ false }
    ensures no_late_write { O.faults out.old ≡ 0 → O.late out.old ≡ false →
        O.late out.new ≡ false }
    ensures held { F.held files.new ≡ F.held files.old }
{
    a_spelled_module_is_small();
    match prepare(alloc, file, schedule, files) {
        Ok(Prepared::Ready(module, schedule)) => play(alloc, &module, &schedule, out),
        Ok(Prepared::Answered(reply)) => finish(Ok(reply), out),
        Err(fault) => finish(Err(fault), out),
    }
}

// Runs a module under a schedule, and tells how the run ended.
fn play<O: Sink>(alloc: Global, small_module: &Module, schedule: &Schedule, out: &mut O) -> u8
    requires { HasSmallForms small_module.now }
    ensures whole { IsQuiet result → (result ≡ run_status small_module.now schedule.now.lines)
        × Appends (O.written out.old) (O.written out.new)
        (run_text small_module.now schedule.now.lines) }
    ensures part { IsCutShort result → AppendsPart (O.written out.old) (O.written out.new)
        (run_text small_module.now schedule.now.lines) }
    ensures write_fault { result ≡ WRITE_FAULT → Rose (O.faults out.old) (O.faults out.new) }
    ensures no_write_fault { result ≢ WRITE_FAULT → O.faults out.new ≡ O.faults out.old }
    ensures no_late_write { O.faults out.old ≡ 0 → O.late out.old ≡ false →
        O.late out.new ≡ false }
{
    match run(alloc, small_module, schedule, out) {
        Ok(end) => finish(told_end(alloc, &end), out),
        Err(RunFault::Write) => WRITE_FAULT,
        Err(RunFault::OutOfMemory) => NO_MEMORY,
    }
}

// The reply of an end: its status, and its line where it has one.
fn told_end(alloc: Global, end: &RunEnd) -> Result<Reply, OutOfMemory>
    ensures { IfOk result (λ r. Says r (status_of end.now) (end_text end.now)) }
{
    match end {
        RunEnd::Finished => Ok(Reply::none(alloc, FINISHED)),
        RunEnd::Stopped(kind, place, thread) => {
            let line = stopped_line(alloc, *kind, *place, *thread)?;
            Ok(Reply::one(alloc, STOPPED, line)?)
        }
        RunEnd::Stuck(threads) => {
            Ok(Reply::one(alloc, STOPPED, stuck_line(alloc, threads.as_slice())?)?)
        }
        RunEnd::Spent(threads) => {
            Ok(Reply::one(alloc, SPENT, spent_line(alloc, threads.as_slice())?)?)
        }
        RunEnd::TooLarge(place) => {
            Ok(Reply::one(alloc, TOO_LARGE, too_large_line(alloc, *place)?)?)
        }
    }
}
