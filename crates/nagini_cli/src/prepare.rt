// What a run stands on: a module and a schedule, each from its file.
ghost use Rattle.std.specs.Prelude.{◌≡◌, ◌≤◌, false, ℕ, List, IfOk, Some, Ok, codes, length};
ghost use Rattle.io_edge.specs.Outside.{Rose};
ghost use Rattle.py_front.specs.Answers.{IsFront};
ghost use Rattle.nagini_cli.specs.Allowed.{IsHeldAs};
ghost use Rattle.nagini_cli.specs.Commands.{Names, Run};
ghost use Rattle.nagini_cli.specs.Preparing.{ByBytes, ByFiles, IsUnread, TellsFault};
ghost use Rattle.nagini_cli.specs.Replies.{Says};
ghost use Rattle.nagini_cli.specs.RunAnswers.{AreShort};
ghost use Rattle.nagini_cli.specs.Texts as texts;
ghost use Rattle.nagini_cli.specs.declared.status.TheConstants.{LIMIT};

use crate::check::{FILE_LIMIT, limit, read_fault, refuse, too_long};
use crate::reply::Reply;
use crate::status::REFUSED;
use crate::texts::bad_schedule_line;
use io_edge::{FileAnswer, Files};
use py_base::OutOfMemory;
use py_front::front;
use py_syntax::Module;
use schedule_runner::{Schedule, ScheduleFault, read_schedule};
use std::alloc::Global;

/// What stands ready for a run, or is answered in its place.
#[derive(Debug, Drop)]
pub enum Prepared {
    Answered(Reply),
    Ready(Module, Schedule),
}

/// Reads the file of a module and then that of a schedule. Nothing is read after a file that can't be
/// read or is too long.
pub fn prepare<F: Files>(
    alloc: Global,
    file: &str,
    schedule: &str,
    files: &mut F,
) -> Result<Prepared, OutOfMemory>
    ensures whole { IfOk result (λ p. ByFiles (F.held files.old) file.now schedule.now p) }
    ensures read_fault { IfOk result (λ p. IsUnread p → (name : List ℕ)
        × Names (Run file.now schedule.now) name
        × Rose (F.faults files.old) (F.faults files.new)
        × (F.failed files.new ≡ Some name)
        × TellsFault p name) }
    ensures no_read_fault { IfOk result (λ p. ¬ IsUnread p →
        (F.faults files.new ≡ F.faults files.old) × (F.failed files.new ≡ F.failed files.old)) }
    ensures no_late_read { F.faults files.old ≡ 0 → F.late files.old ≡ false →
        F.late files.new ≡ false }
    ensures held { F.held files.new ≡ F.held files.old }
{
    match files.read(alloc, file, FILE_LIMIT) {
        Ok(bytes) => prepare_with(alloc, &bytes, schedule, files),
        Err(FileAnswer::TooLong) => Ok(Prepared::Answered(too_long(alloc)?)),
        Err(FileAnswer::Failed) => Ok(Prepared::Answered(read_fault(alloc, file)?)),
        Err(FileAnswer::OutOfMemory) => Err(OutOfMemory),
    }
}

// Reads the file of a schedule, behind the bytes of a module.
fn prepare_with<F: Files>(
    alloc: Global,
    bytes: &[u8],
    schedule: &str,
    files: &mut F,
) -> Result<Prepared, OutOfMemory>
    requires { length bytes.now ≤ FILE_LIMIT }
    ensures whole { IfOk result (λ p. (file : List ℕ) →
        IsHeldAs (F.held files.old) file bytes.now →
        ByFiles (F.held files.old) file schedule.now p) }
    ensures read_fault { IfOk result (λ p. IsUnread p →
        Rose (F.faults files.old) (F.faults files.new)
        × (F.failed files.new ≡ Some schedule.now)
        × TellsFault p schedule.now) }
    ensures no_read_fault { IfOk result (λ p. ¬ IsUnread p →
        (F.faults files.new ≡ F.faults files.old) × (F.failed files.new ≡ F.failed files.old)) }
    ensures no_late_read { F.faults files.old ≡ 0 → F.late files.old ≡ false →
        F.late files.new ≡ false }
    ensures held { F.held files.new ≡ F.held files.old }
{
    match files.read(alloc, schedule, FILE_LIMIT) {
        Ok(script) => prepare_bytes(alloc, bytes, &script),
        Err(FileAnswer::TooLong) => Ok(Prepared::Answered(too_long(alloc)?)),
        Err(FileAnswer::Failed) => Ok(Prepared::Answered(read_fault(alloc, schedule)?)),
        Err(FileAnswer::OutOfMemory) => Err(OutOfMemory),
    }
}

// The module and the schedule, by their bytes.
fn prepare_bytes(alloc: Global, bytes: &[u8], script: &[u8]) -> Result<Prepared, OutOfMemory>
    requires { AreShort bytes.now script.now }
    ensures whole { IfOk result (λ p. ByBytes bytes.now script.now p) }
    ensures no_read_fault { IfOk result (λ p. ¬ IsUnread p) }
{
    match front(alloc, bytes) {
        Ok(module) => prepare_module(alloc, module, script),
        Err(fault) => Ok(Prepared::Answered(refuse(alloc, fault)?)),
    }
}

// The module, with the schedule by its bytes.
fn prepare_module(
    alloc: Global,
    small_module: Module,
    script: &[u8],
) -> Result<Prepared, OutOfMemory>
    ensures whole { IfOk result (λ p. (bytes : List ℕ) → AreShort bytes script.now →
        IsFront bytes (Ok small_module) → ByBytes bytes script.now p) }
    ensures no_read_fault { IfOk result (λ p. ¬ IsUnread p) }
{
    match read_schedule(alloc, script) {
        Ok(schedule) => Ok(Prepared::Ready(small_module, schedule)),
        Err(ScheduleFault::BadSchedule(line)) => {
            Ok(Prepared::Answered(refuse_schedule(alloc, line)?))
        }
        Err(ScheduleFault::ScheduleTooLong) => { Ok(Prepared::Answered(too_many_steps(alloc)?)) }
        Err(ScheduleFault::OutOfMemory) => Err(OutOfMemory),
    }
}

fn refuse_schedule(alloc: Global, line: u32) -> Result<Reply, OutOfMemory>
    ensures { IfOk result (λ r. Says r REFUSED (texts.bad_schedule_line line)) }
{
    Ok(Reply::one(alloc, REFUSED, bad_schedule_line(alloc, line)?)?)
}

fn too_many_steps(alloc: Global) -> Result<Reply, OutOfMemory>
    ensures { IfOk result (λ r. Says r LIMIT (texts.limit_line (codes "schedule"))) }
{
    limit(alloc, "schedule")
}
