// The command `check FILE`.
ghost use Rattle.std.specs.Prelude.{◌≡◌, ◌≢◌, ◌≤◌, ℕ, List, false, IfOk, IsErr, Some, None, IfSome, codes, length};
ghost use Rattle.io_edge.specs.Outside.{held_at, Rose};
ghost use Rattle.py_base.specs.declared.Place.{Place};
ghost use Rattle.py_syntax.specs.declared.Module.{Module};
ghost use Rattle.py_front.specs.declared.FrontFault.TheVariants as faults;
ghost use Rattle.small_module.specs.SmallBody.{IsSmallModule};
ghost use Rattle.nagini_cli.specs.SmallRun as small_run;
ghost use Rattle.nagini_cli.specs.Allowed.{ChecksFile};
ghost use Rattle.nagini_cli.specs.Answers.{IsAnswer};
ghost use Rattle.nagini_cli.specs.SmallRun.{IsVerdict, false_assert_text};
ghost use Rattle.nagini_cli.specs.Refusals.{refusal_status, refusal_text};
ghost use Rattle.nagini_cli.specs.Replies.{Says, text_of};
ghost use Rattle.nagini_cli.specs.Texts as texts;

use crate::laws::a_file_has_one_answer;
use crate::reply::Reply;
use crate::small_run::first_false;
use crate::status::{ACCEPTED, LIMIT, NOT_PROVED, READ_FAULT, REFUSED};
use crate::texts::{
    accepted_line, fault_line, limit_line, mistyped_line, not_proved_line, read_fault_line,
    refusal_line,
};
use io_edge::{FileAnswer, Files};
use py_base::{Kind, OutOfMemory, Place};
use py_front::{FrontFault, a_spelled_module_is_small, front};
use py_syntax::Module;
use std::alloc::Global;

/// How many bytes a file may have.
pub const FILE_LIMIT: usize = 1_048_576;

/// Reads the file, and answers to its bytes.
pub fn check<F: Files>(alloc: Global, name: &str, files: &mut F) -> Result<Reply, OutOfMemory>
    ensures whole { IfOk result (λ r.
        ChecksFile (F.held files.old) name.now r.status (text_of r)) }
    ensures told { IfOk result (λ r. r.status ≢ READ_FAULT →
        IfSome (F.held files.old) (λ all. (bytes : List ℕ) →
        held_at all name.now ≡ Some bytes → IsAnswer bytes r.status (text_of r))) }
    ensures read_fault { IfOk result (λ r. r.status ≡ READ_FAULT →
        Rose (F.faults files.old) (F.faults files.new)
        × (F.failed files.new ≡ Some name.now)
        × (text_of r ≡ texts.read_fault_line name.now)) }
    ensures no_read_fault { IfOk result (λ r. r.status ≢ READ_FAULT →
        (F.faults files.new ≡ F.faults files.old) × (F.failed files.new ≡ F.failed files.old)) }
    ensures not_held { IfOk result (λ r.
        IfSome (F.held files.old) (λ all. held_at all name.now ≡ None → r.status ≡ READ_FAULT)) }
    ensures no_late_read { F.faults files.old ≡ 0 → F.late files.old ≡ false →
        F.late files.new ≡ false }
    ensures held { F.held files.new ≡ F.held files.old }
{
    match files.read(alloc, name, FILE_LIMIT) {
        Ok(bytes) => answer(alloc, &bytes),
        Err(FileAnswer::TooLong) => too_long(alloc),
        Err(FileAnswer::Failed) => read_fault(alloc, name),
        Err(FileAnswer::OutOfMemory) => Err(OutOfMemory),
    }
}

/// The reply where a file has too many bytes.
pub fn too_long(alloc: Global) -> Result<Reply, OutOfMemory>
    ensures { IfOk result (λ r. Says r LIMIT (texts.limit_line (codes "file"))) }
{
    limit(alloc, "file")
}

/// The reply where a limit of this name is passed.
pub fn limit(alloc: Global, name: &str) -> Result<Reply, OutOfMemory>
    ensures { IfOk result (λ r. Says r LIMIT (texts.limit_line name.now)) }
{
    Ok(Reply::one(alloc, LIMIT, limit_line(alloc, name)?)?)
}

/// The reply where the read of a file failed.
pub fn read_fault(alloc: Global, name: &str) -> Result<Reply, OutOfMemory>
    ensures { IfOk result (λ r. Says r READ_FAULT (texts.read_fault_line name.now)) }
{
    Ok(Reply::one(alloc, READ_FAULT, read_fault_line(alloc, name)?)?)
}

// The answer to the bytes of a file.
fn answer(alloc: Global, bytes: &[u8]) -> Result<Reply, OutOfMemory>
    requires { length bytes.now ≤ FILE_LIMIT }
    ensures { IfOk result (λ r. IsAnswer bytes.now r.status (text_of r)) }
{
    a_file_has_one_answer();
    a_spelled_module_is_small();
    match front(alloc, bytes) {
        Ok(module) => verdict(alloc, &module),
        Err(fault) => refuse(alloc, fault),
    }
}

/// The reply where the front gives no module.
pub fn refuse(alloc: Global, fault: FrontFault) -> Result<Reply, OutOfMemory>
    ensures told { IfOk result (λ r. Says r (refusal_status fault) (refusal_text fault)) }
    ensures no_memory { fault ≡ faults.OutOfMemory → IsErr result }
{
    match fault {
        FrontFault::BadUtf8(place) => refuse_at(alloc, "BadUtf8", place),
        FrontFault::BadCharacter(place) => refuse_at(alloc, "BadCharacter", place),
        FrontFault::TabInIndent(place) => refuse_at(alloc, "TabInIndent", place),
        FrontFault::BadDedent(place) => refuse_at(alloc, "BadDedent", place),
        FrontFault::OpenString(place) => refuse_at(alloc, "OpenString", place),
        FrontFault::LiteralTooLarge(place) => refuse_at(alloc, "LiteralTooLarge", place),
        FrontFault::NameNotNfkc(place) => refuse_at(alloc, "NameNotNfkc", place),
        FrontFault::NameTooLong(place) => refuse_at(alloc, "NameTooLong", place),
        FrontFault::Syntax(place) => refuse_at(alloc, "Syntax", place),
        FrontFault::TooDeep(place) => refuse_at(alloc, "TooDeep", place),
        FrontFault::LineTooLong => limit(alloc, "line"),
        FrontFault::TooManyStatements => limit(alloc, "statements"),
        FrontFault::TooManyMethods => limit(alloc, "methods"),
        FrontFault::DuplicateName(place) => refuse_at(alloc, "DuplicateName", place),
        FrontFault::UnknownBase(place) => refuse_at(alloc, "UnknownBase", place),
        FrontFault::BaseCycle(place) => refuse_at(alloc, "BaseCycle", place),
        FrontFault::BadInit(place) => refuse_at(alloc, "BadInit", place),
        FrontFault::NoMain(place) => refuse_at(alloc, "NoMain", place),
        FrontFault::Mistyped(place, rule) => refuse_mistyped(alloc, place, rule),
        FrontFault::BoolAsInt(place) => refuse_at(alloc, "BoolAsInt", place),
        FrontFault::Unassigned(place) => refuse_at(alloc, "Unassigned", place),
        FrontFault::ContractPlace(place) => refuse_at(alloc, "ContractPlace", place),
        FrontFault::OldInPre(place) => refuse_at(alloc, "OldInPre", place),
        FrontFault::DutyPlace(place) => refuse_at(alloc, "DutyPlace", place),
        FrontFault::BadFraction(place) => refuse_at(alloc, "BadFraction", place),
        FrontFault::RecursivePure(place) => refuse_at(alloc, "RecursivePure", place),
        FrontFault::BadTarget(place) => refuse_at(alloc, "BadTarget", place),
        FrontFault::UnknownPredicate(place) => refuse_at(alloc, "UnknownPredicate", place),
        FrontFault::NotBuilt(place) => refuse_at(alloc, "NotBuilt", place),
        FrontFault::OutOfMemory => Err(OutOfMemory),
    }
}

// The reply where a text is refused at a place.
fn refuse_at(alloc: Global, name: &str, place: Place) -> Result<Reply, OutOfMemory>
    ensures { IfOk result (λ r. Says r REFUSED (texts.refusal_line name.now place)) }
{
    Ok(Reply::one(alloc, REFUSED, refusal_line(alloc, name, place)?)?)
}

// The reply where a text breaks the typing rule of this number.
fn refuse_mistyped(alloc: Global, place: Place, rule: u8) -> Result<Reply, OutOfMemory>
    ensures { IfOk result (λ r. Says r REFUSED (texts.mistyped_line place rule)) }
{
    Ok(Reply::one(alloc, REFUSED, mistyped_line(alloc, place, rule)?)?)
}

// What is said of a small module.
fn verdict(alloc: Global, small_module: &Module) -> Result<Reply, OutOfMemory>
    requires { IsSmallModule small_module.now }
    ensures { IfOk result (λ r.
        IsVerdict (small_run.first_false small_module.now) r.status (text_of r)) }
{
    match first_false(alloc, small_module)? {
        None => Ok(Reply::one(alloc, ACCEPTED, accepted_line(alloc, 1)?)?),
        Some(place) => report(alloc, place),
    }
}

// The report of one false assert of `main`.
fn report(alloc: Global, place: Place) -> Result<Reply, OutOfMemory>
    ensures { IfOk result (λ r. Says r NOT_PROVED (false_assert_text place)) }
{
    let fault = fault_line(alloc, place, Kind::Assert, "main")?;
    let count = not_proved_line(alloc, 1)?;
    Ok(Reply::two(alloc, NOT_PROVED, fault, count)?)
}
