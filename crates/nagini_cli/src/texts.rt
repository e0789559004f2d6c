// The lines that the program writes.
ghost use Rattle.std.specs.Prelude.{◌≡◌, IfOk, string_bytes};
ghost use Rattle.nagini_cli.specs.Texts as texts;

use py_base::{Kind, Place};
use std::alloc::{AllocError, Global};

pub fn usage_line(alloc: Global) -> Result<String, AllocError>
    ensures { IfOk result (λ line. string_bytes line ≡ texts.usage_line) }
{
    String::from_str(alloc, "usage: nagini check FILE | run FILE SCHEDULE\n")
}

pub fn limit_line(alloc: Global, name: &str) -> Result<String, AllocError>
    ensures { IfOk result (λ line. string_bytes line ≡ texts.limit_line name.now) }
{
    format!(in alloc; "limit {name}\n")
}

pub fn read_fault_line(alloc: Global, name: &str) -> Result<String, AllocError>
    ensures { IfOk result (λ line. string_bytes line ≡ texts.read_fault_line name.now) }
{
    format!(in alloc; "read fault {name}\n")
}

pub fn refusal_line(alloc: Global, name: &str, place: Place) -> Result<String, AllocError>
    ensures { IfOk result (λ line. string_bytes line ≡ texts.refusal_line name.now place) }
{
    let Place { line, col } = place;
    format!(in alloc; "refused {name} {line}:{col}\n")
}

pub fn mistyped_line(alloc: Global, place: Place, rule: u8) -> Result<String, AllocError>
    ensures { IfOk result (λ line. string_bytes line ≡ texts.mistyped_line place rule) }
{
    let Place { line, col } = place;
    format!(in alloc; "refused Mistyped {line}:{col} rule {rule}\n")
}

pub fn accepted_line(alloc: Global, count: usize) -> Result<String, AllocError>
    ensures { IfOk result (λ line. string_bytes line ≡ texts.accepted_line count) }
{
    format!(in alloc; "accepted {count}\n")
}

pub fn fault_line(
    alloc: Global,
    place: Place,
    kind: Kind,
    method: &str,
) -> Result<String, AllocError>
    ensures { IfOk result (λ line. string_bytes line ≡ texts.fault_line place kind method.now) }
{
    let Place { line, col } = place;
    let number = kind.number();
    let name = kind.name();
    format!(in alloc; "{line}:{col} {number} {name} {method}\n")
}

pub fn not_proved_line(alloc: Global, count: usize) -> Result<String, AllocError>
    ensures { IfOk result (λ line. string_bytes line ≡ texts.not_proved_line count) }
{
    format!(in alloc; "not proved {count}\n")
}

pub fn bad_schedule_line(alloc: Global, number: u32) -> Result<String, AllocError>
    ensures { IfOk result (λ line. string_bytes line ≡ texts.bad_schedule_line number) }
{
    format!(in alloc; "refused BadSchedule line {number}\n")
}

pub fn stopped_line(
    alloc: Global,
    kind: Kind,
    place: Place,
    thread: u32,
) -> Result<String, AllocError>
    ensures { IfOk result (λ line. string_bytes line ≡ texts.stopped_line kind place thread) }
{
    let Place { line, col } = place;
    let number = kind.number();
    let name = kind.name();
    format!(in alloc; "stopped {number} {name} {line}:{col} thread {thread}\n")
}

pub fn stuck_line(alloc: Global, threads: &[u32]) -> Result<String, AllocError>
    ensures { IfOk result (λ line. string_bytes line ≡ texts.stuck_line threads.now) }
{
    numbers_line(alloc, "stopped stuck threads", threads)
}

pub fn spent_line(alloc: Global, threads: &[u32]) -> Result<String, AllocError>
    ensures { IfOk result (λ line. string_bytes line ≡ texts.spent_line threads.now) }
{
    numbers_line(alloc, "spent", threads)
}

// A front, and numbers each behind a space.
fn numbers_line(alloc: Global, front: &str, numbers: &[u32]) -> Result<String, AllocError>
    ensures { IfOk result (λ line. string_bytes line ≡ texts.numbers_line front.now numbers.now) }
{
    let mut line = String::from_str(alloc, front)?;
    for number in numbers {
        let next = format!(in alloc; " {number}")?;
        line.push_str(&next)?;
    }
    line.push_str("\n")?;
    Ok(line)
}

pub fn too_large_line(alloc: Global, place: Place) -> Result<String, AllocError>
    ensures { IfOk result (λ line. string_bytes line ≡ texts.too_large_line place) }
{
    let Place { line, col } = place;
    format!(in alloc; "too large {line}:{col}\n")
}
