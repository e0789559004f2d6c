// From a text to its schedule.
ghost use Rattle.std.specs.Prelude.{◌≡◌, ◌<◌, ◌≤◌, ◌+◌, ℕ, List, [], Err, IfOk, IfErr, nat_lt};
ghost use Rattle.std.specs.Str.{is_utf8};
ghost use Rattle.schedule_runner.specs.declared.schedule.ScheduleLine.{ScheduleLine};
ghost use Rattle.schedule_runner.specs.ScheduleText.{ReadsAs, IsFirstBad, lines_of, steps_of};
ghost use Rattle.schedule_runner.specs.Reading.{OkOrNoMemory, ErrOrNoMemory, Gives, limited, scan, scan_all, is_silent, line_of, give_of};

use crate::cuts::{behind, cut_at, first_line};
use crate::fault::ScheduleFault;
use crate::numbers::{count_of, number_of};
use crate::schedule::{STEP_LIMIT, Schedule, ScheduleLine};
use sqlite_items::Items;
use std::alloc::Global;
use std::str;

/// The schedule that a text reads as. A line whose number doesn't fit is answered by want of memory.
pub fn read_schedule(alloc: Global, text: &[u8]) -> Result<Schedule, ScheduleFault>
    // A schedule comes exactly where each line has its form and the steps are few enough.
    ensures reads { IfOk result (λ s. ReadsAs text.now s.lines) }
    ensures few { IfOk result (λ s. steps_of s.lines ≤ STEP_LIMIT) }
    ensures read { (all : List ScheduleLine) → ReadsAs text.now all → steps_of all ≤ STEP_LIMIT →
        OkOrNoMemory result all }
    // BadSchedule comes exactly at the first line without its form.
    ensures bad { (n : ℕ) → result ≡ Err (ScheduleFault.BadSchedule n) → IsFirstBad text.now n }
    ensures first_bad { (n : ℕ) → IsFirstBad text.now n →
        ErrOrNoMemory result (ScheduleFault.BadSchedule n) }
    // ScheduleTooLong comes exactly where each line has its form and the steps are too many.
    ensures long { result ≡ Err ScheduleFault.ScheduleTooLong →
        (all : List ScheduleLine) × ReadsAs text.now all × (STEP_LIMIT < steps_of all) }
    ensures too_long { (all : List ScheduleLine) → ReadsAs text.now all → STEP_LIMIT < steps_of all →
        ErrOrNoMemory result ScheduleFault.ScheduleTooLong }
{
    limited(read_text(alloc, text))
}

// A schedule whose steps are too many is refused.
fn limited(read: Result<Items<ScheduleLine>, ScheduleFault>) -> Result<Schedule, ScheduleFault>
    ensures { result ≡ limited read }
{
    let lines = read?;
    if is_too_long(lines.as_slice()) {
        Err(ScheduleFault::ScheduleTooLong)
    } else {
        Ok(Schedule { lines })
    }
}

// Whether the lines have more steps than a schedule may.
fn is_too_long(lines: &[ScheduleLine]) -> bool
    ensures { result ≡ nat_lt STEP_LIMIT (steps_of lines.now) }
{
    let mut sum = 0u64;
    for line in lines {
        sum = sum.saturating_add(line.count());
    }
    STEP_LIMIT < sum
}

// The schedule lines of a text, with no regard to how many steps they have.
fn read_text(alloc: Global, text: &[u8]) -> Result<Items<ScheduleLine>, ScheduleFault>
    ensures { Gives result (scan_all (lines_of text.now)) }
{
    if text.is_empty() {
        return Err(ScheduleFault::BadSchedule(1));
    }
    let (first, rest) = first_line(text);
    if first == b"schedule 1".as_slice() {
        read_rest(alloc, rest)
    } else {
        Err(ScheduleFault::BadSchedule(1))
    }
}

// The schedule lines of the text behind the first line.
fn read_rest(alloc: Global, text: &[u8]) -> Result<Items<ScheduleLine>, ScheduleFault>
    ensures { Gives result (scan 2 [] (lines_of text.now)) }
{
    let mut said = Items::new(alloc);
    let mut rest = text;
    let mut line = 2u32;
    while !rest.is_empty() {
        let (first, after) = first_line(rest);
        rest = after;
        if !is_silent(first) {
            match line_of(first) {
                Some(says) => said.push(says)?,
                None => return Err(ScheduleFault::BadSchedule(line)),
            }
        }
        line = number_behind(line)?;
    }
    Ok(said)
}

// Whether the bytes are UTF-8.
fn is_text(bytes: &[u8]) -> bool
    ensures { result ≡ is_utf8 bytes.now }
{
    str::from_utf8(bytes).is_ok()
}

// Whether a line is empty or a comment.
#[tactic(auto, unfolding(crate::specs::Reading::is_silent))]
fn is_silent(line: &[u8]) -> bool
    ensures { result ≡ is_silent line.now }
{
    if line.is_empty() {
        return true;
    }
    if line[0] != b'#' {
        return false;
    }
    is_text(line)
}

// What a line says that isn't silent.
#[tactic(auto, unfolding(crate::specs::Reading::line_of))]
fn line_of(line: &[u8]) -> Option<ScheduleLine>
    ensures { result ≡ line_of line.now }
{
    match behind(b"fair ", line) {
        Some(count) => Some(ScheduleLine::Fair(count_of(count)?)),
        None => give_of(line),
    }
}

#[tactic(auto, unfolding(crate::specs::Reading::give_of))]
fn give_of(line: &[u8]) -> Option<ScheduleLine>
    ensures { result ≡ give_of line.now }
{
    let (thread, count) = cut_at(b' ', line)?;
    let thread = number_of(thread)?;
    Some(ScheduleLine::Give(thread, count_of(count)?))
}

// The number of the line behind a line.
fn number_behind(line: u32) -> Result<u32, ScheduleFault>
    ensures ok { IfOk result (λ n. n ≡ line + 1) }
    ensures err { IfErr result (λ fault. fault ≡ ScheduleFault.OutOfMemory) }
{
    line.checked_add(1).ok_or(ScheduleFault::OutOfMemory)
}
