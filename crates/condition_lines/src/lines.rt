// Lines of conditions.
ghost use Rattle.std.specs.Prelude.{◌≡◌, ◌==◌, ◌∷◌, [], map, codes, string_bytes, IfOk};
ghost use Rattle.std.specs.List.{slice_split};
ghost use Rattle.condition_lines.specs.Lines.{IsLine, AreWordsOf};

use crate::literals::read_literal;
use py_base::OutOfMemory;
use std::alloc::{AllocError, Global};
use terms::Literal;

/// A line of a condition.
#[derive(Debug, Drop)]
pub enum Line {
    /// A condition of this name begins.
    Begins(String),
    /// A hypothesis.
    Assumes(Literal),
    /// The goal, which ends the condition.
    Asks(Literal),
    /// None of these.
    Unreadable,
}

// The words of a line.
fn words_of<'a>(alloc: Global, line: &'a str) -> Result<Vec<&'a str>, AllocError>
    ensures { IfOk result (λ words. map (λ w. w.now) words.items ≡ slice_split (λ b. b == 32) line.now) }
{
    line.split(' ').collect(alloc)
}

fn begins(alloc: Global, names: &[&str]) -> Result<Line, OutOfMemory>
    ensures { IfOk result (λ line. AreWordsOf line (codes "condition" ∷ map (λ w. w.now) names.now)) }
{
    match names {
        [name] => Ok(Line::Begins(String::from_str(alloc, name)?)),
        _ => Ok(Line::Unreadable),
    }
}

fn assumes(alloc: Global, words: &[&str]) -> Result<Line, OutOfMemory>
    ensures { IfOk result (λ line. AreWordsOf line (codes "hyp" ∷ map (λ w. w.now) words.now)) }
{
    match read_literal(alloc, words)? {
        Some(l) => Ok(Line::Assumes(l)),
        None => Ok(Line::Unreadable),
    }
}

fn asks(alloc: Global, words: &[&str]) -> Result<Line, OutOfMemory>
    ensures { IfOk result (λ line. AreWordsOf line (codes "goal" ∷ map (λ w. w.now) words.now)) }
{
    match read_literal(alloc, words)? {
        Some(l) => Ok(Line::Asks(l)),
        None => Ok(Line::Unreadable),
    }
}

fn read_words(alloc: Global, words: &[&str]) -> Result<Line, OutOfMemory>
    ensures { IfOk result (λ line. AreWordsOf line (map (λ w. w.now) words.now)) }
{
    match words {
        [] => Ok(Line::Unreadable),
        [first, rest @ ..] => {
            if *first == "condition" {
                begins(alloc, rest)
            } else if *first == "hyp" {
                assumes(alloc, rest)
            } else if *first == "goal" {
                asks(alloc, rest)
            } else {
                Ok(Line::Unreadable)
            }
        }
    }
}

/// What a line says. Words have one space between them, and numbers no sign or 0 in front that isn't needed.
pub fn read_line(alloc: Global, line: &str) -> Result<Line, OutOfMemory>
    ensures { IfOk result (IsLine line.now) }
{
    let words = words_of(alloc, line)?;
    read_words(alloc, words.as_slice())
}
