// The words of terms.
ghost use Rattle.std.specs.Prelude.{◌≡◌, IfOk, IfSome, string_bytes, decimal};
ghost use Rattle.condition_lines.specs.Written.{text_of};

use py_base::OutOfMemory;
use std::alloc::{AllocError, Global};

/// A word of a term.
#[derive(Clone, Copy, Debug, PartialEq, Eq, Drop)]
pub enum Word {
    Sym(u32),
    Lit(i128),
    Add,
    Scale,
    Apply(u16),
    RefSym(u32),
    RefLit(u32),
    Nil,
}

// The word that a text is, if it is one and its numbers are written without a sign or a 0 in front.
fn guess(text: &str) -> Option<Word> {
    if text == "+" {
        return Some(Word::Add);
    }
    if text == "*" {
        return Some(Word::Scale);
    }
    if text == "nil" {
        return Some(Word::Nil);
    }
    if let Some(number) = text.strip_prefix('x') {
        return number.parse::<u32>().ok().map(Word::Sym);
    }
    if let Some(number) = text.strip_prefix('f') {
        return number.parse::<u16>().ok().map(Word::Apply);
    }
    if let Some(number) = text.strip_prefix('r') {
        return number.parse::<u32>().ok().map(Word::RefSym);
    }
    if let Some(number) = text.strip_prefix('@') {
        return number.parse::<u32>().ok().map(Word::RefLit);
    }
    text.parse::<i128>().ok().map(Word::Lit)
}

// The text of a word.
fn written(alloc: Global, word: Word) -> Result<String, AllocError>
    ensures { IfOk result (λ text. string_bytes text ≡ text_of word) }
{
    match word {
        Word::Sym(n) => format!(in alloc; "x{n}"),
        Word::Lit(z) => format!(in alloc; "{z}"),
        Word::Add => String::from_str(alloc, "+"),
        Word::Scale => String::from_str(alloc, "*"),
        Word::Apply(n) => format!(in alloc; "f{n}"),
        Word::RefSym(n) => format!(in alloc; "r{n}"),
        Word::RefLit(n) => format!(in alloc; "@{n}"),
        Word::Nil => String::from_str(alloc, "nil"),
    }
}

/// The word of this text.
pub fn read_word(alloc: Global, text: &str) -> Result<Option<Word>, OutOfMemory>
    ensures { IfOk result (λ o. IfSome o (λ word. text_of word ≡ text.now)) }
{
    match guess(text) {
        None => Ok(None),
        Some(word) => {
            let written = written(alloc, word)?;
            if written.as_str() == text {
                Ok(Some(word))
            } else {
                Ok(None)
            }
        }
    }
}

/// The number of this text.
pub fn read_number(alloc: Global, text: &str) -> Result<Option<u32>, OutOfMemory>
    ensures { IfOk result (λ o. IfSome o (λ n. decimal n ≡ text.now)) }
{
    match text.parse::<u32>() {
        Err(_) => Ok(None),
        Ok(n) => {
            let digits = format!(in alloc; "{n}")?;
            if digits.as_str() == text {
                Ok(Some(n))
            } else {
                Ok(None)
            }
        }
    }
}
