// Terms from their words, read from the last to the first: what was read so far is a stack of terms.
ghost use Rattle.std.specs.Prelude.{◌≡◌, ◌+◌, ◌++◌, [], ◌∷◌, map, length, IfOk, IfSome, IsTrue, OnOk};
ghost use Rattle.terms.specs.declared.Term.{Term, Add};
ghost use Rattle.condition_lines.specs.Written.{joined, words_of, stacked, text_of};

use crate::words::{Word, read_word};
use py_base::OutOfMemory;
use sqlite_items::{Boxed, Items};
use std::alloc::Global;
use terms::Term;

fn push(stack: &mut Items<Term>, t: Term) -> Result<bool, OutOfMemory>
    ensures { OnOk result (stacked stack.new ≡ words_of t ++ stacked stack.old) }
{
    stack.push(t)?;
    Ok(true)
}

fn sum(alloc: Global, a: Term, b: Term) -> Result<Term, OutOfMemory>
    ensures { IfOk result (λ t. t ≡ Add a b) }
{
    let a = Boxed::new(alloc, a)?;
    let b = Boxed::new(alloc, b)?;
    Ok(Term::Add(a, b))
}

// Puts the sum of the first two terms in their place.
fn add(alloc: Global, stack: &mut Items<Term>) -> Result<bool, OutOfMemory>
    ensures { IfOk result (λ done. IsTrue done → stacked stack.new ≡ text_of Word.Add ∷ stacked stack.old) }
{
    let Some(a) = stack.pop() else {
        return Ok(false);
    };
    let Some(b) = stack.pop() else {
        drop(a);
        return Ok(false);
    };
    push(stack, sum(alloc, a, b)?)
}

// The number that a term is, if it is one.
fn number_in(t: &Term) -> Option<i128>
    ensures { IfSome result (λ z. words_of t.now ≡ text_of (Word.Lit z) ∷ []) }
{
    match t {
        Term::Lit(z) => Some(*z),
        _ => None,
    }
}

// Takes the first term, which is to be a number.
fn pop_number(stack: &mut Items<Term>) -> Option<i128>
    ensures { IfSome result (λ z. stacked stack.old ≡ text_of (Word.Lit z) ∷ stacked stack.new) }
{
    let first = stack.pop()?;
    let number = number_in(&first);
    drop(first);
    number
}

// Puts a multiple in the place of a number and a term.
fn scale(alloc: Global, stack: &mut Items<Term>) -> Result<bool, OutOfMemory>
    ensures { IfOk result (λ done. IsTrue done → stacked stack.new ≡ text_of Word.Scale ∷ stacked stack.old) }
{
    let Some(k) = pop_number(stack) else {
        return Ok(false);
    };
    let Some(a) = stack.pop() else {
        return Ok(false);
    };
    let a = Boxed::new(alloc, a)?;
    push(stack, Term::Scale(k, a))
}

// Takes the first terms, so many of them, and adds them to a list.
fn take_terms(
    stack: &mut Items<Term>,
    count: usize,
    all: &mut Items<Term>,
) -> Result<bool, OutOfMemory>
    ensures words { IfOk result (λ done. IsTrue done → joined (map words_of all.old) ++ stacked stack.old ≡ joined (map words_of all.new) ++ stacked stack.new) }
    ensures count { IfOk result (λ done. IsTrue done → length all.new ≡ length all.old + count) }
{
    for taken in 0..count {
        let Some(t) = stack.pop() else {
            return Ok(false);
        };
        all.push(t)?;
    }
    Ok(true)
}

// Puts an application in the place of a count and so many terms.
fn apply(alloc: Global, operator: u16, stack: &mut Items<Term>) -> Result<bool, OutOfMemory>
    ensures { IfOk result (λ done. IsTrue done → stacked stack.new ≡ text_of (Word.Apply operator) ∷ stacked stack.old) }
{
    let Some(number) = pop_number(stack) else {
        return Ok(false);
    };
    let Ok(count) = usize::try_from(number) else {
        return Ok(false);
    };
    let mut all = Items::new(alloc);
    if take_terms(stack, count, &mut all)? {
        push(stack, Term::App(operator, all))
    } else {
        Ok(false)
    }
}

// Puts what a word makes of the first terms in their place.
fn place(alloc: Global, word: Word, stack: &mut Items<Term>) -> Result<bool, OutOfMemory>
    ensures { IfOk result (λ done. IsTrue done → stacked stack.new ≡ text_of word ∷ stacked stack.old) }
{
    match word {
        Word::Sym(n) => push(stack, Term::Sym(n)),
        Word::Lit(z) => push(stack, Term::Lit(z)),
        Word::Add => add(alloc, stack),
        Word::Scale => scale(alloc, stack),
        Word::Apply(operator) => apply(alloc, operator, stack),
        Word::RefSym(n) => push(stack, Term::RefSym(n)),
        Word::RefLit(n) => push(stack, Term::RefLit(n)),
        Word::Nil => push(stack, Term::Nil),
    }
}

fn place_text(alloc: Global, text: &str, stack: &mut Items<Term>) -> Result<bool, OutOfMemory>
    ensures { IfOk result (λ done. IsTrue done → stacked stack.new ≡ text.now ∷ stacked stack.old) }
{
    match read_word(alloc, text)? {
        None => Ok(false),
        Some(word) => place(alloc, word, stack),
    }
}

/// Puts the terms of words before those that are there, or answers that the words aren't those of terms.
pub fn read_terms(
    alloc: Global,
    words: &[&str],
    stack: &mut Items<Term>,
) -> Result<bool, OutOfMemory>
    ensures { IfOk result (λ done. IsTrue done → stacked stack.new ≡ map (λ w. w.now) words.now ++ stacked stack.old) }
{
    match words {
        [] => Ok(true),
        [word, more @ ..] => {
            if read_terms(alloc, more, stack)? {
                place_text(alloc, word, stack)
            } else {
                Ok(false)
            }
        }
    }
}
