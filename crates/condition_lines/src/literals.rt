// Literals from their words.
ghost use Rattle.std.specs.Prelude.{◌≡◌, ◌↔◌, ◌++◌, ◌∷◌, map, codes, IfOk, IfSome, IsTrue};
ghost use Rattle.condition_lines.specs.Written.{words_of, literal_words, flag_words, relation_text, related, stacked};

use crate::term_stack::read_terms;
use crate::words::read_number;
use py_base::OutOfMemory;
use sqlite_items::Items;
use std::alloc::Global;
use terms::{Literal, Term};

/// How two terms are related.
#[derive(Clone, Copy, Debug, PartialEq, Eq, Drop)]
pub enum Relation {
    AtMost,
    Same,
    Apart,
}

/// Two terms.
#[derive(Debug, Drop)]
pub struct Sides {
    pub left: Term,
    pub right: Term,
}

fn relation_of(text: &str) -> Option<Relation>
    ensures { IfSome result (λ r. relation_text r ≡ text.now) }
{
    if text == "<=" {
        return Some(Relation::AtMost);
    }
    if text == "=" {
        return Some(Relation::Same);
    }
    if text == "/=" {
        return Some(Relation::Apart);
    }
    None
}

// The two terms of these words.
fn read_sides(alloc: Global, words: &[&str]) -> Result<Option<Sides>, OutOfMemory>
    ensures { IfOk result (λ o. IfSome o (λ s. words_of s.left ++ words_of s.right ≡ map (λ w. w.now) words.now)) }
{
    let mut stack = Items::new(alloc);
    if !read_terms(alloc, words, &mut stack)? {
        return Ok(None);
    }
    Ok(two_of(stack))
}

// The two terms of a stack of two.
fn two_of(stack: Items<Term>) -> Option<Sides>
    ensures { IfSome result (λ s. words_of s.left ++ words_of s.right ≡ stacked stack) }
{
    let mut stack = stack;
    let left = stack.pop()?;
    let right = stack.pop()?;
    if stack.is_empty() {
        Some(Sides { left, right })
    } else {
        None
    }
}

fn related(relation: Relation, sides: Sides) -> Literal
    ensures { result ≡ related relation sides.left sides.right }
{
    match relation {
        Relation::AtMost => Literal::AtMost(sides.left, sides.right),
        Relation::Same => Literal::Same(sides.left, sides.right),
        Relation::Apart => Literal::Apart(sides.left, sides.right),
    }
}

fn read_flag(alloc: Global, number: &str, held: bool) -> Result<Option<Literal>, OutOfMemory>
    ensures { IfOk result (λ o. IfSome o (λ l. literal_words l ≡ flag_words number.now held)) }
{
    match read_number(alloc, number)? {
        Some(n) => Ok(Some(Literal::Flag(n, held))),
        None => Ok(None),
    }
}

/// The literal of these words.
pub fn read_literal(alloc: Global, words: &[&str]) -> Result<Option<Literal>, OutOfMemory>
    ensures { IfOk result (λ o. IfSome o (λ l. literal_words l ≡ map (λ w. w.now) words.now)) }
{
    match words {
        [word, number] if is_flag(word) => read_flag(alloc, number, true),
        [word, second, number] if is_not_flag(word, second) => read_flag(alloc, number, false),
        [word, sides @ ..] => read_related(alloc, word, sides),
        [] => Ok(None),
    }
}

fn is_flag(word: &str) -> bool
    ensures { IsTrue result ↔ (word.now ≡ codes "flag") }
{
    word == "flag"
}

fn is_not_flag(word: &str, second: &str) -> bool
    ensures { IsTrue result ↔ ((word.now ≡ codes "not") × (second.now ≡ codes "flag")) }
{
    word == "not" && second == "flag"
}

fn read_related(alloc: Global, word: &str, sides: &[&str]) -> Result<Option<Literal>, OutOfMemory>
    ensures { IfOk result (λ o. IfSome o (λ l. literal_words l ≡ word.now ∷ map (λ w. w.now) sides.now)) }
{
    let Some(relation) = relation_of(word) else {
        return Ok(None);
    };
    match read_sides(alloc, sides)? {
        Some(sides) => Ok(Some(related(relation, sides))),
        None => Ok(None),
    }
}
