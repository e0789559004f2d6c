// Refutations of facts about references.
ghost use Rattle.std.specs.Prelude.{◌≡◌, ◌≢◌, ◌+◌, ◌++◌, [], length, All, IfOk, OnOk, MatchOption};
ghost use Rattle.proof_checker.specs.Conditions.{plain_literal};
ghost use Rattle.cond_facts.specs.ReferencePairs.{reference_of, equal_pair, different_pair, equal_pairs, different_pairs, paired, with_pair, IsItself};
ghost use Rattle.cond_facts.specs.ReferenceValues.{IsAnswerTo, AreReferencesOf};

use crate::reference_changes::{changed, next_place, wrapped};
use crate::reference_pairs::{Pair, Reference, other_numbers, same_reference};
use crate::reference_values::{different_numbers, with_equality};
use proof_checker::Derivation;
use py_base::OutOfMemory;
use sqlite_items::Items;
use std::alloc::Global;
use terms::{Literal, Term};

/// What comes of facts about references.
#[derive(Debug, Drop)]
pub enum References {
    /// Why they can't hold together.
    Refuted(Derivation),
    /// Numbers of symbols at which they hold. A symbol that isn't listed has the number 0.
    Values(Items<(u32, u32)>),
}

// The place of a pair whose sides are one reference.
fn place_of_itself(pairs: &[Pair]) -> Option<u32>
    ensures { MatchOption result (All (λ p. p.left ≢ p.right) pairs.now) (λ n. IsItself pairs.now n) }
{
    match pairs {
        [] => None,
        [p, more @ ..] => {
            if same_reference(p.left, p.right) {
                Some(p.place)
            } else {
                place_of_itself(more)
            }
        }
    }
}

// Derives that some pairs can't be equal where others differ, or gives numbers at which they are.
fn refute_pairs(
    alloc: Global,
    equal: &[Pair],
    different: &[Pair],
    next: u32,
) -> Result<References, OutOfMemory>
    ensures { IfOk result (IsAnswerTo equal.now different.now next) }
{
    match equal {
        [] => match place_of_itself(different) {
            Some(n) => Ok(References::Refuted(Derivation::Clash(n, n))),
            None => Ok(References::Values(different_numbers(alloc, different)?)),
        },
        [e, more @ ..] => {
            if same_reference(e.left, e.right) {
                refute_pairs(alloc, more, different, next)
            } else if other_numbers(*e) {
                Ok(References::Refuted(Derivation::Clash(e.place, e.place)))
            } else {
                let others = changed(alloc, *e, more, next)?;
                let apart = changed(alloc, *e, different, others.next)?;
                match refute_pairs(
                    alloc,
                    others.pairs.as_slice(),
                    apart.pairs.as_slice(),
                    apart.next,
                )? {
                    References::Values(values) => {
                        Ok(References::Values(with_equality(alloc, *e, values)?))
                    }
                    References::Refuted(d) => {
                        let d = wrapped(alloc, *e, different, d)?;
                        let d = wrapped(alloc, *e, more, d)?;
                        Ok(References::Refuted(d))
                    }
                }
            }
        }
    }
}

fn reference_of(t: &Term) -> Option<Reference>
    ensures { result ≡ reference_of t.now }
{
    match t {
        Term::RefSym(n) => Some(Reference::Symbol(*n)),
        Term::RefLit(n) => Some(Reference::Number(*n)),
        Term::Nil => Some(Reference::Number(0)),
        _ => None,
    }
}

fn paired(place: u32, a: &Term, b: &Term) -> Option<Pair>
    ensures { result ≡ paired place (reference_of a.now) (reference_of b.now) }
{
    match reference_of(a) {
        Some(left) => match reference_of(b) {
            Some(right) => Some(Pair { place, left, right }),
            None => None,
        },
        None => None,
    }
}

fn equal_pair(place: u32, l: &Literal) -> Option<Pair>
    ensures { result ≡ equal_pair place l.now }
{
    match l {
        Literal::Same(a, b) => paired(place, a, b),
        _ => None,
    }
}

fn different_pair(place: u32, l: &Literal) -> Option<Pair>
    ensures { result ≡ different_pair place l.now }
{
    match l {
        Literal::Apart(a, b) => paired(place, a, b),
        _ => None,
    }
}

fn push_pair(pair: Option<Pair>, list: &mut Items<Pair>) -> Result<(), OutOfMemory>
    ensures { OnOk result (list.new ≡ list.old ++ with_pair pair []) }
{
    match pair {
        Some(p) => {
            list.push(p)?;
            Ok(())
        }
        None => Ok(()),
    }
}

fn push_pairs(
    facts: &[Literal],
    place: u32,
    equal: &mut Items<Pair>,
    different: &mut Items<Pair>,
) -> Result<u32, OutOfMemory>
    ensures equal { OnOk result (equal.new ≡ equal.old ++ equal_pairs place facts.now) }
    ensures different { OnOk result (different.new ≡ different.old ++ different_pairs place facts.now) }
    ensures next { IfOk result (λ n. n ≡ place + length facts.now) }
{
    match facts {
        [] => Ok(place),
        [l, more @ ..] => {
            push_pair(equal_pair(place, l), equal)?;
            push_pair(different_pair(place, l), different)?;
            push_pairs(more, next_place(place)?, equal, different)
        }
    }
}

/// Derives that the literals that compare references can't all hold, or gives numbers at which they do. The
/// facts are plain, as a checker's assumptions are: None stands in them as the reference 0.
pub fn refute_references(alloc: Global, facts: &[Literal]) -> Result<References, OutOfMemory>
    ensures { All (λ l. plain_literal l ≡ l) facts.now → IfOk result (AreReferencesOf facts.now) }
{
    let mut equal = Items::new(alloc);
    let mut different = Items::new(alloc);
    let next = push_pairs(facts, 0, &mut equal, &mut different)?;
    refute_pairs(alloc, equal.as_slice(), different.as_slice(), next)
}
