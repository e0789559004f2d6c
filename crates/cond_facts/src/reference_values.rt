// Numbers of reference symbols.
ghost use Rattle.std.specs.Prelude.{◌≡◌, ◌≢◌, ◌≤◌, ◌∷◌, true, false, All, IfOk};
ghost use Rattle.proof_checker.specs.Valuations.{reference_in};
ghost use Rattle.cond_facts.specs.ReferencePairs.{value_of, DifferAt};
ghost use Rattle.cond_facts.specs.ReferenceValues.{other_of, with_equality, is_listed, is_side, Extends, HasNumber, HaveNumbers};

use crate::reference_changes::next_place;
use crate::reference_pairs::{Pair, Reference, has, victim};
use py_base::OutOfMemory;
use sqlite_items::Items;
use std::alloc::Global;

/// Symbols with numbers of their own, and a number above these.
#[derive(Debug, Drop)]
pub(crate) struct Named {
    pub values: Items<(u32, u32)>,
    pub next: u32,
}

fn with_first(
    alloc: Global,
    first: (u32, u32),
    values: Items<(u32, u32)>,
) -> Result<Items<(u32, u32)>, OutOfMemory>
    ensures { IfOk result (λ r. r ≡ first ∷ values) }
{
    let mut all = Items::new(alloc);
    all.push(first)?;
    all.append(values)?;
    Ok(all)
}

fn is_listed(values: &[(u32, u32)], n: u32) -> bool
    ensures { result ≡ is_listed values.now n }
{
    values.iter().any(|r| n == r.0)
}

fn number_in(values: &[(u32, u32)], n: u32) -> u32
    ensures { result ≡ reference_in values.now n }
{
    match values {
        [] => 0,
        [r, more @ ..] => { if n == r.0 { r.1 } else { number_in(more, n) } }
    }
}

fn value_of(values: &[(u32, u32)], x: Reference) -> u32
    ensures { result ≡ value_of (reference_in values.now) x }
{
    match x {
        Reference::Symbol(n) => number_in(values, n),
        Reference::Number(n) => n,
    }
}

// The side of an equality that isn't replaced.
fn other_side(e: Pair) -> Reference
    ensures { result ≡ other_of e.left e.right }
{
    match e.left {
        Reference::Symbol(_) => e.right,
        Reference::Number(_) => e.left,
    }
}

/// Numbers at which an equality holds too, from those at which the facts hold where it was put in.
pub(crate) fn with_equality(
    alloc: Global,
    e: Pair,
    values: Items<(u32, u32)>,
) -> Result<Items<(u32, u32)>, OutOfMemory>
    ensures { IfOk result (λ r. r ≡ with_equality e values) }
{
    let number = value_of(values.as_slice(), other_side(e));
    match victim(e) {
        Reference::Symbol(n) => with_first(alloc, (n, number), values),
        Reference::Number(_) => Ok(values),
    }
}

fn is_side(pairs: &[Pair], n: u32) -> bool
    ensures { result ≡ is_side pairs.now n }
{
    pairs.iter().any(|p| has(*p, Reference::Number(n)))
}

// The least number that is no side of the pairs, and not below the given one.
fn free_number(pairs: &[Pair], from: u32) -> Result<u32, OutOfMemory>
    ensures above { IfOk result (λ n. from ≤ n) }
    ensures unused { IfOk result (λ n. is_side pairs.now n ≡ false) }
{
    for n in from..u32::MAX {
        if !is_side(pairs, n) {
            return Ok(n);
        }
    }
    Err(OutOfMemory)
}

// Gives a reference a number of its own, where it is a symbol that has none.
fn name_side(
    alloc: Global,
    pairs: &[Pair],
    x: Reference,
    named: Named,
) -> Result<Named, OutOfMemory>
    ensures extends { IfOk result (Extends pairs.now named) }
    ensures there { IfOk result (λ r. HasNumber r.values x) }
{
    match x {
        Reference::Symbol(n) => {
            if is_listed(named.values.as_slice(), n) {
                Ok(named)
            } else {
                let number = free_number(pairs, named.next)?;
                let values = with_first(alloc, (n, number), named.values)?;
                let next = next_place(number)?;
                Ok(Named { values, next })
            }
        }
        Reference::Number(_) => Ok(named),
    }
}

// Does so for the sides of some of the pairs.
fn name_sides(
    alloc: Global,
    pairs: &[Pair],
    some: &[Pair],
    named: Named,
) -> Result<Named, OutOfMemory>
    ensures extends { IfOk result (Extends pairs.now named) }
    ensures there { IfOk result (λ r. All (HaveNumbers r.values) some.now) }
{
    match some {
        [] => Ok(named),
        [p, more @ ..] => {
            let named = name_side(alloc, pairs, p.left, named)?;
            let named = name_side(alloc, pairs, p.right, named)?;
            name_sides(alloc, pairs, more, named)
        }
    }
}

/// Numbers at which the sides of each pair differ.
pub(crate) fn different_numbers(
    alloc: Global,
    pairs: &[Pair],
) -> Result<Items<(u32, u32)>, OutOfMemory>
    ensures { All (λ p. p.left ≢ p.right) pairs.now → IfOk result (λ rs. All (DifferAt (reference_in rs)) pairs.now) }
{
    let none = Named {
        values: Items::new(alloc),
        next: 0,
    };
    let named = name_sides(alloc, pairs, pairs, none)?;
    Ok(named.values)
}
