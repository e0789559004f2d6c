// An equality put into pairs of references.
ghost use Rattle.std.specs.Prelude.{◌≡◌, ◌+◌, ◌++◌, length, IfOk, OnOk};
ghost use Rattle.cond_facts.specs.ReferencePairs.{changes, after, wrapped};

use crate::reference_pairs::{Pair, has, replaced, victim};
use proof_checker::Derivation;
use py_base::OutOfMemory;
use sqlite_items::{Boxed, Items};
use std::alloc::Global;

/// Pairs with an equality put into them, and the number of the next assumption.
#[derive(Drop)]
pub(crate) struct NewPairs {
    pub pairs: Items<Pair>,
    pub next: u32,
}

/// The number of the assumption behind one.
pub(crate) fn next_place(place: u32) -> Result<u32, OutOfMemory>
    ensures { IfOk result (λ n. n ≡ place + 1) }
{
    match place.checked_add(1) {
        Some(n) => Ok(n),
        None => Err(OutOfMemory),
    }
}

// Adds the changed pairs to a list, and gives the number of the next assumption.
fn push_changed(
    e: Pair,
    pairs: &[Pair],
    next: u32,
    list: &mut Items<Pair>,
) -> Result<u32, OutOfMemory>
    ensures list { OnOk result (list.new ≡ list.old ++ changes e next pairs.now) }
    ensures next { IfOk result (λ n. n ≡ after e next pairs.now) }
{
    match pairs {
        [] => Ok(next),
        [p, more @ ..] => {
            if has(*p, victim(e)) {
                list.push(replaced(e, next, *p))?;
                push_changed(e, more, next_place(next)?, list)
            } else {
                list.push(*p)?;
                push_changed(e, more, next, list)
            }
        }
    }
}

/// The pairs with an equality put into those that have its victim.
#[tactic(auto, using(crate::proofs::Rounds::changes_length))]
pub(crate) fn changed(
    alloc: Global,
    e: Pair,
    pairs: &[Pair],
    next: u32,
) -> Result<NewPairs, OutOfMemory>
    ensures pairs { IfOk result (λ r. r.pairs ≡ changes e next pairs.now) }
    ensures next { IfOk result (λ r. r.next ≡ after e next pairs.now) }
    ensures long { IfOk result (λ r. length r.pairs ≡ length pairs.now) }
{
    let mut list = Items::new(alloc);
    let next = push_changed(e, pairs, next, &mut list)?;
    Ok(NewPairs { pairs: list, next })
}

/// The replacements that make the changes, and a derivation behind them.
pub(crate) fn wrapped(
    alloc: Global,
    e: Pair,
    pairs: &[Pair],
    end: Derivation,
) -> Result<Derivation, OutOfMemory>
    ensures { IfOk result (λ d. d ≡ wrapped e pairs.now end) }
{
    match pairs {
        [] => Ok(end),
        [p, more @ ..] => {
            let rest = wrapped(alloc, e, more, end)?;
            if has(*p, victim(e)) {
                Ok(Derivation::Replace(e.place, p.place, Boxed::new(alloc, rest)?))
            } else {
                Ok(rest)
            }
        }
    }
}
