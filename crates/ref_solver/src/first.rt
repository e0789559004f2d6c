// The first literal with which literals clash.
ghost use Rattle.std.specs.Prelude.{◌≡◌, ◌^◌, ◌+◌, ◌-◌, ◌<◌, ◌≤◌, length, IfOk, MatchOption};
ghost use Rattle.ref_solver.specs.Classes.{AreClasses};
ghost use Rattle.ref_solver.specs.Clashing.{Clash, IsFirstClash, IsBetween};

use crate::opposed::{clash, do_clash};
use py_base::OutOfMemory;
use sqlite_items::Items;
use std::alloc::Global;
use terms::{Literal, Term};

/// The place of the first literal with which the literals clash, by their classes.
pub(crate) fn first_clash(
    alloc: Global,
    lits: &[Literal],
    classes: &[Items<Term>],
) -> Result<Option<u32>, OutOfMemory>
    requires length { length lits.now < 2 ^ 32 }
    requires classes { AreClasses lits.now classes.now }
    ensures { IfOk result (λ o. MatchOption o (¬ (Clash lits.now)) (λ n. IsFirstClash lits.now n)) }
{
    if clash(lits, classes) {
        let place = place_of_clash(alloc, lits)?;
        Ok(Some(place as u32))
    } else {
        Ok(None)
    }
}

// The place of the first clash of literals that clash. The room in which it lies is halved until one
// place is left.
fn place_of_clash(alloc: Global, lits: &[Literal]) -> Result<usize, OutOfMemory>
    requires { Clash lits.now }
    ensures { IfOk result (λ n. IsFirstClash lits.now n) }
{
    let mut low = 0;
    let mut high = lits.len();
    while high - low > 1 {
        let middle = low + (high - low) / 2;
        let (before, after) = halved(alloc, lits, low, middle, high)?;
        low = before;
        high = after;
    }
    Ok(low)
}

// The half of the room, cut at the middle, in which the first clash lies.
fn halved(
    alloc: Global,
    lits: &[Literal],
    low: usize,
    middle: usize,
    high: usize,
) -> Result<(usize, usize), OutOfMemory>
    requires order { (low < middle) × (middle < high) }
    requires between { IsBetween lits.now low high }
    ensures less { IfOk result (λ r. r.1 - r.0 < high - low) }
    ensures between { IfOk result (λ r. IsBetween lits.now r.0 r.1) }
{
    if do_clash(alloc, &lits[..middle])? {
        Ok((low, middle))
    } else {
        Ok((middle, high))
    }
}
