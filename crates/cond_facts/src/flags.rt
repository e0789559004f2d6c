// Flags among assumptions.
ghost use Rattle.std.specs.Prelude.{◌≡◌, ◌≢◌, ◌↔◌, ◌++◌, [], All, IsTrue, IfOk, OnOk, MatchOption};
ghost use Rattle.cond_facts.specs.FlagFacts.{AreFlagsOf, flag_is, flags_among, with_flag, IsUnopposed, AreUnopposed, HasNumber, IsOpposedAt, AreClashing};

use crate::reference_changes::next_place;
use proof_checker::Derivation;
use py_base::OutOfMemory;
use sqlite_items::Items;
use std::alloc::Global;
use terms::Literal;

/// What comes of assumptions about flags.
#[derive(Debug, Drop)]
pub enum Flags {
    /// Why they can't hold together.
    Refuted(Derivation),
    /// What the flags are where they hold.
    Values(Items<(u32, bool)>),
}

fn is_flag(l: &Literal, n: u32, held: bool) -> bool
    ensures { IsTrue result ↔ (l.now ≡ flag_is n held) }
{
    match l {
        Literal::Flag(m, was) => n == *m && held == *was,
        _ => false,
    }
}

// The number of the first literal that says that a flag is so, where numbers begin with this one.
fn flag_place(facts: &[Literal], place: u32, n: u32, held: bool) -> Result<Option<u32>, OutOfMemory>
    ensures { IfOk result (λ o. MatchOption o (All (λ l. l ≢ flag_is n held) facts.now) (λ i. HasNumber facts.now place i (flag_is n held))) }
{
    match facts {
        [] => Ok(None),
        [l, more @ ..] => {
            if is_flag(l, n, held) {
                Ok(Some(place))
            } else {
                flag_place(more, next_place(place)?, n, held)
            }
        }
    }
}

fn opposite_place(l: &Literal, facts: &[Literal], place: u32) -> Result<Option<u32>, OutOfMemory>
    ensures { IfOk result (λ o. MatchOption o (IsUnopposed l.now facts.now) (λ n. IsOpposedAt l.now facts.now place n)) }
{
    match l {
        Literal::Flag(n, held) => flag_place(facts, place, *n, !*held),
        _ => Ok(None),
    }
}

// A clash of two literals that say opposites of a flag, where numbers begin with this one.
fn clash(facts: &[Literal], place: u32) -> Result<Option<Derivation>, OutOfMemory>
    ensures { IfOk result (λ o. MatchOption o (AreUnopposed facts.now) (λ d. AreClashing facts.now place d)) }
{
    match facts {
        [] => Ok(None),
        [l, more @ ..] => {
            let next = next_place(place)?;
            match opposite_place(l, more, next)? {
                Some(other) => Ok(Some(Derivation::Clash(place, other))),
                None => clash(more, next),
            }
        }
    }
}

fn push_flag(l: &Literal, list: &mut Items<(u32, bool)>) -> Result<(), OutOfMemory>
    ensures { OnOk result (list.new ≡ list.old ++ with_flag l.now []) }
{
    if let Literal::Flag(n, held) = l {
        list.push((*n, *held))?;
    }
    Ok(())
}

fn push_flags(facts: &[Literal], list: &mut Items<(u32, bool)>) -> Result<(), OutOfMemory>
    ensures { OnOk result (list.new ≡ list.old ++ flags_among facts.now) }
{
    match facts {
        [] => Ok(()),
        [l, more @ ..] => {
            push_flag(l, list)?;
            push_flags(more, list)
        }
    }
}

/// Derives that assumptions about flags can't all hold, or gives what the flags are where they do.
pub fn flags_of(alloc: Global, facts: &[Literal]) -> Result<Flags, OutOfMemory>
    ensures { IfOk result (AreFlagsOf facts.now) }
{
    match clash(facts, 0)? {
        Some(d) => Ok(Flags::Refuted(d)),
        None => {
            let mut list = Items::new(alloc);
            push_flags(facts, &mut list)?;
            Ok(Flags::Values(list))
        }
    }
}
