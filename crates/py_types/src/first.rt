// The first of some faults.
ghost use Rattle.std.specs.Prelude.{◌≡◌};
ghost use Rattle.py_types.specs.Order.{sort_of, rule_of, comes_before, sooner, first_of};

use type_base::{Fault, Rank};

fn sort_of(rank: Rank) -> u8
    ensures { result ≡ sort_of rank }
{
    match rank {
        Rank::Mistyped(_) => 0,
        Rank::BoolAsInt => 1,
        Rank::Unassigned => 2,
    }
}

fn rule_of(rank: Rank) -> u8
    ensures { result ≡ rule_of rank }
{
    match rank {
        Rank::Mistyped(rule) => rule,
        _ => 0,
    }
}

fn comes_before(one: Fault, other: Fault) -> bool
    ensures { result ≡ comes_before one other }
{
    let here = one.place;
    let there = other.place;
    if here.line != there.line {
        return here.line < there.line;
    }
    if here.col != there.col {
        return here.col < there.col;
    }
    let sort = sort_of(one.rank);
    let other_sort = sort_of(other.rank);
    if sort != other_sort {
        return sort < other_sort;
    }
    rule_of(one.rank) < rule_of(other.rank)
}

fn sooner(best: Option<Fault>, fault: Fault) -> Fault
    ensures { result ≡ sooner best fault }
{
    match best {
        Some(other) => {
            if comes_before(fault, other) {
                return fault;
            }
            other
        }
        None => fault,
    }
}

/// The first of those so far and of these.
pub fn first_of(so_far: Option<Fault>, faults: &[Fault]) -> Option<Fault>
    ensures { result ≡ first_of so_far faults.now }
{
    let mut best = so_far;
    'faults: for fault in faults {
        best = Some(sooner(best, *fault));
    }
    best
}
