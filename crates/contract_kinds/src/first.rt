// The first of some breaches.
ghost use Rattle.std.specs.Prelude.{◌≡◌, None, [], MatchOption};
ghost use Rattle.contract_kinds.specs.Order.{number_of, comes_before, sooner, first_of, IsFirstFault};

use crate::breach::{Breach, Rule};

fn number_of(rule: Rule) -> u8
    ensures { result ≡ number_of rule }
{
    match rule {
        Rule::ContractPlace => 1,
        Rule::OldInPre => 2,
        Rule::DutyPlace => 3,
        Rule::BadFraction => 4,
        Rule::RecursivePure => 5,
        Rule::BadTarget => 6,
        Rule::UnknownPredicate => 7,
    }
}

fn comes_before(one: Breach, other: Breach) -> bool
    ensures { result ≡ comes_before one other }
{
    let here = one.place;
    let there = other.place;
    if here.line != there.line {
        return here.line < there.line;
    }
    if here.col != there.col {
        return here.col < there.col;
    }
    number_of(one.rule) < number_of(other.rule)
}

fn sooner(best: Option<Breach>, breach: Breach) -> Breach
    ensures { result ≡ sooner best breach }
{
    match best {
        Some(other) => {
            if comes_before(breach, other) {
                return breach;
            }
            other
        }
        None => breach,
    }
}

// The first of those so far and of these.
fn first_of(so_far: Option<Breach>, breaches: &[Breach]) -> Option<Breach>
    ensures { result ≡ first_of so_far breaches.now }
{
    let mut best = so_far;
    'breaches: for breach in breaches {
        best = Some(sooner(best, *breach));
    }
    best
}

/// The first of some breaches, by place, and at one place in the order of the rules; None where there is none.
#[tactic(auto, using(crate::proofs::Firsts::told))]
pub fn first_breach(breaches: &[Breach]) -> Option<Breach>
    ensures { MatchOption result (breaches.now ≡ []) (IsFirstFault breaches.now) }
{
    first_of(None, breaches)
}
