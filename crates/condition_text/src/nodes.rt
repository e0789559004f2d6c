// The nodes of derivations.
ghost use Rattle.std.specs.Prelude.{◌≡◌, ◌+◌, IfSome, IsSomeAnd};
ghost use Rattle.condition_text.specs.Replies.{nodes_of};

use proof_checker::Derivation;

fn one_more(rest: Option<u64>) -> Option<u64>
    ensures { IfSome result (λ n. IsSomeAnd rest (λ k. n ≡ k + 1)) }
{
    match rest {
        Some(nodes) => nodes.checked_add(1),
        None => None,
    }
}

fn both(held: Option<u64>, other: Option<u64>) -> Option<u64>
    ensures { IfSome result (λ n. IsSomeAnd held (λ h. IsSomeAnd other (λ k. n ≡ h + k))) }
{
    match held {
        Some(held) => match other {
            Some(other) => held.checked_add(other),
            None => None,
        },
        None => None,
    }
}

/// How many nodes a derivation has.
pub fn count_nodes(d: &Derivation) -> Option<u64>
    ensures { IfSome result (λ n. n ≡ nodes_of d.now) }
{
    match d {
        Derivation::Split(_, held, other) => {
            one_more(both(count_nodes(held.get()), count_nodes(other.get())))
        }
        Derivation::Replace(_, _, rest) => one_more(count_nodes(rest.get())),
        Derivation::Congruent(_, _, rest) => one_more(count_nodes(rest.get())),
        Derivation::Clash(_, _) => Some(1),
        Derivation::Combine(_) => Some(1),
    }
}
