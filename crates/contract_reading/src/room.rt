// How many instances of predicates can be open within one another.
ghost use Rattle.std.specs.Prelude.{◌≤◌, ◌≡◌, ◌<◌, ◌^◌, ◌-◌, min, MatchOption};
ghost use Rattle.machine_model.specs.Reading.{room};

use py_syntax::Module;

// A power, where it has no more than 64 bits.
fn power(base: u64, exponent: usize) -> Option<u64>
    requires { 0 < base }
    ensures { MatchOption result (2 ^ 64 ≤ base ^ exponent) (λ n. n ≡ base ^ exponent) }
{
    let mut product: u64 = 1;
    for _ in 0..exponent {
        match product.checked_mul(base) {
            Some(more) => product = more,
            None => return None,
        }
    }
    Some(product)
}

// The room on a heap of so many objects, where it has no more than 64 bits.
fn room(m: &Module, objects: usize) -> Option<u64>
    requires { objects < 2 ^ 64 - 1 }
    ensures { MatchOption result (2 ^ 64 ≤ room m.now objects) (λ n. n ≡ room m.now objects) }
{
    let mut total: u64 = 1;
    for pred in m.predicates.as_slice() {
        match power(objects as u64 + 1, pred.params.len()) {
            Some(instances) => match total.checked_add(instances) {
                Some(more) => total = more,
                None => return None,
            },
            None => return None,
        }
    }
    Some(total)
}

/// How many instances may be opened within one another on a heap of so many objects: as many as there is room for, and no
/// more than 64 bits number.
pub fn openings(m: &Module, objects: usize) -> u64
    requires { objects < 2 ^ 64 - 1 }
    ensures { result ≡ min (room m.now objects) (2 ^ 64 - 1) }
{
    match room(m, objects) {
        Some(n) => n,
        None => u64::MAX,
    }
}
