// Units of permission to a field.
ghost use Rattle.std.specs.Prelude.{◌≡◌, ◌↔◌, ◌+◌, ◌*◌, ◌≤◌, ◌<◌, ℕ, IsNone, IfSome};

use std::marker::Model;

// The least number that each denominator from 1 to 16 divides.
const WHOLE: u32 = 720_720;

/// A number of units of one field, at most the 720,720 that make the whole permission. Contracts
/// see the number.
#[derive(Clone, Copy, Debug, PartialEq, Eq)]
pub struct Units {
    count: u32,
}

impl Model for Units {
    ghost Value = { ℕ };

    ghost view = { λ u. u.count };

    ghost invariant = { λ u. u.count ≤ 720720 };

    ghost inverse = { λ n. record { count = n } };
}

impl Units {
    /// The units of the fraction n/d, which is exact for every denominator up to 16.
    pub fn of(n: u32, d: u32) -> Option<Units>
        ensures none { IsNone result ↔ ¬ ((1 ≤ n) × (n ≤ d) × (d ≤ 16)) }
        ensures some { IfSome result (λ u. u * d ≡ n * 720720) }
    {
        if 1 <= n && n <= d && d <= 16 {
            Some(Units {
                count: WHOLE / d * n,
            })
        } else {
            None
        }
    }

    /// The whole permission to a field.
    pub fn full() -> Units
        ensures { result ≡ 720720 }
    {
        Units { count: WHOLE }
    }

    /// The sum, where it is at most the whole.
    pub fn add(self, o: Units) -> Option<Units>
        ensures none { IsNone result ↔ (720720 < self + o) }
        ensures some { IfSome result (λ u. u ≡ self + o) }
    {
        let count = self.count + o.count;
        if count <= WHOLE {
            Some(Units { count })
        } else {
            None
        }
    }

    /// What is left, where so much is there.
    pub fn sub(self, o: Units) -> Option<Units>
        ensures none { IsNone result ↔ (self < o) }
        ensures some { IfSome result (λ u. u + o ≡ self) }
    {
        if o.count <= self.count {
            Some(Units {
                count: self.count - o.count,
            })
        } else {
            None
        }
    }
}
