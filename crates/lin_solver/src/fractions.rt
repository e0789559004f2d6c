// Fractions, compared without products.
ghost use Rattle.std.specs.Prelude.{◌↔◌, ◌*◌, ◌<◌, ◌≤◌, IsTrue};

/// `m / d <= n / e`, where a product may be outside 128 bits.
pub fn fraction_le(m: u128, d: u128, n: u128, e: u128) -> bool
    requires d_positive { 0 < d }
    requires e_positive { 0 < e }
    ensures { IsTrue result ↔ m * e ≤ n * d }
{
    let low = m / d;
    let high = n / e;
    if low != high {
        return low < high;
    }
    let r = m % d;
    let s = n % e;
    if r == 0 {
        return true;
    }
    if s == 0 {
        return false;
    }
    fraction_le(e, s, d, r)
}
