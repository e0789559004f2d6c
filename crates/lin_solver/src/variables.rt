// The variables of rows, in ascending order.
ghost use Rattle.std.specs.Prelude.{◌≡◌, ◌≢◌, ℕ, pos, ◌≤◌, ◌<◌, All, Some, None, ◌⊎◌, IfNone, IfSome};
ghost use Rattle.lin_rows.specs.Terms.{coef_at};
ghost use Rattle.lin_solver.specs.Variables.{HasNoneFrom, HasNoneBetween, IsNextVariable};

use lin_rows::{Row, Terms};

/// The least variable of terms that isn't below a number.
fn first_from(terms: &Terms, from: u64) -> Option<u32>
    ensures none { IfNone result (HasNoneFrom from terms.now) }
    ensures from { IfSome result (λ v. from ≤ v) }
    ensures stands { IfSome result (λ v. coef_at terms.now v ≢ pos 0) }
    ensures least { IfSome result (λ v. HasNoneBetween from v terms.now) }
{
    for (v, _) in terms.as_slice() {
        if *v as u64 >= from {
            return Some(*v);
        }
    }
    None
}

/// The lesser of two variables, where there are any.
fn lesser(a: Option<u32>, b: Option<u32>) -> Option<u32>
    ensures none { IfNone result ((a ≡ None) × (b ≡ None)) }
    ensures some { IfSome result (λ v. (a ≡ Some v) ⊎ (b ≡ Some v)) }
    ensures least { IfSome result (λ v. IfSome a (λ w. v ≤ w) × IfSome b (λ w. v ≤ w)) }
{
    match (a, b) {
        (Some(v), Some(w)) => Some(if v < w { v } else { w }),
        (None, _) => b,
        (_, None) => a,
    }
}

/// The least variable of rows that isn't below a number.
pub fn next_variable(rows: &[Row], from: u64) -> Option<u32>
    ensures none { IfNone result (All (λ r. HasNoneFrom from r.coefs) rows.now) }
    ensures some { IfSome result (IsNextVariable rows.now from) }
{
    let mut least = None;
    for row in rows {
        least = lesser(least, first_from(&row.coefs, from));
    }
    least
}
