// Rows that no other row implies.
ghost use Rattle.std.specs.Prelude.{◌≡◌, ◌≢◌, ◌⊎◌, ◌↔◌, ℕ, IsTrue, IsNone, IfSome, IfOk, OnOk, All, Contains, Some, slice_get};
ghost use Rattle.lin_solver.specs.Numbers.{HasRow, HaveRows, IsAny, FollowsFrom, AreApart};

use crate::numbers::row_at;
use lin_rows::{ComboStep, Row};
use py_base::OutOfMemory;
use sqlite_items::Items;
use std::alloc::Global;

fn has_same_terms(row: &Row, other: &Row) -> bool
    ensures { IsTrue result ↔ (row.now.coefs ≡ other.now.coefs) }
{
    row.coefs.as_slice() == other.coefs.as_slice()
}

/// The place of the first of these numbers whose row has the same terms.
fn place_of_terms(rows: &[Row], steps: &[ComboStep], numbers: &[u32], row: &Row) -> Option<usize>
    requires { HaveRows rows.now steps.now IsAny numbers.now }
    ensures none { IsNone result → HaveRows rows.now steps.now (λ s. s.coefs ≢ row.now.coefs) numbers.now }
    ensures some { IfSome result (λ at. (n : ℕ) × (slice_get numbers.now at ≡ Some n) × HasRow rows.now steps.now (λ s. s.coefs ≡ row.now.coefs) n) }
{
    for at in 0..numbers.len() {
        if has_same_terms(row_at(rows, steps, numbers[at]), row) {
            return Some(at);
        }
    }
    None
}

/// Adds a number, unless a row that is there implies its row; one that is implied goes.
fn add_strongest(
    rows: &[Row],
    steps: &[ComboStep],
    kept: &mut Items<u32>,
    number: u32,
) -> Result<(), OutOfMemory>
    requires rows { HaveRows rows.now steps.now IsAny kept.old }
    requires row { HasRow rows.now steps.now IsAny number }
    requires apart { AreApart rows.now steps.now kept.old }
    ensures among { OnOk result (All (λ n. Contains kept.old n ⊎ (n ≡ number)) kept.new) }
    ensures own { OnOk result (HasRow rows.now steps.now (FollowsFrom rows.now steps.now kept.new) number) }
    ensures all { OnOk result (HaveRows rows.now steps.now (FollowsFrom rows.now steps.now kept.new) kept.old) }
    ensures apart { OnOk result (AreApart rows.now steps.now kept.new) }
{
    let row = row_at(rows, steps, number);
    let Some(at) = place_of_terms(rows, steps, kept.as_slice(), row) else {
        return Ok(kept.push(number)?);
    };
    if row.bound < row_at(rows, steps, kept.as_slice()[at]).bound {
        kept.set(at, number);
    }
    Ok(())
}

/// Those of the numbers whose rows no other of them implies, with one for equal rows.
pub fn strongest(
    alloc: Global,
    rows: &[Row],
    steps: &[ComboStep],
    numbers: &[u32],
) -> Result<Items<u32>, OutOfMemory>
    requires { HaveRows rows.now steps.now IsAny numbers.now }
    ensures among { IfOk result (All (Contains numbers.now)) }
    ensures all { IfOk result (λ kept. HaveRows rows.now steps.now (FollowsFrom rows.now steps.now kept) numbers.now) }
    ensures apart { IfOk result (AreApart rows.now steps.now) }
{
    let mut kept = Items::new(alloc);
    for number in numbers {
        add_strongest(rows, steps, &mut kept, *number)?;
    }
    Ok(kept)
}
