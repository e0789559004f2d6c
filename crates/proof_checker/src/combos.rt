// Combinations of the rows of assumptions.
ghost use Rattle.std.specs.Prelude.{◌≡◌, ◌↔◌, ℕ, pos, ◌<◌, ◌<ℤ◌, ◌≤ℤ◌, ◌+ℤ◌, ◌*ℤ◌, List, Option, IfSome, IsTrue, slice_get, Some};
ghost use Rattle.lin_rows.specs.declared.Row.{Row};
ghost use Rattle.lin_rows.specs.Rows.{MixFits};
ghost use Rattle.lin_rows.specs.Steps.{all_rows, StepHolds, StepsHold, EndsFalse};
ghost use Rattle.lin_rows.specs.Steps as step;
ghost use Rattle.proof_checker.specs.declared.replies.Figure.TheVariants.{Coefficient};
ghost use Rattle.proof_checker.specs.Chains.{facts};
ghost use Rattle.proof_checker.specs.Rows.{AreAllRows};
ghost use Rattle.proof_checker.specs.Combos.{Combines, IsRowOf, IsSumAt, AddsUp, IsClear};

use crate::chain::Chain;
use crate::replies::Figure;
use crate::summands::{Summand, lesser, number_in, number_of, row_at, variable_in, variable_of};
use lin_rows::{ComboStep, Row};

/// Whether a number is `k * x + l * y`, where the products and their sum are within 128 bits.
fn is_mix(k: i128, x: i128, l: i128, y: i128, z: i128) -> bool
    ensures { IsTrue result ↔ (MixFits k x l y × (z ≡ k *ℤ x +ℤ l *ℤ y)) }
{
    match (k.checked_mul(x), l.checked_mul(y)) {
        (Some(left), Some(right)) => match left.checked_add(right) {
            Some(sum) => z == sum,
            None => false,
        },
        _ => false,
    }
}

/// Whether the step's row has the sum of two rows at a variable, or as its bound.
fn is_sum_at<'a>(s: &'a ComboStep, left: &'a Summand<'a>, right: &'a Summand<'a>, q: Figure) -> bool
    ensures { (a b : Row) → IsRowOf left.now a → IsRowOf right.now b → (IsTrue result ↔ IsSumAt q a b s.now) }
{
    match (number_of(left, q), number_of(right, q)) {
        (Some(x), Some(y)) => is_mix(s.by_left, x, s.by_right, y, number_in(&s.row, q)),
        _ => false,
    }
}

/// A variable greater than a number, such that neither the step's row nor two others have one between.
fn next_variable<'a>(
    s: &'a ComboStep,
    left: &'a Summand<'a>,
    right: &'a Summand<'a>,
    last: u32,
) -> Option<u32>
    ensures above { IfSome result (λ v. last < v) }
    ensures own { IsClear last result s.now.row.coefs }
    ensures left { (r : Row) → IsRowOf left.now r → IsClear last result r.coefs }
    ensures right { (r : Row) → IsRowOf right.now r → IsClear last result r.coefs }
{
    let both = lesser(variable_of(left, last), variable_of(right, last));
    lesser(variable_in(&s.row, last), both)
}

/// Whether the coefficients of the step's row are the sums of those of two rows.
fn are_sums<'a>(s: &'a ComboStep, left: &'a Summand<'a>, right: &'a Summand<'a>) -> bool
    ensures { (a b : Row) → IsRowOf left.now a → IsRowOf right.now b → (IsTrue result ↔ ((v : ℕ) → IsSumAt (Coefficient v) a b s.now)) }
{
    if !is_sum_at(s, left, right, Figure::Coefficient(0)) {
        return false;
    }
    let mut last = 0;
    'variables: while let Some(v) = next_variable(s, left, right, last) {
        if !is_sum_at(s, left, right, Figure::Coefficient(v)) {
            return false;
        }
        last = v;
    }
    true
}

/// Whether the first is positive and the second positive or 0.
fn are_positive(k: i128, l: i128) -> bool
    ensures { IsTrue result ↔ ((pos 0 <ℤ k) × (pos 0 ≤ℤ l)) }
{
    k > 0 && l >= 0
}

/// Whether the step's row is the sum of two rows, by multipliers that are positive or 0.
fn is_sum<'a>(s: &'a ComboStep, left: &'a Summand<'a>, right: &'a Summand<'a>) -> bool
    ensures { (a b : Row) → IsRowOf left.now a → IsRowOf right.now b → (IsTrue result ↔ AddsUp a b s.now) }
{
    if !are_positive(s.by_left, s.by_right) {
        return false;
    }
    if !is_sum_at(s, left, right, Figure::Units) {
        return false;
    }
    are_sums(s, left, right)
}

/// Whether the step's row is the sum of two rows, by multipliers that are positive or 0.
fn adds_up<'a>(s: &'a ComboStep, left: Summand<'a>, right: Summand<'a>) -> bool
    ensures { (a b : Row) → IsRowOf left.entry a → IsRowOf right.entry b → (IsTrue result ↔ AddsUp a b s.now) }
{
    is_sum(s, &left, &right)
}

/// Whether a step holds whose left row is known.
fn holds_with<'a>(
    chain: &'a Chain<'a>,
    earlier: &'a [ComboStep],
    s: &'a ComboStep,
    left: Summand<'a>,
) -> bool
    ensures { (rows : List (Option Row)) (a : Row) → AreAllRows (facts chain.now) rows → IsRowOf left.entry a
        → slice_get (all_rows rows earlier.now) s.now.left ≡ Some (Some a)
        → (IsTrue result ↔ StepHolds (all_rows rows earlier.now) s.now) }
{
    match row_at(chain, earlier, s.right) {
        Some(right) => adds_up(s, left, right),
        None => false,
    }
}

/// Whether a step holds, after earlier ones.
fn step_holds<'a>(chain: &'a Chain<'a>, earlier: &'a [ComboStep], s: &'a ComboStep) -> bool
    ensures { (rows : List (Option Row)) → AreAllRows (facts chain.now) rows → (IsTrue result ↔ StepHolds (all_rows rows earlier.now) s.now) }
{
    match row_at(chain, earlier, s.left) {
        Some(left) => holds_with(chain, earlier, s, left),
        None => false,
    }
}

/// Whether each step holds.
fn steps_hold<'a>(chain: &'a Chain<'a>, steps: &'a [ComboStep]) -> bool
    ensures { (rows : List (Option Row)) → AreAllRows (facts chain.now) rows → (IsTrue result ↔ StepsHold rows steps.now) }
{
    let mut i = 0;
    'steps: while i < steps.len() {
        if !step_holds(chain, &steps[..i], &steps[i]) {
            return false;
        }
        i += 1;
    }
    true
}

fn is_false(row: &Row) -> bool
    ensures { IsTrue result ↔ step.IsFalse row.now }
{
    row.coefs.as_slice().is_empty() && row.bound < 0
}

/// Whether the last row has no terms and a negative bound.
fn ends_false(steps: &[ComboStep]) -> bool
    ensures { IsTrue result ↔ EndsFalse steps.now }
{
    match steps.last() {
        Some(last) => is_false(&last.row),
        None => false,
    }
}

/// Whether steps show that the rows of the assumptions aren't met together.
#[inline(never)]
pub fn is_combination<'a>(chain: &'a Chain<'a>, steps: &'a [ComboStep]) -> bool
    ensures { IsTrue result ↔ Combines (facts chain.now) steps.now }
{
    if ends_false(steps) {
        steps_hold(chain, steps)
    } else {
        false
    }
}
