// The rows that a step adds up, which aren't built.
ghost use Rattle.std.specs.Prelude.{◌≡◌, ℕ, ◌<◌, ◌&&◌, ◌-ℤ◌, if◌then◌else◌, List, Option, Some, IfSome, FitsSigned, slice_get};
ghost use Rattle.std.specs.Int.{w128};
ghost use Rattle.lin_rows.specs.declared.Row.{Row};
ghost use Rattle.lin_rows.specs.Steps.{all_rows};
ghost use Rattle.terms.specs.Sorts.{of_numbers};
ghost use Rattle.terms.specs.Forms.{form_of};
ghost use Rattle.proof_checker.specs.Chains.{facts, side_term, view_literal};
ghost use Rattle.proof_checker.specs.Figures.{asked, FigureFits, HasSymbol};
ghost use Rattle.proof_checker.specs.Rows.{IsRowIf, AreRows, AreAllRows};
ghost use Rattle.proof_checker.specs.Combos.{IsRowOf, StandsFor, StandsAt, row_number, IsBelow, IsClear, lesser_of};

use crate::chain::{Chain, Found, find};
use crate::figures::{figure, next_symbol};
use crate::puts::is_of_numbers;
use crate::replies::Figure;
use crate::side::Side;
use crate::sources::has_row;
use crate::view::{Kind, View};
use lin_rows::{ComboStep, Row};

/// A row that stands in memory, or the row of `a <= b`.
#[derive(Clone, Copy)]
pub enum Summand<'a> {
    Given(&'a Row),
    Compared(&'a Side<'a>, &'a Side<'a>),
}

fn are_of_numbers<'a>(a: &'a Side<'a>, b: &'a Side<'a>) -> bool
    ensures { result ≡ (of_numbers (side_term a.now) && of_numbers (side_term b.now)) }
{
    is_of_numbers(a.origin, &a.puts) && is_of_numbers(b.origin, &b.puts)
}

/// What stands for the row of `a <= b`.
fn at_most<'a>(a: &'a Side<'a>, b: &'a Side<'a>) -> Option<Summand<'a>>
    ensures { (r : Option Row) → IsRowIf (of_numbers (side_term a.now) && of_numbers (side_term b.now)) (side_term a.now) (side_term b.now) r → StandsFor result r }
{
    if !are_of_numbers(a, b) {
        return None;
    }
    if has_row(a, b) {
        Some(Summand::Compared(a, b))
    } else {
        None
    }
}

/// What stands for the first or the second row of an assumption.
fn of_assumption<'a>(v: &'a View<'a>, second: bool) -> Option<Summand<'a>>
    ensures { (r s : Option Row) → AreRows (view_literal v.now) r s → StandsFor result (if second then s else r) }
{
    match v {
        View::Sides(Kind::AtMost, a, b) => if second { None } else { at_most(a, b) },
        View::Sides(Kind::Same, a, b) => if second { at_most(b, a) } else { at_most(a, b) },
        View::Sides(Kind::Apart, _, _) => None,
        View::Flag(_, _) => None,
    }
}

/// What stands for the row of a number: those of the assumptions come first, then those of earlier steps.
pub fn row_at<'a>(chain: &'a Chain<'a>, earlier: &'a [ComboStep], n: u32) -> Option<Summand<'a>>
    ensures { (rows : List (Option Row)) → AreAllRows (facts chain.now) rows → StandsAt result (slice_get (all_rows rows earlier.now) n) }
{
    match find(&*chain, n / 2) {
        Found::Is(v) => of_assumption(&*v, n % 2 == 1),
        Found::Past(left) => match earlier.get((2 * left + n % 2) as usize) {
            Some(step) => Some(Summand::Given(&step.row)),
            None => None,
        },
    }
}

/// The coefficient of a variable, or the bound.
pub fn number_in(row: &Row, q: Figure) -> i128
    ensures { result ≡ row_number q row.now }
{
    match q {
        Figure::Coefficient(v) => row.coefs.coef(v),
        Figure::Units => row.bound,
    }
}

/// The difference of a number of two sides.
fn difference<'a>(a: &'a Side<'a>, b: &'a Side<'a>, q: Figure) -> Option<i128>
    ensures { FigureFits q (side_term a.now) → FigureFits q (side_term b.now) → FitsSigned w128 (asked q (form_of (side_term a.now)) -ℤ asked q (form_of (side_term b.now)))
        → result ≡ Some (asked q (form_of (side_term a.now)) -ℤ asked q (form_of (side_term b.now))) }
{
    match (figure(a, q), figure(b, q)) {
        (Some(x), Some(y)) => x.checked_sub(y),
        _ => None,
    }
}

/// The coefficient of a variable in the row that a summand stands for, or its bound.
pub fn number_of<'a>(s: &'a Summand<'a>, q: Figure) -> Option<i128>
    ensures { (r : Row) → IsRowOf s.now r → result ≡ Some (row_number q r) }
{
    match s {
        Summand::Given(row) => Some(number_in(row, q)),
        Summand::Compared(a, b) => match q {
            Figure::Coefficient(v) => difference(a, b, Figure::Coefficient(v)),
            Figure::Units => difference(b, a, Figure::Units),
        },
    }
}

/// The lesser of two numbers, where there are any.
pub fn lesser(a: Option<u32>, b: Option<u32>) -> Option<u32>
    ensures { result ≡ lesser_of a b }
{
    match a {
        None => b,
        Some(m) => match b {
            None => Some(m),
            Some(n) => if m < n { Some(m) } else { Some(n) },
        },
    }
}

/// The least number symbol of a side that is greater than a number.
fn symbol_after<'a>(s: &'a Side<'a>, last: u32) -> Option<u32>
    ensures above { IfSome result (λ v. last < v) }
    ensures none { (w : ℕ) → last < w → IsBelow w result → HasSymbol w (side_term s.now) → ⊥ }
{
    next_symbol(s, last as u64 + 1)
}

/// The first variable of a row that is greater than a number.
pub fn variable_in(row: &Row, last: u32) -> Option<u32>
    ensures above { IfSome result (λ v. last < v) }
    ensures clear { IsClear last result row.now.coefs }
{
    for (v, _) in row.coefs.as_slice() {
        if last < *v {
            return Some(*v);
        }
    }
    None
}

/// A variable greater than a number, such that the row that a summand stands for has none between.
pub fn variable_of<'a>(s: &'a Summand<'a>, last: u32) -> Option<u32>
    ensures above { IfSome result (λ v. last < v) }
    ensures clear { (r : Row) → IsRowOf s.now r → IsClear last result r.coefs }
{
    match s {
        Summand::Given(row) => variable_in(row, last),
        Summand::Compared(a, b) => lesser(symbol_after(a, last), symbol_after(b, last)),
    }
}
