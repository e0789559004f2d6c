// Which literals stand for rows.
ghost use Rattle.std.specs.Prelude.{◌↔◌, ◌-ℤ◌, IsTrue, FitsSigned};
ghost use Rattle.std.specs.Int.{w128};
ghost use Rattle.proof_checker.specs.Chains.{side_term};
ghost use Rattle.proof_checker.specs.Figures.{BothFit, FitAtSymbols};
ghost use Rattle.proof_checker.specs.Rows.{RowFits};

use crate::figures::{figure, next_symbol};
use crate::replies::Figure;
use crate::side::Side;

fn difference_fits(x: i128, y: i128) -> bool
    ensures { IsTrue result ↔ FitsSigned w128 (x -ℤ y) }
{
    x.checked_sub(y).is_some()
}

/// Whether a number of both sides, and the difference, are within 128 bits.
fn both_fit<'a>(a: &'a Side<'a>, b: &'a Side<'a>, q: Figure) -> bool
    ensures { IsTrue result ↔ BothFit q (side_term a.now) (side_term b.now) }
{
    match figure(a, q) {
        None => false,
        Some(x) => match figure(b, q) {
            None => false,
            Some(y) => difference_fits(x, y),
        },
    }
}

/// Whether the coefficients of two sides, and their differences, are within 128 bits at the symbols
/// of a third.
fn fit_at_symbols<'a>(a: &'a Side<'a>, b: &'a Side<'a>, of: &'a Side<'a>) -> bool
    ensures { IsTrue result ↔ FitAtSymbols (side_term of.now) (side_term a.now) (side_term b.now) }
{
    let mut from: u64 = 0;
    'symbols: while let Some(v) = next_symbol(of, from) {
        if !both_fit(a, b, Figure::Coefficient(v)) {
            return false;
        }
        from = v as u64 + 1;
    }
    true
}

/// Whether the numbers of the row of `a <= b` are within 128 bits.
pub fn has_row<'a>(a: &'a Side<'a>, b: &'a Side<'a>) -> bool
    ensures { IsTrue result ↔ RowFits (side_term a.now) (side_term b.now) }
{
    if both_fit(b, a, Figure::Units) {
        fit_at_symbols(a, b, a) && fit_at_symbols(a, b, b)
    } else {
        false
    }
}
