// The row of an order of two terms.
ghost use Rattle.std.specs.Prelude.{◌≡◌, ◌≢◌, ◌-ℤ◌, ◌+ℤ◌, pos, ℕ, IfOk, IfErr, [], ◌∷◌, FitsSigned};
ghost use Rattle.std.specs.Int.{w128};
ghost use Rattle.lin_rows.specs.Terms.{coef_at};
ghost use Rattle.lin_rows.specs.declared.RowFault.TheVariants.{Wide};
ghost use Rattle.proof_checker.specs.Rows.{RowFits, IsRow};
ghost use Rattle.cond_facts.specs.Differences.{CoefsFit, Lessens, LessFits};

use lin_rows::{Row, RowFault, Terms, combine};
use std::alloc::Global;
use terms::{Linear, Term, normal};

// The row of one term and the bound 0.
fn single(alloc: Global, var: u32, coef: i128) -> Result<Row, RowFault>
    requires { coef ≢ pos 0 }
    ensures coefs { IfOk result (λ r. r.coefs ≡ (var, coef) ∷ []) }
    ensures bound { IfOk result (λ r. r.bound ≡ pos 0) }
    ensures memory { IfErr result (λ e. e ≢ Wide) }
{
    let mut coefs = Terms::new(alloc);
    coefs.push(var, coef)?;
    Ok(Row { coefs, bound: 0 })
}

// The row with one term added, where the sum is within 128 bits.
fn more_term(alloc: Global, row: &Row, var: u32, coef: i128) -> Result<Row, RowFault>
    requires some { coef ≢ pos 0 }
    requires zero { row.now.bound ≡ pos 0 }
    requires fits { CoefsFit row.now.coefs }
    ensures coefs { IfOk result (λ r. (v : ℕ) → coef_at r.coefs v ≡ coef_at row.now.coefs v +ℤ coef_at ((var, coef) ∷ []) v) }
    ensures bound { IfOk result (λ r. r.bound ≡ row.now.bound) }
    ensures fits { IfOk result (λ r. CoefsFit r.coefs) }
    ensures wide { IfErr result (λ e. e ≡ Wide → ¬ (FitsSigned w128 (coef_at row.now.coefs var +ℤ coef))) }
{
    match single(alloc, var, coef) {
        Ok(one) => combine(alloc, 1, row, 1, &one),
        Err(e) => Err(e),
    }
}

// The row with one term less. The negative of the least coefficient is outside 128 bits: it is taken
// away in two parts.
fn less_term(alloc: Global, row: &Row, var: u32, coef: i128) -> Result<Row, RowFault>
    requires some { coef ≢ pos 0 }
    requires zero { row.now.bound ≡ pos 0 }
    requires fits { CoefsFit row.now.coefs }
    ensures less { IfOk result (Lessens row.now ((var, coef) ∷ [])) }
    ensures wide { IfErr result (λ e. e ≡ Wide → ¬ (FitsSigned w128 (coef_at row.now.coefs var -ℤ coef))) }
{
    match coef.checked_neg() {
        Some(negative) => more_term(alloc, row, var, negative),
        None => match more_term(alloc, row, var, -(coef + 1)) {
            Ok(part) => more_term(alloc, &part, var, 1),
            Err(e) => Err(e),
        },
    }
}

// The row with all terms of a form less.
fn less_terms(alloc: Global, row: Row, terms: &Terms) -> Result<Row, RowFault>
    requires zero { row.bound ≡ pos 0 }
    requires fits { CoefsFit row.coefs }
    ensures less { IfOk result (Lessens row terms.now) }
    ensures wide { IfErr result (λ e. e ≡ Wide → ¬ (LessFits row.coefs terms.now)) }
{
    let mut rest = row;
    for (var, coef) in terms.as_slice() {
        match less_term(alloc, &rest, *var, *coef) {
            Ok(less) => rest = less,
            Err(e) => return Err(e),
        }
    }
    Ok(rest)
}

// The row that says that one form is at most another.
fn difference(alloc: Global, left: Linear, right: &Linear) -> Result<Row, RowFault>
    requires fits { CoefsFit left.coefs }
    ensures coefs { IfOk result (λ r. (v : ℕ) → coef_at r.coefs v ≡ coef_at left.coefs v -ℤ coef_at right.now.coefs v) }
    ensures bound { IfOk result (λ r. r.bound ≡ right.now.bound -ℤ left.bound) }
    ensures fits { IfOk result (λ r. LessFits left.coefs right.now.coefs × FitsSigned w128 (right.now.bound -ℤ left.bound)) }
    ensures wide { IfErr result (λ e. e ≡ Wide → ¬ (LessFits left.coefs right.now.coefs × FitsSigned w128 (right.now.bound -ℤ left.bound))) }
{
    let Some(bound) = right.bound.checked_sub(left.bound) else {
        return Err(RowFault::Wide);
    };
    let row = Row {
        coefs: left.coefs,
        bound: 0,
    };
    match less_terms(alloc, row, &right.coefs) {
        Ok(less) => Ok(Row {
            coefs: less.coefs,
            bound,
        }),
        Err(e) => Err(e),
    }
}

/// The row of `a <= b`.
pub fn row_of(alloc: Global, a: &Term, b: &Term) -> Result<Row, RowFault>
    ensures row { IfOk result (IsRow a.now b.now) }
    ensures wide { IfErr result (λ e. e ≡ Wide → ¬ (RowFits a.now b.now)) }
{
    match normal(alloc, a) {
        Ok(left) => match normal(alloc, b) {
            Ok(right) => difference(alloc, left, &right),
            Err(e) => Err(e),
        },
        Err(e) => Err(e),
    }
}
