// Forms and rows that are too wide.
ghost use Rattle.std.specs.Prelude.{◌≡◌, ◌++◌, None, IfOk, MatchOption, All, true, false};
ghost use Rattle.terms.specs.Within.{terms_within};
ghost use Rattle.proof_checker.specs.Conditions.{IsSorted};
ghost use Rattle.cond_facts.specs.ConditionPoints.{AreFormsWithin, IsWideForm, IsNarrow};
ghost use Rattle.cond_facts.specs.Decisions.{AreRowsTold};
ghost use Rattle.cond_facts.specs.FormsTold.{AreTermsTold, IsLiteralTold, IsWidePlace};

use crate::reading::rows_of;
use lin_rows::RowFault;
use proof_checker::Condition;
use py_base::OutOfMemory;
use std::alloc::Global;
use terms::{Literal, Term, normal};

// Whether the form of a term, or of one within it, is too wide.
#[tactic(auto, using(crate::proofs::FormTelling::wide_within))]
fn is_wide(alloc: Global, t: &Term) -> Result<bool, OutOfMemory>
    ensures { IfOk result (AreTermsTold (terms_within t.now)) }
{
    match normal(alloc, t) {
        Ok(_form) => Ok(false),
        Err(RowFault::Wide) => Ok(true),
        Err(RowFault::OutOfMemory) => Err(OutOfMemory),
    }
}

// The same for two terms.
#[tactic(auto, using(crate::proofs::FormTelling::wide_left, crate::proofs::FormTelling::told_right))]
fn is_either_wide(alloc: Global, a: &Term, b: &Term) -> Result<bool, OutOfMemory>
    ensures { IfOk result (AreTermsTold (terms_within a.now ++ terms_within b.now)) }
{
    if is_wide(alloc, a)? {
        return Ok(true);
    }
    is_wide(alloc, b)
}

// The same for the terms of a literal.
fn has_wide_form(alloc: Global, l: &Literal) -> Result<bool, OutOfMemory>
    ensures { IfOk result (λ b. IsLiteralTold b l.now) }
{
    match l {
        Literal::AtMost(a, b) => is_either_wide(alloc, a, b),
        Literal::Same(a, b) => is_either_wide(alloc, a, b),
        Literal::Apart(a, b) => is_either_wide(alloc, a, b),
        Literal::Flag(_, _) => Ok(false),
    }
}

// The place of the first literal with such a form.
fn wide_place(alloc: Global, literals: &[Literal]) -> Result<Option<usize>, OutOfMemory>
    ensures { IfOk result (λ o. MatchOption o (All (IsLiteralTold false) literals.now) (IsWidePlace literals.now)) }
{
    for place in 0..literals.len() {
        if has_wide_form(alloc, &literals[place])? {
            return Ok(Some(place));
        }
    }
    Ok(None)
}

// The place of the first literal of a condition with such a form, the goal last.
fn wide_place_in(alloc: Global, c: &Condition) -> Result<Option<usize>, OutOfMemory>
    ensures { IfOk result (λ o. MatchOption o (AreFormsWithin c.now) (IsWideForm c.now)) }
{
    match wide_place(alloc, c.hyps.as_slice())? {
        Some(place) => Ok(Some(place)),
        None => {
            if has_wide_form(alloc, &c.goal)? {
                return Ok(Some(c.hyps.as_slice().len()));
            }
            Ok(None)
        }
    }
}

/// The number of the first literal that has a term whose linear form is too wide.
pub fn wide_literal(alloc: Global, c: &Condition) -> Result<Option<u32>, OutOfMemory>
    requires sorted { IsSorted c.now }
    ensures wide { IfOk result (λ o. MatchOption o (AreFormsWithin c.now) (IsWideForm c.now)) }
    ensures narrow { IsNarrow c.now → IfOk result (λ o. o ≡ None) }
{
    match wide_place_in(alloc, c)? {
        None => Ok(None),
        Some(place) => {
            if place as u128 >= 1 << 32 {
                return Err(OutOfMemory);
            }
            Ok(Some(place as u32))
        }
    }
}

/// Whether the rows of a literal are within 128 bits.
#[tactic(auto, using(crate::proofs::FormTelling::rows_told, crate::proofs::FormTelling::wide_told))]
pub fn do_rows_fit(alloc: Global, l: &Literal) -> Result<bool, OutOfMemory>
    ensures { IfOk result (AreRowsTold l.now) }
{
    match rows_of(alloc, l) {
        Ok(_rows) => Ok(true),
        Err(RowFault::Wide) => Ok(false),
        Err(RowFault::OutOfMemory) => Err(OutOfMemory),
    }
}
