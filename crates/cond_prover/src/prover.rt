// The prover of conditions.
ghost use Rattle.std.specs.Prelude.{◌≡◌, All, IfOk};
ghost use Rattle.proof_checker.specs.Conditions.{IsSorted};
ghost use Rattle.proof_checker.specs.Derivations.{first_assumptions};
ghost use Rattle.cond_facts.specs.ConditionPoints.{AreFormsWithin, IsNarrow, IsWideForm};
ghost use Rattle.cond_facts.specs.Decisions.{IsFactOf, valuation_of};
ghost use Rattle.cond_prover.specs.Proofs.{IsProofOf, IsMeant, IsDecided};
ghost use Rattle.cond_prover.specs.Settled.{DoHold};

use crate::settled::{Settings, Settled, settle};
use crate::wide_facts::{wide_fact, wide_form};
use cond_facts::{assumptions_of, fitting_points_are_counterexamples, wide_literal};
use cond_plan::plan_of;
use cond_search::{Decided, decide};
use lin_rows::{Point, WidePoint};
use proof_checker::{Condition, Derivation, Valuation, derived_conditions_hold};
use py_base::OutOfMemory;
use std::alloc::Global;
use terms::Literal;

/// What the prover answers of a condition.
#[derive(Debug, Drop)]
pub enum Proof {
    /// Why it holds.
    Proved(Derivation),
    /// Where its hypotheses hold and its goal doesn't. What isn't listed is 0 or false.
    Fails(Valuation),
    /// Where a number on the way to an answer is outside 128 bits.
    Wide(WidePoint),
}

// The valuation of a point, references and flags.
fn valuation(point: Point, settings: Settings) -> Valuation
    ensures { result ≡ valuation_of point settings.refs settings.flags }
{
    Valuation {
        q: point.q,
        nums: point.values,
        refs: settings.refs,
        flags: settings.flags,
    }
}

// The answer by the numbers among the first assumptions, whose references and flags hold by some settings.
fn prove_numbers(
    alloc: Global,
    c: &Condition,
    facts: &[Literal],
    settings: Settings,
) -> Result<Proof, OutOfMemory>
    requires sorted { IsSorted c.now }
    requires forms { AreFormsWithin c.now }
    requires first { facts.now ≡ first_assumptions c.now }
    requires facts { All (IsFactOf c.now) facts.now }
    requires settings { DoHold facts.now settings }
    ensures proof { IfOk result (IsProofOf c.now) }
    ensures narrow { IsNarrow c.now → IfOk result IsDecided }
{
    let plan = plan_of(alloc, c)?;
    match decide(alloc, c, &plan, facts)? {
        Decided::Refuted(d) => Ok(Proof::Proved(d)),
        Decided::Fits(point) => {
            fitting_points_are_counterexamples();
            Ok(Proof::Fails(valuation(point, settings)))
        }
        Decided::Wide(point) => Ok(Proof::Wide(point)),
    }
}

// The answer by the first assumptions, whose rows are within 128 bits.
fn prove_facts(alloc: Global, c: &Condition, facts: &[Literal]) -> Result<Proof, OutOfMemory>
    requires sorted { IsSorted c.now }
    requires forms { AreFormsWithin c.now }
    requires first { facts.now ≡ first_assumptions c.now }
    requires facts { All (IsFactOf c.now) facts.now }
    ensures proof { IfOk result (IsProofOf c.now) }
    ensures narrow { IsNarrow c.now → IfOk result IsDecided }
{
    match settle(alloc, facts)? {
        Settled::Refuted(d) => Ok(Proof::Proved(d)),
        Settled::By(settings) => prove_numbers(alloc, c, facts, settings),
    }
}

// The answer that the literal in a place has a form or a row that is too wide.
fn wide_at(place: usize, c: &Condition) -> Result<Proof, OutOfMemory>
    requires { IsWideForm c.now place }
    ensures { IfOk result (IsProofOf c.now) }
{
    match u32::try_from(place) {
        Ok(number) => Ok(Proof::Wide(wide_form(number))),
        Err(_) => Err(OutOfMemory),
    }
}

// The answer by the first assumptions, where all terms' forms are within 128 bits.
fn prove_first(alloc: Global, c: &Condition, facts: &[Literal]) -> Result<Proof, OutOfMemory>
    requires sorted { IsSorted c.now }
    requires forms { AreFormsWithin c.now }
    requires first { facts.now ≡ first_assumptions c.now }
    ensures proof { IfOk result (IsProofOf c.now) }
    ensures narrow { IsNarrow c.now → IfOk result IsDecided }
{
    match wide_fact(alloc, facts)? {
        Some(place) => wide_at(place, c),
        None => prove_facts(alloc, c, facts),
    }
}

// The answer where all terms' forms are within 128 bits.
fn prove_within(alloc: Global, c: &Condition) -> Result<Proof, OutOfMemory>
    requires sorted { IsSorted c.now }
    requires forms { AreFormsWithin c.now }
    ensures proof { IfOk result (IsProofOf c.now) }
    ensures narrow { IsNarrow c.now → IfOk result IsDecided }
{
    let facts = assumptions_of(alloc, c)?;
    prove_first(alloc, c, facts.as_slice())
}

// The answer, as it is said of derivations, valuations and wide points.
fn answer(alloc: Global, c: &Condition) -> Result<Proof, OutOfMemory>
    requires sorted { IsSorted c.now }
    ensures proof { IfOk result (IsProofOf c.now) }
    ensures narrow { IsNarrow c.now → IfOk result IsDecided }
{
    match wide_literal(alloc, c)? {
        Some(number) => Ok(Proof::Wide(wide_form(number))),
        None => prove_within(alloc, c),
    }
}

/// A derivation of a condition, a valuation that fits it and makes its hypotheses true and its goal false, or where a
/// number is outside 128 bits. A condition with few symbols and small numbers is always decided.
pub fn prove(alloc: Global, c: &Condition) -> Result<Proof, OutOfMemory>
    requires sorted { IsSorted c.now }
    ensures proof { IfOk result (IsProofOf c.now) }
    ensures meaning { IfOk result (IsMeant c.now) }
    ensures narrow { IsNarrow c.now → IfOk result IsDecided }
{
    let proof = answer(alloc, c)?;
    derived_conditions_hold();
    Ok(proof)
}
