// Literals that compare two terms.
ghost use Rattle.std.specs.Prelude.{◌≡◌, ◌++◌, ◌∷◌, [], IfOk};
ghost use Rattle.terms.specs.declared.Literal.TheVariants.{AtMost, Same, Apart};
ghost use Rattle.proof_checker.specs.Conditions.{plus_one};
ghost use Rattle.cond_search.specs.Steps.{IsSplitOf, AreBothTold};

use crate::step::Split;
use cond_facts::do_rows_fit;
use cond_plan::Need;
use py_base::OutOfMemory;
use sqlite_items::{Boxed, Items};
use std::alloc::Global;
use terms::{Literal, Term};

pub(crate) fn same(alloc: Global, a: &Term, b: &Term) -> Result<Literal, OutOfMemory>
    ensures { IfOk result (λ l. l ≡ Same a.now b.now) }
{
    let a = a.copy(alloc)?;
    Ok(Literal::Same(a, b.copy(alloc)?))
}

fn apart(alloc: Global, a: &Term, b: &Term) -> Result<Literal, OutOfMemory>
    ensures { IfOk result (λ l. l ≡ Apart a.now b.now) }
{
    let a = a.copy(alloc)?;
    Ok(Literal::Apart(a, b.copy(alloc)?))
}

// A term and one unit.
fn one_more(alloc: Global, t: &Term) -> Result<Term, OutOfMemory>
    ensures { IfOk result (λ sum. sum ≡ plus_one t.now) }
{
    let t = Boxed::new(alloc, t.copy(alloc)?)?;
    let one = Boxed::new(alloc, Term::Lit(1))?;
    Ok(Term::Add(t, one))
}

// That one number is below another.
fn below(alloc: Global, a: &Term, b: &Term) -> Result<Literal, OutOfMemory>
    ensures { IfOk result (λ l. l ≡ AtMost (plus_one a.now) b.now) }
{
    let a = one_more(alloc, a)?;
    Ok(Literal::AtMost(a, b.copy(alloc)?))
}

/// Whether two numbers are equal.
pub(crate) fn equality(alloc: Global, a: &Term, b: &Term) -> Result<Split, OutOfMemory>
    ensures first { IfOk result (λ s. s.first ≡ Same a.now b.now) }
    ensures second { IfOk result (λ s. s.second ≡ Apart a.now b.now) }
{
    let first = same(alloc, a, b)?;
    let second = apart(alloc, a, b)?;
    Ok(Split { first, second })
}

// On which side of one number another lies.
fn sides(alloc: Global, a: &Term, b: &Term) -> Result<Split, OutOfMemory>
    ensures first { IfOk result (λ s. s.first ≡ AtMost (plus_one a.now) b.now) }
    ensures second { IfOk result (λ s. s.second ≡ AtMost (plus_one b.now) a.now) }
{
    let first = below(alloc, a, b)?;
    let second = below(alloc, b, a)?;
    Ok(Split { first, second })
}

/// The split that is needed for two numbers.
pub(crate) fn split_of(alloc: Global, need: Need, a: &Term, b: &Term) -> Result<Split, OutOfMemory>
    ensures { IfOk result (IsSplitOf need a.now b.now) }
{
    match need {
        Need::Equality => equality(alloc, a, b),
        Need::Side => sides(alloc, a, b),
    }
}

/// Whether the rows of both literals are within 128 bits.
pub(crate) fn are_rows_within(alloc: Global, split: &Split) -> Result<bool, OutOfMemory>
    ensures { IfOk result (AreBothTold split.now) }
{
    if do_rows_fit(alloc, &split.first)? {
        do_rows_fit(alloc, &split.second)
    } else {
        Ok(false)
    }
}

/// Assumptions and one more.
pub(crate) fn extended(
    alloc: Global,
    facts: &[Literal],
    l: &Literal,
) -> Result<Items<Literal>, OutOfMemory>
    ensures { IfOk result (λ fs. fs ≡ facts.now ++ l.now ∷ []) }
{
    let mut more = Items::new(alloc);
    for fact in facts {
        more.push(fact.copy(alloc)?)?;
    }
    more.push(l.copy(alloc)?)?;
    Ok(more)
}
