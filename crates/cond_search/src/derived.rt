// Derivations made of those of branches.
ghost use Rattle.std.specs.Prelude.{◌≡◌, ◌++◌, ◌∷◌, [], IfOk};
ghost use Rattle.proof_checker.specs.Derivations.{DerivesFrom};
ghost use Rattle.cond_search.specs.Verdicts.{IsDecision, IsDecided};
ghost use Rattle.cond_search.specs.Steps.{IsSplit, IsCongruence};

use crate::decided::Decided;
use crate::step::{Congruence, Split};
use proof_checker::{Condition, Derivation};
use py_base::OutOfMemory;
use sqlite_items::Boxed;
use std::alloc::Global;
use terms::Literal;

// The derivation that splits on a literal.
fn split_derivation(
    alloc: Global,
    l: &Literal,
    held: Derivation,
    other: Derivation,
) -> Result<Derivation, OutOfMemory>
    ensures { IfOk result (λ d. d ≡ Derivation.Split l.now held other) }
{
    let l = l.copy(alloc)?;
    let held = Boxed::new(alloc, held)?;
    let other = Boxed::new(alloc, other)?;
    Ok(Derivation::Split(l, held, other))
}

/// What is decided where the first literal of a split is refuted, from what is decided where the second is
/// assumed.
pub(crate) fn with_split(
    alloc: Global,
    c: &Condition,
    facts: &[Literal],
    split: &Split,
    held: Derivation,
    other: Decided,
) -> Result<Decided, OutOfMemory>
    requires split { IsSplit c.now facts.now split.now }
    requires held { DerivesFrom c.now (facts.now ++ split.now.first ∷ []) held }
    requires other { IsDecision c.now (facts.now ++ split.now.second ∷ []) other }
    ensures answer { IfOk result (IsDecision c.now facts.now) }
    ensures narrow { IsDecided other → IfOk result IsDecided }
{
    match other {
        Decided::Refuted(other) => {
            let d = split_derivation(alloc, &split.first, held, other)?;
            Ok(Decided::Refuted(d))
        }
        Decided::Fits(p) => Ok(Decided::Fits(p)),
        Decided::Wide(w) => Ok(Decided::Wide(w)),
    }
}

/// What is decided, from what is decided where the results of two congruent applications are assumed to be
/// equal.
pub(crate) fn with_congruence(
    alloc: Global,
    c: &Condition,
    facts: &[Literal],
    congruence: &Congruence,
    rest: Decided,
) -> Result<Decided, OutOfMemory>
    requires congruence { IsCongruence c.now facts.now congruence.now }
    requires rest { IsDecision c.now (facts.now ++ congruence.now.results ∷ []) rest }
    ensures answer { IfOk result (IsDecision c.now facts.now) }
    ensures narrow { IsDecided rest → IfOk result IsDecided }
{
    match rest {
        Decided::Refuted(d) => {
            let d = Boxed::new(alloc, d)?;
            let d = Derivation::Congruent(congruence.left, congruence.right, d);
            Ok(Decided::Refuted(d))
        }
        Decided::Fits(p) => Ok(Decided::Fits(p)),
        Decided::Wide(w) => Ok(Decided::Wide(w)),
    }
}
