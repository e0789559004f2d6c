// The references and flags among assumptions.
ghost use Rattle.std.specs.Prelude.{◌≡◌, All, IfOk};
ghost use Rattle.proof_checker.specs.Conditions.{plain_literal};
ghost use Rattle.cond_facts.specs.Decisions.{DoReferencesHold};
ghost use Rattle.cond_prover.specs.Settled.{AreSettled};

use cond_facts::{Flags, References, flags_of, refute_references};
use proof_checker::Derivation;
use py_base::OutOfMemory;
use sqlite_items::Items;
use std::alloc::Global;
use terms::Literal;

/// Numbers of references, and what flags are.
#[derive(Debug, Drop)]
pub(crate) struct Settings {
    pub refs: Items<(u32, u32)>,
    pub flags: Items<(u32, bool)>,
}

/// What comes of the references and flags among assumptions.
#[derive(Debug, Drop)]
pub(crate) enum Settled {
    /// Why they can't hold together.
    Refuted(Derivation),
    /// By what they hold.
    By(Settings),
}

// What comes of the flags, and of the references by the numbers at which they hold.
fn settle_flags(
    alloc: Global,
    facts: &[Literal],
    refs: Items<(u32, u32)>,
) -> Result<Settled, OutOfMemory>
    requires { DoReferencesHold facts.now refs }
    ensures { IfOk result (AreSettled facts.now) }
{
    match flags_of(alloc, facts)? {
        Flags::Refuted(d) => Ok(Settled::Refuted(d)),
        Flags::Values(flags) => Ok(Settled::By(Settings { refs, flags })),
    }
}

/// Derives that what assumptions say of references and flags can't hold, or gives numbers of the references
/// and values of the flags by which it does. None stands in the facts as the reference 0.
pub(crate) fn settle(alloc: Global, facts: &[Literal]) -> Result<Settled, OutOfMemory>
    requires { All (λ l. plain_literal l ≡ l) facts.now }
    ensures { IfOk result (AreSettled facts.now) }
{
    match refute_references(alloc, facts)? {
        References::Refuted(d) => Ok(Settled::Refuted(d)),
        References::Values(refs) => settle_flags(alloc, facts, refs),
    }
}
