// What is told of conditions.
ghost use Rattle.std.specs.Prelude.{◌≡◌, true, IfOk, string_bytes};
ghost use Rattle.proof_checker.specs.Conditions.{IsSorted};
ghost use Rattle.cond_prover.specs.Proofs.{IsProofOf};
ghost use Rattle.condition_text.specs.Replies.{IsTold};

use crate::texts::told;
use cond_prover::{Proof, prove};
use proof_checker::{Condition, check_derivation};
use py_base::OutOfMemory;
use std::alloc::Global;

// Whether a derivation is accepted. Another answer needs no check.
fn is_accepted(c: &Condition, p: &Proof) -> bool
    requires sorted { IsSorted c.now }
    requires proof { IsProofOf c.now p.now }
    ensures { result ≡ true }
{
    match p {
        Proof::Proved(d) => check_derivation(c, d),
        Proof::Fails(_) | Proof::Wide(_) => true,
    }
}

fn tell_proof(alloc: Global, short: bool, c: &Condition, p: &Proof) -> Result<String, OutOfMemory>
    requires sorted { IsSorted c.now }
    requires proof { IsProofOf c.now p.now }
    ensures { IfOk result (λ text. IsTold short c.now (string_bytes text)) }
{
    if is_accepted(c, p) {
        told(alloc, short, p)
    } else {
        unreachable!()
    }
}

fn tell_sorted(alloc: Global, short: bool, c: &Condition) -> Result<String, OutOfMemory>
    requires { IsSorted c.now }
    ensures { IfOk result (λ text. IsTold short c.now (string_bytes text)) }
{
    let proof = prove(alloc, c)?;
    let told = tell_proof(alloc, short, c, &proof);
    drop(proof);
    told
}

/// What is told of a condition.
pub fn tell(alloc: Global, short: bool, c: &Condition) -> Result<String, OutOfMemory>
    ensures { IfOk result (λ text. IsTold short c.now (string_bytes text)) }
{
    if c.is_sorted() {
        tell_sorted(alloc, short, c)
    } else {
        Ok(String::from_str(alloc, "unsorted")?)
    }
}
