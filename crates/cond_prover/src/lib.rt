//! The prover of conditions: of each a derivation, a counterexample or a wide point.
#![tactic(auto)]

mod laws;
mod prover;
mod settled;
mod wide_facts;

pub use laws::derived_conditions_have_no_counterexample;
pub use prover::{Proof, prove};
