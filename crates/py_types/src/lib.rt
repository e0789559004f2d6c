//! The types of a tree, or its first fault by the typing rules.
#![tactic(auto)]

mod first;
mod laws;
mod telling;
mod typed;

pub use laws::faults_have_one_first_fault;
pub use telling::type_module;
pub use typed::{TypeFault, Typed};
