//! The grammar: which tokens spell a tree, with its laws. A machine that takes one token
//! a step stands beside it as a device of the proofs.
#![tactic(auto)]

mod examples;
mod laws;

pub use examples::{a_comma_alone_is_refused, is_not_is_one_operator, operators_group_to_the_left};
pub use laws::{one_tree, the_machine_reads_the_grammar};
