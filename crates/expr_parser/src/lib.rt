//! The parts of a parser: each function does what the machine of the grammar does at its symbols.
#![tactic(auto)]

pub mod expr;
pub mod fault;
pub mod fixed;
pub mod make;
pub mod start;
pub mod types;
