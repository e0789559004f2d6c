//! The search of the prover: it decides the numbers among assumptions by the solver of rows, and splits where a point
//! doesn't fit the condition.
#![tactic(auto)]

mod amiss;
mod decided;
mod derived;
mod literals;
mod members;
mod next;
mod search;
mod step;

pub use decided::Decided;
pub use search::decide;
