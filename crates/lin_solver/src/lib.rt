//! Elimination over rows: sums of rows that show that they aren't met together, or a point that meets
//! them all.
#![tactic(auto)]

mod extension;
mod fractions;
mod given;
mod laws;
mod levels;
mod numbers;
mod parts;
mod room;
mod solving;
mod stop;
mod strongest;
mod sums;
mod variables;
mod way_back;
mod worst;

pub use laws::combinations_exclude_points;
pub use solving::{Solved, solve};
