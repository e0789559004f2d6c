//! The rules on where contracts may stand, on fractions, pure functions, targets of threads and instances:
//! from the tree of a text to all breaches of them, and to the first.
#![tactic(auto)]

mod asking;
mod barring;
mod building;
mod expressions;
mod function;
mod heading;
mod laws;
mod lists;
mod pure_calls;
mod reading;
mod recursion;
mod statements;
mod table;
mod target;

pub use building::{contract_faults, first_contract_fault};
pub use laws::rounds_find_what_reaches_itself;
