//! The typing rules that speak of the types of expressions: from the tree of a text and its classes to their faults,
//! the types of expressions and the locals of methods.
#![tactic(auto)]

mod functions;
mod listing;
mod locals;
mod outcome;
mod statements;

pub use functions::findings_of;
pub use locals::scope_of;
pub use outcome::Findings;
pub use statements::note_statement;
