//! Where contracts may stand: the contracts by their names, the texts of contracts and the spots in them, which
//! contract may stand where, breaches, and the first of some breaches.
#![tactic(auto)]

mod breach;
mod contract;
mod first;
mod laws;
mod naming;
mod noting;
mod placing;
mod spot;

pub use breach::{Breach, Rule};
pub use contract::Contract;
pub use first::first_breach;
pub use laws::breaches_have_one_first_breach;
pub use naming::contract_named;
pub use noting::{note, note_if};
pub use placing::{argument_spot, conjunct, inner, is_statement, lower, refusal, second_conjunct};
pub use spot::{Clause, Level, Spot};
