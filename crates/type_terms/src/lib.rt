//! The typing rules on expressions: their faults and types, by their forms and where they stand.
#![tactic(auto)]

mod arguments;
mod calls;
mod expressions;
mod reading;
mod steps;
mod telling;
mod threads;
mod wants;

pub use arguments::{argument_position, note_arguments, note_function, note_functions};
pub use calls::{call_meaning, is_thread, meaning_type, note_meaning_of};
pub use expressions::type_expr;
pub use reading::{read_member, read_name, read_string, read_tuple};
pub use steps::{both, call, compare, compute, either, invert, negate, settle};
pub use telling::{type_call, type_constant, type_member, type_name};
pub use threads::{note_call, worths_of};
pub use wants::{contract_type, is_lock, note_contract, note_lock, parameters_at, value_type};
