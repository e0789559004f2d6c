//! The typing rules that look at forms and not at the types of expressions: types and annotations, targets,
//! ways to a method's end, names of exceptions, jumps, heads of functions, statements, `super`, decorators,
//! and locals that aren't assigned.
#![tactic(auto)]

mod body;
mod building;
mod head;
mod jump;
mod mark;
mod over;
mod super_use;
mod target;

pub use building::form_faults;
