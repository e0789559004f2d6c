//! The parser of statements and modules: each function does what the machine of the grammar does at its
//! symbols.
#![tactic(auto)]

pub mod block;
pub mod class;
pub mod count;
pub mod deep;
pub mod fault;
pub mod front;
pub mod function;
pub mod key;
pub mod laws;
pub mod lead;
pub mod long;
pub mod make;
pub mod module;
pub mod nodes;
pub mod opening;
pub mod parse;
pub mod simple;
pub mod skipped;
