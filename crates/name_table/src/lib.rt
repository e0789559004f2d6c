//! The names of a text with the first place of each, which is looked up by hashing.
#![tactic(auto)]

mod names;

pub use names::Names;
