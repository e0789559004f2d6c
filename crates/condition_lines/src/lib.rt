//! Conditions as text: lines of words, from which terms and literals are read.
#![tactic(auto)]

mod lines;
mod literals;
mod term_stack;
mod words;

pub use lines::{Line, read_line};
