//! The lexer: the tokens of a text, or its first fault.
#![tactic(auto)]

mod comments;
mod cut;
mod faults;
mod laws;
mod layout;
mod marks;
mod numbers;
mod pieces;
mod places;
mod string_pieces;
mod strings;
mod tokens;
mod widths;
mod words;

pub use cut::{CutText, text_pieces};
pub use laws::each_text_has_tokens_or_a_fault;
pub use places::{TextSpots, characters};
pub use tokens::lex;
