//! Small texts, defined line by line: the project's first definition of the language. What it says of
//! a text, the tokens and the grammar say too.
#![tactic(auto)]

mod laws;

pub use laws::a_small_text_spells_the_same_module;
