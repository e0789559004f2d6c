//! The commands of the program, over files and an output that are handed in.
#![tactic(auto)]

mod check;
mod command;
mod laws;
mod prepare;
mod reply;
mod run;
mod small_run;
mod status;
mod texts;
mod words;

pub use command::nagini;
pub use laws::{a_file_has_one_answer, a_run_has_one_answer};
