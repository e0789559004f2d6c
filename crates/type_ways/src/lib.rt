//! Ways through a text: locals that are read where some way assigns them nothing, locals that are set once, and ways to a
//! method's end.
#![tactic(auto)]

mod ending;
mod lists;
mod reading;
mod set_names;
mod setting;
mod sight;
mod way;
mod way_on;

pub use ending::{is_alone, note_end};
pub use lists::split;
pub use reading::{note_assigned, note_augmented, note_reads, note_returned, note_unsettled};
pub use set_names::note_settings;
pub use setting::Setting;
pub use sight::{
    bare_place, behind_docstring, is_any_call, is_contract_statement, is_exsures, is_name,
    is_some_name,
};
pub use way::{block_settles, is_settled};
pub use way_on::note_unassigned;
