//! Laws about the definition of a run.
#![tactic(auto)]

mod examples;
mod laws;

pub use examples::{a_chain_is_as_deep_as_it_is_long, a_chain_is_read, a_sum_computes_its_value};
pub use laws::{
    a_scene_over_objects_stays_among_them, a_width_changes_nothing_else,
    more_depth_keeps_what_holds, reading_finds_what_holds, readings_have_answers, runs_only_grow,
};
