//! What each item of a run does, read off the state without a change of it, as a deed that is carried out later.
#![tactic(auto)]

mod bounding;
mod choices;
mod classes;
mod control;
mod entering;
mod fields;
mod going;
mod leaving;
mod lists;
mod locks;
mod moment;
mod printing;
mod returning;
mod straight;
mod ways_out;

pub use choices::{branch, decide, link, turn};
pub use classes::{base_of, is_subclass, lookup};
pub use control::{expr_then, open_below};
pub use entering::{Duties, Entry, copy_heap, enter, entered};
pub use fields::{locked, read_field, receiver_at, write_back, write_under};
pub use going::{changing, dropping, pushing};
pub use leaving::{Outcome, end_finally, end_try, enter_try, go_out, handle, return_value};
pub use lists::{copy_assertions, copy_block};
pub use locks::{acquire, caps_without, owns, release, released, take_with};
pub use moment::Moment;
pub use printing::{print, top_values};
pub use returning::{awaited, kept_caps, return_to};
pub use straight::{
    apply_binary, apply_unary, check, drop_value, load, pass, push, store, test_not_nil,
};
pub use ways_out::{Landing, way_out};
