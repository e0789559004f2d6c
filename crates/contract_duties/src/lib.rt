//! The measures and caps that contracts name, and the tests of contracts where calls begin and end.
#![tactic(auto)]

mod caps;
mod duty;
mod entries;
mod exits;
mod owned;
mod walk;

pub use caps::{add_cap, cap_for, caps_of, measure_of};
pub use duty::{Bounds, Duty, is_lower};
pub use entries::{call_tests, entry_duties, is_bounded};
pub use exits::{End, both_exit_tests, exit_for, exit_tests, is_subclass, method_at};
pub use owned::{must_terminate, owns_beside};
pub use walk::duties_of;
