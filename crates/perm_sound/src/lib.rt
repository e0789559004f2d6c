//! From the rules by which each method is checked by itself to the runs of a module: where nothing is
//! found, every run is safe.
#![tactic(auto)]

mod laws;

pub use laws::no_local_fault_is_safe;
