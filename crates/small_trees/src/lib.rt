//! That the small modules, which are built so far, have no fault of classes, none of types and none of contracts.
#![tactic(auto)]

mod laws;

pub use laws::a_small_tree_has_no_fault;
