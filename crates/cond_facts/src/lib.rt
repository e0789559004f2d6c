//! Parts of the prover of conditions: what refutes the references and the numbers among assumptions, or meets them.
#![tactic(auto)]

mod fact_row;
mod first_facts;
mod flags;
mod forms;
mod laws;
mod reading;
mod reference_changes;
mod reference_facts;
mod reference_pairs;
mod reference_values;
mod renumbering;
mod row_facts;

pub use first_facts::assumptions_of;
pub use flags::{Flags, flags_of};
pub use forms::{do_rows_fit, wide_literal};
pub use laws::{
    fitting_points_are_counterexamples, rows_of_facts_are_the_conditions, settled_points_fit,
};
pub use reference_facts::{References, refute_references};
pub use row_facts::{RowOutcome, solve_rows};
