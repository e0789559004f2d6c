//! Rows of linear inequalities over whole numbers, their sums, and what is said of them: when a row
//! is met, which rows elimination derives, what a combination is, and when numbers are too wide.
#![tactic(auto)]

mod combination;
mod elimination;
mod fault;
mod laws;
mod point;
mod row;
mod step;
mod terms;
mod wide;

pub use combination::combine;
pub use elimination::{eliminate, gcd, lowest_multipliers};
pub use fault::RowFault;
pub use laws::{
    combinations_refute, derived_rows_are_met, eliminations_cancel, reduced_units_are_least,
    sums_are_met, sums_are_unique,
};
pub use point::Point;
pub use row::Row;
pub use step::ComboStep;
pub use terms::Terms;
pub use wide::WidePoint;
