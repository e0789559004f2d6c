//! Tables of cases that are found by a key, the table of the operators and the table of the marks.
#![tactic(auto)]

mod cases;
mod mark_table;
mod operator_table;
mod row;
mod table;

pub use mark_table::marks;
pub use operator_table::operators;
pub use row::{BOOL, CaseRow, INT, NOTHING, REFERENCE};
pub use table::Table;
