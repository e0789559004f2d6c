//! What the typing rules on expressions speak of: positions, what names mean, the functions of a text and the parameters of
//! a method, which types fit, and the operands of operators.
#![tactic(auto)]

mod asking;
mod contracts;
mod fitting;
mod links;
mod meaning;
mod names;
mod operands;
mod position;
mod scopes;
mod signature;
mod table;

pub use asking::{
    called, conjunct, inner, is_atom, is_in_contract, is_instance, is_statement, is_told,
    note_position, note_type, or_void, plainly, settle_type,
};
pub use contracts::contract_named;
pub use fitting::{
    fits, is_bool, is_int, is_thread_type, is_void, note, note_if, note_known_fit, note_want,
    note_wanted, unless_void,
};
pub use links::Compared;
pub use meaning::{Contract, Given, Label, Meaning, TypeAt, Want, Worth};
pub use names::{
    base_of, is_hidden, label_meaning, method_meaning, method_of, name_meaning, signature_of,
    variable_in,
};
pub use operands::{
    arithmetic_type, comparison_type, note_arithmetic, note_both_bool, note_chain, note_prefix,
};
pub use position::Position;
pub use scopes::{function_sort, parameters_scope, signatures};
pub use signature::{FunctionSort, Local, Scope, Signature, Variable};
pub use table::{class_in, fits_row, left_type, operator_row, out_type, right_type};
