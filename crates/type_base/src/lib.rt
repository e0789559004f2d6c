//! What the typing rules stand on: faults and lists of them, the types that a text writes, the names of a
//! method, and what the names of functions, fields and methods mean.
#![tactic(auto)]

mod fault;
mod meaning;
mod noting;
mod own_names;
mod written;

pub use fault::{Fault, Rank};
pub use meaning::{
    base_of, field_of, function_named, method_above, method_of, own_method, written_class,
};
pub use noting::note_if;
pub use own_names::{is_own_name, is_parameter, locals, parameter_type, type_of_parameter};
pub use written::{
    class_named, exception_class, is_exception, locked_by, object_class, result_of, ty_of,
};
