//! What steps of a run compute: operators on values within 128 bits, operands on the stack, and how such code agrees with
//! the meaning of a run.
#![tactic(auto)]

mod numbers;
mod operators;
mod stop;
mod values;

pub use numbers::on_numbers;
pub use operators::{binary, test_divisor, unary};
pub use stop::Stop;
pub use values::{local, top_truth, value_at};
