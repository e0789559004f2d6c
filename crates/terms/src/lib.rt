//! Terms over number symbols and references, literals over them, what they mean at a valuation, and
//! the linear forms of terms.
#![tactic(auto)]

mod copy;
mod laws;
mod linear;
mod literal;
mod normal_form;
mod same;
mod sort;
mod term;

pub use laws::{
    linear_forms_are_unique, linear_forms_have_the_number, terms_of_numbers_are_their_numbers,
};
pub use linear::Linear;
pub use literal::Literal;
pub use normal_form::normal;
pub use term::Term;
