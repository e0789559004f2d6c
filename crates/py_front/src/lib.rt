//! From the bytes of a text to its module, or to its first fault: of its tokens, its tree, its classes, its types and its
//! contracts, and last the first form that isn't built. The modules that are built so far are the small ones: the function `main` with straight-line
//! statements over whole numbers.
#![tactic(auto)]

mod fault;
mod laws;
mod reader;
mod small_laws;
mod trees;

pub use fault::FrontFault;
pub use laws::{a_text_has_one_answer, each_text_has_an_answer};
pub use reader::front;
pub use small_laws::a_spelled_module_is_small;
