//! The modules that are built so far: the function `main` with straight-line statements over whole numbers. From the
//! tree of a text to its module, or to the first form that isn't built.
#![tactic(auto)]

mod body;
mod building;
mod laws;
mod lists;
mod parts;
mod piece;
mod statements;
mod sums;
mod words;

pub use building::module_of;
pub use laws::a_built_module_is_small;
