//! The equalities of terms that follow from literals, and where literals clash.
#![tactic(auto)]

mod closure;
mod collect;
mod first;
mod laws;
mod linked;
mod merging;
mod opposed;
mod same;

pub use closure::{Closure, close};
pub use laws::{
    clashes_stay_with_more, equal_terms_mean_the_same, equal_terms_stand, equalities_stay_with_more,
};
pub use merging::equal_classes;
