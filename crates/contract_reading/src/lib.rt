//! Contracts as a run reads them: the values of their expressions, and the truth of assertions.
#![tactic(auto)]

mod arguments;
mod assertions;
mod contracts;
mod evaluation;
mod objects;
mod parts;
mod path;
mod room;
mod scene;
mod verdict;

pub use arguments::locals_of;
pub use contracts::{
    Placing, place_of, read_assertion, read_assertions, test_assertion, test_atoms,
    test_lock_invariant,
};
pub use evaluation::evaluate;
pub use scene::View;
pub use verdict::{Holder, Miss, is_true, owns};
