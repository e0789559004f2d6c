//! Places, texts, permission units and fault kinds: the plain data that every other crate names.
#![tactic(auto)]

mod kind;
mod memory;
mod place;
mod text;
mod units;

pub use kind::Kind;
pub use memory::OutOfMemory;
pub use place::{Place, Span};
pub use text::Text;
pub use units::Units;
