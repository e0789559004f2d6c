// What a chain compares with.
use crate::meaning::Worth;
use py_base::Place;
use raw_syntax::Comparison;

/// An operator of a chain with its place, and what the operand behind it is worth.
#[derive(Clone, Copy, Debug, PartialEq, Eq)]
pub struct Compared {
    pub place: Place,
    pub operator: Comparison,
    pub operand: Worth,
}
