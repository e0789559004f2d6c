// Why an item isn't done.
use py_base::{Kind, Place};

/// Why an item isn't done.
#[derive(Clone, Copy, Debug, PartialEq, Eq)]
pub enum Halt {
    /// A test fails.
    Failed(Kind, Place),
    /// The expression there has a number that is too large.
    Wide(Place),
    /// The thread waits, has ended or isn't there.
    Waits,
    /// A value is missing or of a wrong kind, which no well-formed module comes to.
    NoOperand,
}
