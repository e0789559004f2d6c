// What is known of a function of the module.
use py_base::{Place, Text};

/// What kind of function it is, by its decorators.
#[derive(Clone, Copy, Debug, PartialEq, Eq)]
pub enum Sort {
    /// It is code.
    Code,
    /// It is marked `Predicate`.
    Predicate,
    /// It is marked `Pure`.
    Pure,
}

/// A function of the module: the place of its name, its name and its kind, and whether it may be the target
/// of a thread.
#[derive(Debug, Drop)]
pub struct Function {
    pub place: Place,
    pub name: Text,
    pub sort: Sort,
    pub is_target: bool,
}
