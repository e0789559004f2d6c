// What a step answers.
use crate::event::Trace;
use py_base::{Kind, Place};

/// What a step of a thread came to.
#[derive(Debug, Drop)]
pub enum Moved {
    /// The thread could not move, and the state is as it was.
    Same,
    /// One item was done.
    Went(Trace),
    /// A test failed, and the state is as it was.
    Failed(Kind, Place),
}
