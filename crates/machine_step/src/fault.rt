// Why a step isn't taken.
use py_base::Place;

/// Why a step that could be taken isn't.
#[derive(Clone, Copy, Debug, PartialEq, Eq)]
pub enum StepFault {
    /// A number doesn't fit 128 bits, in the expression at this place.
    IntTooLarge(Place),
    /// There is no memory.
    OutOfMemory,
}
