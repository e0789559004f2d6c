// Why a tree isn't typed.
use py_base::Place;

/// Which fault it is.
#[derive(Clone, Copy, Debug, PartialEq, Eq)]
pub enum Rank {
    /// The typing rule of this number fails, and not only because a `bool` stands where an `int` is wanted.
    Mistyped(u8),
    /// A `bool` stands where an `int` is wanted.
    BoolAsInt,
    /// Some way through the text reaches the read of a local with no assignment.
    Unassigned,
}

/// A fault, and the place where it stands.
#[derive(Clone, Copy, Debug, PartialEq, Eq)]
pub struct Fault {
    pub place: Place,
    pub rank: Rank,
}
