// The values of a run.

/// A value. A reference is a number into the heap.
#[derive(Clone, Copy, Debug, PartialEq, Eq)]
pub enum Value {
    /// A whole number.
    Num(i128),
    /// A truth value.
    Truth(bool),
    /// `None`
    Nil,
    /// An object, a lock or a thread.
    Ref(u32),
}
