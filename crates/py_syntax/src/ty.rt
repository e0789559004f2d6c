// Types of values.

/// A type. Classes are numbers into `Module::classes`.
#[derive(Clone, Copy, Debug, PartialEq, Eq)]
pub enum Ty {
    /// `int`
    Int,
    /// `bool`
    Bool,
    /// The result type `None`.
    Void,
    /// An object, a lock or an exception of the class, or of one below it.
    Obj(u32),
    /// `Optional` of the class.
    Opt(u32),
    /// `Thread`
    Thr,
}
