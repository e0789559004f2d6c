// Why a tree has no classes.
use py_base::Place;

/// Why a tree has no classes. A place is the first that breaks the rule.
#[derive(Clone, Copy, Debug, PartialEq, Eq)]
pub enum ClassFault {
    /// A name is declared twice in one scope, is built in or reserved, or is a field of a base.
    DuplicateName(Place),
    /// The base is no class that may be a base.
    UnknownBase(Place),
    /// The base is the class itself or stands later.
    BaseCycle(Place),
    /// The form of `__init__`, or of the members of a class of locks or exceptions, is broken.
    BadInit(Place),
    /// There is no function `main` of the right form.
    NoMain(Place),
    /// There was no memory.
    OutOfMemory,
}
