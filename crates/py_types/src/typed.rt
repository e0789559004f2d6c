// What types say of a tree.
use py_base::Place;
use sqlite_items::Items;
use type_names::{Local, TypeAt};

/// The types of a tree: those of its expressions by their places in the order of the text, and the locals of its methods, in the
/// order of the methods.
#[derive(Debug, Drop)]
pub struct Typed {
    pub types: Items<TypeAt>,
    pub locals: Items<Items<Local>>,
}

/// Why a tree isn't typed.
#[derive(Clone, Copy, Debug, PartialEq, Eq)]
pub enum TypeFault {
    /// The typing rule of this number fails there, and not only because a `bool` stands where an `int` is wanted.
    Mistyped(Place, u8),
    /// A `bool` stands where an `int` is wanted, at that value.
    BoolAsInt(Place),
    /// Some way through the text reaches the read with no assignment.
    Unassigned(Place),
    /// There was no memory.
    OutOfMemory,
}
