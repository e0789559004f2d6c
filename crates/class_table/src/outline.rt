// What is noted of the classes of a text, by their numbers.
use name_table::Names;
use py_base::{Place, Text};
use py_syntax::Ty;
use sqlite_items::Items;

/// What a class has from above: its base, whether it is a class of exceptions, and whether it or a class
/// above it has an `__init__`.
#[derive(Clone, Copy, Debug, PartialEq, Eq)]
pub struct Heritage {
    pub base: Option<u32>,
    pub is_exception: bool,
    pub has_init: bool,
}

/// A name that a class declares. A field has a type, and a method has none.
#[derive(Debug, Drop)]
pub struct Declared {
    pub place: Place,
    pub name: Text,
    pub field: Option<Ty>,
}

/// The classes of a text: their names, what they have from above, the classes that lock classes lock, and
/// what each class declares.
#[derive(Debug, Drop)]
pub struct Table {
    pub names: Names,
    pub rows: Items<Heritage>,
    pub locks: Items<Option<u32>>,
    pub declared: Items<Items<Declared>>,
}
