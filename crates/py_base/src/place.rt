// Places in a text.

/// A line and a column, both counted from 1. A column counts characters. Places are ordered by
/// line and then by column.
#[derive(Clone, Copy, Debug, PartialEq, Eq, PartialOrd, Ord, Hash)]
pub struct Place {
    pub line: u32,
    pub col: u32,
}

/// From one place up to another.
#[derive(Clone, Copy, Debug, PartialEq, Eq, Hash)]
pub struct Span {
    pub from: Place,
    pub to: Place,
}
