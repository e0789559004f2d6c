// The pieces that a text is cut into.
use crate::token::TokenForm;
use py_base::Place;

/// A piece of a text, from its place up to the place just after its last character.
#[derive(Debug, Drop)]
pub struct Piece {
    pub place: Place,
    pub end: Place,
    pub shape: Shape,
}

/// What a piece is.
#[derive(Debug, Drop)]
pub enum Shape {
    /// A token.
    Whole(TokenForm),
    /// A number of 2^127 or more.
    LargeNumber,
    /// One space.
    Space,
    /// One tab.
    Tab,
    /// A comment.
    Comment,
    /// The end of a line.
    LineEnd,
    /// A string, by the place of its first backslash that begins no escape.
    BadEscape(Place),
    /// A string without its end.
    Unclosed,
    /// A character that begins no token.
    Stray,
}
