// What small expressions are made of.
use py_base::Place;

/// A part of an expression.
#[derive(Clone, Copy, Debug, PartialEq, Eq)]
pub enum Piece {
    /// A number of at most nine digits.
    Number(Place, u32),
    /// A local that is assigned before, by its number.
    Known(Place, u32),
    /// `+` or `-` between operands, by its key.
    Sign(Place, u16),
    /// Any other form.
    Other(Place),
}
