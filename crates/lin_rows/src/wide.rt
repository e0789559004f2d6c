// Where numbers leave 128 bits.
use crate::point::Point;
use crate::row::Row;
use py_base::Place;

/// Where a number leaves 128 bits, so that nothing is decided.
#[derive(Debug, Drop)]
pub enum WidePoint {
    /// Two rows and the variable that their sum is to cancel.
    Pair(Row, Row, u32),
    /// Values of the variables after one, and a row whose bound on that one is to be taken.
    Bound(Point, Row, u32),
    /// The place of an expression or a comparison whose linear form or row is too wide.
    Form(Place),
}
