// Characters with their places.
use py_base::Place;

/// A character of a text and its place.
#[derive(Clone, Copy, Debug, PartialEq, Eq)]
pub struct Spot {
    pub code: char,
    pub place: Place,
}
