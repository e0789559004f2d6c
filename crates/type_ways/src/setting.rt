// What an assignment to a name says.
use py_base::{Place, Text};

/// An assignment to a name: the place of the statement, the name, whether it has an annotation, and where its
/// value is `None` without one, the place of that.
#[derive(Debug, Drop)]
pub struct Setting {
    pub place: Place,
    pub name: Text,
    pub annotated: bool,
    pub nil: Option<Place>,
}
