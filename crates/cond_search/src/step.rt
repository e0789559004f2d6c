// Steps of the search.
ghost use Rattle.std.specs.Prelude.{◌≡◌};
ghost use Rattle.lin_rows.specs.declared.WidePoint.TheVariants.{Form};

use crate::decided::Decided;
use lin_rows::WidePoint;
use py_base::Place;
use terms::Literal;

/// Two literals, one of which holds where the assumptions do.
#[derive(Debug, Drop)]
pub(crate) struct Split {
    pub first: Literal,
    pub second: Literal,
}

/// The equality of the results of two applications, given by their numbers.
#[derive(Debug, Drop)]
pub(crate) struct Congruence {
    pub left: u32,
    pub right: u32,
    pub results: Literal,
}

/// What comes next.
#[derive(Debug, Drop)]
pub(crate) enum Step {
    Done(Decided),
    Split(Split),
    Congruence(Congruence),
}

/// The wide point of a row that the literal of a number gives rise to.
pub(crate) fn wide_row(place: u32) -> WidePoint
    ensures { result ≡ Form (record { line = 0; col = place }) }
{
    WidePoint::Form(Place {
        line: 0,
        col: place,
    })
}
