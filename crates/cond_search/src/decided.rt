// What comes of a search.
use lin_rows::{Point, WidePoint};
use proof_checker::Derivation;

/// What comes of a search.
#[derive(Debug, Drop)]
pub enum Decided {
    /// Why the assumptions can't hold together.
    Refuted(Derivation),
    /// Where the numbers among them hold and the condition is fitted.
    Fits(Point),
    /// Where a number is outside 128 bits.
    Wide(WidePoint),
}
