// The steps of a combination.
use crate::row::Row;

/// A sum of two rows of lower numbers. In a combination of n rows these are numbered from 0 and the
/// steps from n on.
#[derive(Debug, Drop)]
pub struct ComboStep {
    pub left: u32,
    pub right: u32,
    pub by_left: i128,
    pub by_right: i128,
    /// `by_left` times the row `left` and `by_right` times the row `right`.
    pub row: Row,
}
