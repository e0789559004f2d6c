// One row of a table of cases.

/// No operand: what stands left of a prefix operator, and both sides of a mark.
pub const NOTHING: u8 = 0;

/// An int.
pub const INT: u8 = 1;

/// A bool.
pub const BOOL: u8 = 2;

/// A reference to an object, or None.
pub const REFERENCE: u8 = 3;

/// A case: its key, and three small numbers whose meaning is the table's own.
#[derive(Clone, Copy, Debug, PartialEq, Eq)]
pub struct CaseRow {
    /// What the row is found by.
    pub key: u16,
    /// In the table of operators the sort of the left operand.
    pub left: u8,
    /// In the table of operators the sort of the right operand, a prefix operator's only one.
    pub right: u8,
    /// In the table of operators the sort of the result, in that of marks an operator's key.
    pub out: u8,
}
