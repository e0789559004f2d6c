// Why tokens are refused.
use py_base::Place;

/// Why a list of tokens has no tree within the limits.
#[derive(Clone, Copy, Debug, PartialEq, Eq)]
pub enum ParseFault {
    /// No module goes on with the token here.
    Syntax(Place),
    /// The token here is nested deeper than 100.
    TooDeep(Place),
    /// A logical line has more than 2,000 tokens.
    LineTooLong,
    /// The module has more than 20,000 statements.
    TooManyStatements,
    /// The module has more than 1,000 functions.
    TooManyMethods,
    /// There was no memory.
    OutOfMemory,
}
