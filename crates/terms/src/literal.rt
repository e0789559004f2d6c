// Literals.
use crate::term::Term;

/// A fact of which a condition is made.
#[derive(Debug, Drop)]
pub enum Literal {
    /// The first is at most the second.
    AtMost(Term, Term),
    Same(Term, Term),
    /// Two references differ, or two numbers by at least the unit.
    Apart(Term, Term),
    /// The flag of this number is this.
    Flag(u32, bool),
}
