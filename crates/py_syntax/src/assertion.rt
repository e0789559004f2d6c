// Assertions, which contracts, loop invariants and predicates are made of.
use crate::expr::{Expr, Instance};
use py_base::{Place, Units};
use sqlite_items::{Boxed, Items};

/// An assertion. The place of an atom is its first token.
#[cycle(assertion)]
#[derive(Debug, Drop)]
pub struct Assertion {
    pub place: Place,
    pub form: AtomForm,
}

/// The forms of assertions.
#[cycle(assertion)]
#[derive(Debug, Drop)]
pub enum AtomForm {
    /// All of these, from left to right.
    Both(Items<Assertion>),
    /// The assertion where the expression holds.
    When(Expr, Boxed<Assertion>),
    /// Units of the field of this name.
    AccOf(Expr, u32, Units),
    /// An instance of a predicate.
    Holds(Instance),
    /// `MustTerminate` with its measure.
    Terminates(Expr),
    /// `MustRelease` of a lock, with its measure in a precondition.
    Releases(Expr, Option<Expr>),
    /// `MayJoin` of a thread, with its function and arguments.
    Joins(Expr, u32, Items<Expr>),
    /// The wait level is below this level.
    WaitBelow(Expr),
    /// The expression holds.
    True(Expr),
}
