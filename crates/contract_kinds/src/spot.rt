// Where an expression stands.

/// The texts of contracts.
#[derive(Clone, Copy, Debug, PartialEq, Eq)]
pub enum Clause {
    /// A `Requires`.
    Precondition,
    /// An `Ensures`, and whether its method gives a value.
    Postcondition(bool),
    /// An `Exsures`.
    ExceptionalPostcondition,
    /// An `Invariant` of a loop.
    Invariant,
    /// An `Assert`.
    Assertion,
    /// The body of a predicate, or of the invariant of a lock.
    Predicate,
    /// The body of a pure function.
    Pure,
    /// The instance of a `Fold` or `Unfold`.
    Instance,
}

/// How deep within such a text.
#[derive(Clone, Copy, Debug, PartialEq, Eq)]
pub enum Level {
    /// A conjunct of the whole, and whether a `MustTerminate` stands before it.
    Top(bool),
    /// The second part of an `Implies` that is such a conjunct, or a conjunct of it.
    Guarded,
    /// The left side of a single `<` that is a conjunct of the whole.
    Bound,
    /// Within anything else.
    Term,
}

/// Where an expression stands.
#[derive(Clone, Copy, Debug, PartialEq, Eq)]
pub enum Spot {
    /// A statement at the head of a method, and whether a `Requires` before it has a `MustTerminate`.
    MethodHead(bool),
    /// A statement at the head of a loop, and whether an `Invariant` before it has a `MustTerminate`.
    LoopHead(bool),
    /// Another statement.
    Alone,
    /// In code, where its value is used.
    Value,
    /// In a text of a contract.
    Inside(Clause, Level),
}
