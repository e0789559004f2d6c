// Where an expression stands.

/// Where an expression stands, and so what is asked of it.
#[derive(Clone, Copy, Debug, PartialEq, Eq)]
pub enum Position {
    /// In code, where its value is used.
    Value,
    /// In code, alone.
    Statement,
    /// An argument of `print`.
    Printed,
    /// Within a contract.
    Term,
    /// An assertion of a contract.
    Atom,
    /// What is called in code.
    CalledInCode,
    /// What is called in a contract.
    CalledInContract,
    /// The field of `Acc`.
    Location,
    /// The fraction of `Acc`.
    Amount,
    /// The instance of `Fold`, `Unfold` and `Unfolding`.
    Instance,
    /// The name of a function or of a class of exceptions.
    Reference,
    /// The name of an argument.
    Label,
    /// The arguments of a thread, for the function of this number where it is known.
    Passed(Option<usize>),
}
