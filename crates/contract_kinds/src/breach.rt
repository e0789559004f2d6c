// Breaches of the rules on contracts.
use py_base::Place;

/// Which rule is broken. At one place they come in this order.
#[derive(Clone, Copy, Debug, PartialEq, Eq)]
pub enum Rule {
    /// A contract stands where it may not.
    ContractPlace,
    /// `Old` stands in a precondition, a predicate or the invariant of a lock.
    OldInPre,
    /// A duty, `MayJoin` or `WaitLevel` stands in a contract where it may not.
    DutyPlace,
    /// The second argument of `Acc` isn't a fraction of two numbers from 1/16 to 1.
    BadFraction,
    /// A pure function reaches itself.
    RecursivePure,
    /// A function is no target of a thread.
    BadTarget,
    /// `Fold`, `Unfold` or `Unfolding` names no predicate.
    UnknownPredicate,
}

/// A breach of a rule, and the place where it stands.
#[derive(Clone, Copy, Debug, PartialEq, Eq)]
pub struct Breach {
    pub place: Place,
    pub rule: Rule,
}
