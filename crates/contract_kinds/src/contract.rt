// The names of contracts.

/// The names of contracts.
#[derive(Clone, Copy, Debug, PartialEq, Eq)]
pub enum Contract {
    /// `Requires(A)`
    Requires,
    /// `Ensures(A)`
    Ensures,
    /// `Exsures(E, A)`
    Exsures,
    /// `Invariant(A)`
    Invariant,
    /// `Assert(A)`
    Assert,
    /// `Fold(P(..))`
    Fold,
    /// `Unfold(P(..))`
    Unfold,
    /// `Unfolding(P(..), e)`
    Unfolding,
    /// `Acc(x.f)` and `Acc(x.f, n/d)`
    Acc,
    /// `Implies(e, A)`
    Implies,
    /// `Old(e)`
    Old,
    /// `Result()`
    Result,
    /// `Level(l)`
    Level,
    /// `MustTerminate(e)`
    MustTerminate,
    /// `MustRelease(l)` and `MustRelease(l, e)`
    MustRelease,
    /// `MayJoin(t, f, a, ..)`
    MayJoin,
    /// `WaitLevel()`
    WaitLevel,
}
