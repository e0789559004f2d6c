// What names mean, and what expressions are worth.
use py_base::Place;
use py_syntax::Ty;

/// The names of contracts.
#[derive(Clone, Copy, Debug, PartialEq, Eq)]
pub enum Contract {
    /// `Requires(A)`
    Requires,
    /// `Ensures(A)`
    Ensures,
    /// `Exsures(E, A)`
    Exsures,
    /// `Invariant(A)`
    Invariant,
    /// `Assert(A)`
    Assert,
    /// `Fold(P(..))`
    Fold,
    /// `Unfold(P(..))`
    Unfold,
    /// `Unfolding(P(..), e)`
    Unfolding,
    /// `Acc(x.f)` and `Acc(x.f, n/d)`
    Acc,
    /// `Implies(e, A)`
    Implies,
    /// `Old(e)`
    Old,
    /// `Result()`
    Result,
    /// `Level(l)`
    Level,
    /// `MustTerminate(e)`
    MustTerminate,
    /// `MustRelease(l)` and `MustRelease(l, e)`
    MustRelease,
    /// `MayJoin(t, f, a, ..)`
    MayJoin,
    /// `WaitLevel()`
    WaitLevel,
}

/// The names of the arguments of `Thread`.
#[derive(Clone, Copy, Debug, PartialEq, Eq)]
pub enum Label {
    /// `target`
    Target,
    /// `args`
    Arguments,
    /// `level`
    Level,
}

/// What an expression means where it is called or named.
#[derive(Clone, Copy, Debug, PartialEq, Eq)]
pub enum Meaning {
    /// It is no name.
    Plain,
    /// It is a name that means no function, method or class.
    Nothing,
    /// Its receiver has no type, or no such method.
    Unknown,
    /// The function of the module of this number among the signatures.
    Function(usize),
    /// The method of this number among the signatures.
    Method(usize),
    /// The class of this number.
    Class(u32),
    /// A contract.
    Contract(Contract),
    /// `print`
    Print,
    /// `super`, and `super()`
    Super,
    /// `super().__init__`
    SuperInit,
    /// `Thread`
    Thread,
    /// `get_locked` of a lock over the class.
    GetLocked(u32),
    /// `acquire` of a lock.
    Acquire,
    /// `release` of a lock.
    Release,
    /// `start` of a thread.
    Start,
    /// `join` of a thread.
    Join,
    /// The name of an argument of `Thread`.
    Label(Label),
}

/// What an expression is worth: its place, which within brackets is that of what stands there, its type where it has one,
/// and what it means where it is called or named.
#[derive(Clone, Copy, Debug, PartialEq, Eq)]
pub struct Worth {
    pub place: Place,
    pub ty: Option<Ty>,
    pub meaning: Meaning,
}

/// What is wanted of an argument of a contract.
#[derive(Clone, Copy, Debug, PartialEq, Eq)]
pub enum Want {
    /// Nothing.
    Anything,
    /// The type.
    Type(Ty),
    /// A lock.
    Lock,
    /// A lock or a thread.
    LockOrThread,
    /// A function of the module.
    Function,
}

/// An argument: what the name in front of its `=` means, `Plain` where there is none, and what its value is worth.
#[derive(Clone, Copy, Debug, PartialEq, Eq)]
pub struct Given {
    pub label: Meaning,
    pub worth: Worth,
}

/// The type of an expression by its place.
#[derive(Clone, Copy, Debug, PartialEq, Eq)]
pub struct TypeAt {
    pub place: Place,
    pub ty: Ty,
}
