// Why a text gives no module.
use py_base::{OutOfMemory, Place};
use std::alloc::{AllocError, AllocFailed};

/// Why a text gives no module. A place is the first that breaks the rule.
#[derive(Clone, Copy, Debug, PartialEq, Eq)]
pub enum FrontFault {
    /// A byte belongs to no whole character.
    BadUtf8(Place),
    /// A character begins no token, or stands straight behind a number, or a backslash begins no escape.
    BadCharacter(Place),
    /// A tab stands before the first token of a line.
    TabInIndent(Place),
    /// A shallower line has a width that isn't open.
    BadDedent(Place),
    /// A string has no end.
    OpenString(Place),
    /// A number is above 2^127 - 1.
    LiteralTooLarge(Place),
    /// A name isn't its own normal form.
    NameNotNfkc(Place),
    /// A name has more than 255 bytes.
    NameTooLong(Place),
    /// No module goes on with the token here.
    Syntax(Place),
    /// The token here is nested deeper than 100.
    TooDeep(Place),
    /// A logical line has more than 2,000 tokens.
    LineTooLong,
    /// The module has more than 20,000 statements.
    TooManyStatements,
    /// The module has more than 1,000 functions.
    TooManyMethods,
    /// A name is declared twice in one scope, is built in or reserved, or is a field of a base.
    DuplicateName(Place),
    /// The base is no class that may be a base.
    UnknownBase(Place),
    /// The base is the class itself or stands later.
    BaseCycle(Place),
    /// The form of `__init__`, or of the members of a class of locks or exceptions, is broken.
    BadInit(Place),
    /// The module has no function `main` of the right form.
    NoMain(Place),
    /// The typing rule of this number is broken.
    Mistyped(Place, u8),
    /// A `bool` stands where an `int` is wanted.
    BoolAsInt(Place),
    /// Some way through the text reaches the read of a local with no assignment.
    Unassigned(Place),
    /// A contract stands where it may not.
    ContractPlace(Place),
    /// `Old` stands in a precondition, a predicate or the invariant of a lock.
    OldInPre(Place),
    /// A duty, `MayJoin` or `WaitLevel` stands in a contract where it may not.
    DutyPlace(Place),
    /// The second argument of `Acc` isn't a fraction of two numbers from 1/16 to 1.
    BadFraction(Place),
    /// A pure function reaches itself.
    RecursivePure(Place),
    /// A function is no target of a thread.
    BadTarget(Place),
    /// `Fold`, `Unfold` or `Unfolding` names no predicate.
    UnknownPredicate(Place),
    /// The module has a form that isn't built yet.
    NotBuilt(Place),
    /// There was no memory.
    OutOfMemory,
}

impl From<OutOfMemory> for FrontFault {
    ghost use Rattle.std.specs.Prelude.{◌≡◌};
    ghost use Rattle.py_front.specs.declared.fault.FrontFault.TheVariants as faults;

    ghost from_gives = { λ _ e. e ≡ faults.OutOfMemory };

    fn from(_: OutOfMemory) -> Self {
        FrontFault::OutOfMemory
    }
}

impl From<AllocError> for FrontFault {
    ghost use Rattle.std.specs.Prelude.{◌≡◌};
    ghost use Rattle.py_front.specs.declared.fault.FrontFault.TheVariants as faults;

    ghost from_gives = { λ _ e. e ≡ faults.OutOfMemory };

    fn from(_: AllocError) -> Self {
        FrontFault::OutOfMemory
    }
}

impl<T: Drop> From<AllocFailed<T>> for FrontFault {
    ghost use Rattle.std.specs.Prelude.{◌≡◌};
    ghost use Rattle.py_front.specs.declared.fault.FrontFault.TheVariants as faults;

    ghost from_gives = { λ _ e. e ≡ faults.OutOfMemory };

    fn from(_: AllocFailed<T>) -> Self {
        FrontFault::OutOfMemory
    }
}
