// Why a text has no tokens.
use py_base::Place;
use std::alloc::{AllocError, AllocFailed};

/// Why a text has no tokens, and where.
#[derive(Clone, Copy, Debug, PartialEq, Eq)]
pub enum LexFault {
    /// A byte belongs to no whole character.
    BadUtf8(Place),
    /// A character begins no token, stands straight after a number, or is a backslash in a string
    /// that begins no escape.
    BadCharacter(Place),
    /// A tab stands before the first token of a line.
    TabInIndent(Place),
    /// A shallower line has a width that isn't open.
    BadDedent(Place),
    /// A string has no end.
    OpenString(Place),
    /// A number is above 2^127 - 1.
    LiteralTooLarge(Place),
    /// A name isn't its own normal form.
    NameNotNfkc(Place),
    /// A name has more than 255 bytes.
    NameTooLong(Place),
    /// There was no memory.
    OutOfMemory,
}

impl From<AllocError> for LexFault {
    ghost use Rattle.std.specs.Prelude.{◌≡◌};
    ghost use Rattle.py_tokens.specs.declared.fault.LexFault.TheVariants as faults;

    ghost from_gives = { λ _ e. e ≡ faults.OutOfMemory };

    fn from(_: AllocError) -> Self {
        LexFault::OutOfMemory
    }
}

impl<T: Drop> From<AllocFailed<T>> for LexFault {
    ghost use Rattle.std.specs.Prelude.{◌≡◌};
    ghost use Rattle.py_tokens.specs.declared.fault.LexFault.TheVariants as faults;

    ghost from_gives = { λ _ e. e ≡ faults.OutOfMemory };

    fn from(_: AllocFailed<T>) -> Self {
        LexFault::OutOfMemory
    }
}
