// Why tokens are refused while they are read.
use py_base::{OutOfMemory, Place};
use std::alloc::{AllocError, AllocFailed};

/// Why no part of a tree was read.
#[derive(Clone, Copy, Debug, PartialEq, Eq)]
pub enum Refused {
    /// The token here goes on with no module.
    Syntax(Place),
    /// There are too few tokens.
    Unfinished,
    /// There was no memory.
    OutOfMemory,
}

impl From<AllocError> for Refused {
    ghost use Rattle.std.specs.Prelude.{◌≡◌};
    ghost use Rattle.expr_parser.specs.declared.fault.Refused.TheVariants as refusals;

    ghost from_gives = { λ _ e. e ≡ refusals.OutOfMemory };

    fn from(_: AllocError) -> Self {
        Refused::OutOfMemory
    }
}

impl<T: Drop> From<AllocFailed<T>> for Refused {
    ghost use Rattle.std.specs.Prelude.{◌≡◌};
    ghost use Rattle.expr_parser.specs.declared.fault.Refused.TheVariants as refusals;

    ghost from_gives = { λ _ e. e ≡ refusals.OutOfMemory };

    fn from(_: AllocFailed<T>) -> Self {
        Refused::OutOfMemory
    }
}

impl From<OutOfMemory> for Refused {
    ghost use Rattle.std.specs.Prelude.{◌≡◌};
    ghost use Rattle.expr_parser.specs.declared.fault.Refused.TheVariants as refusals;

    ghost from_gives = { λ _ e. e ≡ refusals.OutOfMemory };

    fn from(_: OutOfMemory) -> Self {
        Refused::OutOfMemory
    }
}
