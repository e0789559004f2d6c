// What a read or a write answers in place of Ok.
ghost use Rattle.std.specs.Prelude.{◌≡◌};
ghost use Rattle.io_edge.specs.declared.answers.FileAnswer.TheVariants as file_answers;
ghost use Rattle.io_edge.specs.declared.answers.SinkAnswer.TheVariants as sink_answers;

use std::alloc::{AllocError, AllocFailed};
use thiserror::Error;

/// Why the bytes of a file were not given.
#[derive(Clone, Copy, Debug, PartialEq, Eq, Error)]
pub enum FileAnswer {
    /// The read failed, and was counted.
    #[error("the file could not be read")]
    Failed,
    /// The file has more bytes than the call allowed.
    #[error("the file is too long")]
    TooLong,
    /// There was no memory for the bytes or the name.
    #[error("out of memory")]
    OutOfMemory,
}

impl From<AllocError> for FileAnswer {
    ghost from_gives = { λ _ e. e ≡ file_answers.OutOfMemory };

    fn from(_: AllocError) -> Self {
        FileAnswer::OutOfMemory
    }
}

impl<T: Drop> From<AllocFailed<T>> for FileAnswer {
    ghost from_gives = { λ _ e. e ≡ file_answers.OutOfMemory };

    fn from(_: AllocFailed<T>) -> Self {
        FileAnswer::OutOfMemory
    }
}

/// Why a piece was not written whole.
#[derive(Clone, Copy, Debug, PartialEq, Eq, Error)]
pub enum SinkAnswer {
    /// The write failed, and was counted.
    #[error("the piece could not be written")]
    Failed,
    /// There was no memory for the piece.
    #[error("out of memory")]
    OutOfMemory,
}

impl From<AllocError> for SinkAnswer {
    ghost from_gives = { λ _ e. e ≡ sink_answers.OutOfMemory };

    fn from(_: AllocError) -> Self {
        SinkAnswer::OutOfMemory
    }
}
