// How a run ends, and why it is cut short.
use py_base::{Kind, OutOfMemory, Place};
use sqlite_items::Items;
use std::alloc::{AllocError, AllocFailed};

/// How a run ends.
#[derive(Debug, Drop)]
pub enum RunEnd {
    /// All threads have ended.
    Finished,
    /// A test of this kind failed at this place, in a step of this thread.
    Stopped(Kind, Place, u32),
    /// Each of these threads waits for a lock or for another thread, and all others have ended.
    Stuck(Items<u32>),
    /// The schedule is at its end, and these threads have not ended.
    Spent(Items<u32>),
    /// The next step computes a number that is too large, in the expression at this place.
    TooLarge(Place),
}

/// Why a run is cut short.
#[derive(Clone, Copy, Debug, PartialEq, Eq)]
pub enum RunFault {
    /// A write failed.
    Write,
    /// There was no memory.
    OutOfMemory,
}

impl From<OutOfMemory> for RunFault {
    ghost use Rattle.std.specs.Prelude.{◌≡◌};
    ghost use Rattle.schedule_runner.specs.declared.ending.RunFault.TheVariants as faults;

    ghost from_gives = { λ _ e. e ≡ faults.OutOfMemory };

    fn from(_: OutOfMemory) -> Self {
        RunFault::OutOfMemory
    }
}

impl From<AllocError> for RunFault {
    ghost use Rattle.std.specs.Prelude.{◌≡◌};
    ghost use Rattle.schedule_runner.specs.declared.ending.RunFault.TheVariants as faults;

    ghost from_gives = { λ _ e. e ≡ faults.OutOfMemory };

    fn from(_: AllocError) -> Self {
        RunFault::OutOfMemory
    }
}

impl<T: Drop> From<AllocFailed<T>> for RunFault {
    ghost use Rattle.std.specs.Prelude.{◌≡◌};
    ghost use Rattle.schedule_runner.specs.declared.ending.RunFault.TheVariants as faults;

    ghost from_gives = { λ _ e. e ≡ faults.OutOfMemory };

    fn from(_: AllocFailed<T>) -> Self {
        RunFault::OutOfMemory
    }
}
