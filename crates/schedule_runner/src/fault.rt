// Why a text gives no schedule.
use std::alloc::{AllocError, AllocFailed};

/// Why a text gives no schedule.
#[derive(Clone, Copy, Debug, PartialEq, Eq)]
pub enum ScheduleFault {
    /// The line of this number is the first that isn't of the form.
    BadSchedule(u32),
    /// The text is a schedule of too many steps.
    ScheduleTooLong,
    /// There was no memory.
    OutOfMemory,
}

impl From<AllocError> for ScheduleFault {
    ghost use Rattle.std.specs.Prelude.{◌≡◌};
    ghost use Rattle.schedule_runner.specs.declared.fault.ScheduleFault.TheVariants as faults;

    ghost from_gives = { λ _ e. e ≡ faults.OutOfMemory };

    fn from(_: AllocError) -> Self {
        ScheduleFault::OutOfMemory
    }
}

impl<T: Drop> From<AllocFailed<T>> for ScheduleFault {
    ghost use Rattle.std.specs.Prelude.{◌≡◌};
    ghost use Rattle.schedule_runner.specs.declared.fault.ScheduleFault.TheVariants as faults;

    ghost from_gives = { λ _ e. e ≡ faults.OutOfMemory };

    fn from(_: AllocFailed<T>) -> Self {
        ScheduleFault::OutOfMemory
    }
}
