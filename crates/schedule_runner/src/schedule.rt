// Schedules.
ghost use Rattle.std.specs.Prelude.{◌≡◌};
ghost use Rattle.schedule_runner.specs.ScheduleText.{count_in};

use sqlite_items::Items;

/// How many steps a schedule may have.
pub const STEP_LIMIT: u64 = 10_000_000;

/// A line of a schedule that gives steps.
#[derive(Clone, Copy, Debug, PartialEq, Eq)]
pub enum ScheduleLine {
    /// A thread, by its number, gets so many steps.
    Give(u64, u64),
    /// So many steps go round, the first to thread 0.
    Fair(u64),
}

/// A schedule: its lines that give steps.
#[derive(Debug, Drop)]
pub struct Schedule {
    pub lines: Items<ScheduleLine>,
}

impl ScheduleLine {
    /// How many steps the line gives.
    pub fn count(self) -> u64
        ensures { result ≡ count_in self }
    {
        match self {
            ScheduleLine::Give(_, count) => count,
            ScheduleLine::Fair(count) => count,
        }
    }
}
