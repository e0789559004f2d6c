//! Schedules: their text, and runs of a module under them.
#![tactic(auto)]

mod cuts;
mod ending;
mod fault;
mod grant;
mod laws;
mod numbers;
mod reader;
mod running;
mod schedule;
mod turn;
mod under_schedule;

pub use ending::{RunEnd, RunFault};
pub use fault::ScheduleFault;
pub use laws::a_text_reads_or_has_a_bad_line;
pub use reader::read_schedule;
pub use running::unfinished;
pub use schedule::{STEP_LIMIT, Schedule, ScheduleLine};
pub use under_schedule::run;
