//! One step of one thread of a run, as the meaning of a run defines it for numbers of 128 bits.
#![tactic(auto)]

mod change;
mod commit;
mod ending;
mod fault;
mod forms;
mod items;
mod laws;
mod one_step;
mod plan;
mod print;
mod stuck;

pub use fault::StepFault;
pub use forms::is_built;
pub use laws::small_modules_are_built;
pub use one_step::step;
pub use stuck::{all_ended, can_move, is_stuck};
