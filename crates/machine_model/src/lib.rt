//! The states of a run of a module: a heap and threads, and what a step shows of itself.
#![tactic(auto)]

mod control;
mod entry;
mod event;
mod fields;
mod halt;
mod laws;
mod moved;
mod slots;
mod stack;
mod state;

pub use control::{method_control, push_block, push_expr, push_stmt};
pub use entry::start;
pub use event::{Event, EventForm, Trace};
pub use fields::Fields;
pub use halt::Halt;
pub use laws::{
    an_exception_in_finally_replaces_the_pending_one, the_smallest_module_takes_eleven_steps,
};
pub use moved::Moved;
pub use slots::Slots;
pub use stack::Stack;
pub use state::{Frame, LockState, Object, State, ThreadState};
