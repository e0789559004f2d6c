// What a step shows of itself.
use py_base::Text;

/// What a thread did to what others can see. Objects, locks and threads' objects are numbers into the
/// heap, fields are names, and threads go by their numbers.
#[derive(Clone, Copy, Debug, PartialEq, Eq)]
pub enum EventForm {
    /// A field of an object was read.
    Read(u32, u32),
    /// A field of an object was written.
    Wrote(u32, u32),
    /// A lock was acquired.
    Acquired(u32),
    /// A lock was released.
    Released(u32),
    /// The thread of this number was started.
    Started(u32),
    /// The thread ended.
    Ended,
    /// The thread of this number, which had ended, was joined.
    Joined(u32),
}

/// An event of a thread.
#[derive(Clone, Copy, Debug, PartialEq, Eq)]
pub struct Event {
    pub thread: u32,
    pub form: EventForm,
}

/// What is seen of a step: at most one event, and at most one printed line without its end.
#[derive(Debug, Drop)]
pub struct Trace {
    pub event: Option<Event>,
    pub line: Option<Text>,
}
