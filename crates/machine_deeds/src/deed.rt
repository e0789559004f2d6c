// What an item does, read off the state without a change of it.
use machine_model::{EventForm, Frame, Object, Stack, ThreadState};
use py_base::Text;
use py_syntax::{Item, Value};
use sqlite_items::Items;

/// What becomes of a control: so many items are dropped from the top, and then these stand on top.
#[derive(Debug, Drop)]
pub struct ControlDeed {
    pub dropped: usize,
    pub items: Stack<Item<Value>>,
}

/// What is put on a stack of a frame.
#[derive(Clone, Copy, Debug, PartialEq, Eq)]
pub enum Gain {
    Nothing,
    /// A value that waits for an operator.
    OnStack(Value),
    /// The measure of an open loop.
    OnTurns(i128),
}

/// What becomes of a frame: so many values and measures of loops are dropped from the top, a local gets
/// a value, and these are the caps from now on.
#[derive(Debug, Drop)]
pub struct FrameDeed {
    pub control: ControlDeed,
    pub values_dropped: usize,
    pub turns_dropped: usize,
    pub gain: Gain,
    pub stored: Option<(u32, Value)>,
    pub caps: Option<Items<(u32, i128)>>,
}

/// What becomes of the heap.
#[derive(Debug, Drop)]
pub enum HeapDeed {
    Same,
    /// The object of this number becomes another one.
    Changes(u32, Object),
    /// An object is made.
    Makes(Object),
}

/// How a call ends.
#[derive(Clone, Copy, Debug, PartialEq, Eq)]
pub enum Ended {
    /// With a value, which is None in a method without a result.
    Normally(Value),
    /// By an exception of a class.
    By(u32),
}

/// What becomes of the frames of the thread.
#[derive(Debug, Drop)]
pub enum FramesDeed {
    /// The running frame goes on.
    Goes(FrameDeed),
    /// The running frame calls, and this frame runs.
    Enters(FrameDeed, Frame),
    /// The running frame ends, and its caller goes on.
    Leaves(FrameDeed, Ended),
    /// The thread ends with its last frame.
    Ends(Ended),
}

/// What an item does, and what is seen of it.
#[derive(Debug, Drop)]
pub struct Deed {
    pub heap: HeapDeed,
    pub frames: FramesDeed,
    pub started: Option<ThreadState>,
    pub event: Option<EventForm>,
    pub line: Option<Text>,
}
