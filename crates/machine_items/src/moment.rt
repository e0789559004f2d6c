// What an item reads.
use machine_model::{Frame, Object, Stack};

/// What an item of a thread reads: the heap, the running frame and the frames of the thread, the running
/// one on top. So many items are done from the control: the item, and where it is the first of `main`
/// the mark in front of it.
#[derive(Clone, Copy)]
pub struct Moment<'a> {
    pub heap: &'a [Object],
    pub frame: &'a Frame,
    pub frames: &'a Stack<Frame>,
    pub taken: usize,
}
