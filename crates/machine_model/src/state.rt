// States of a run.
use crate::fields::Fields;
use crate::slots::Slots;
use crate::stack::Stack;
use py_syntax::{Item, Value};
use sqlite_items::Items;

/// A lock: the thread that holds it, the object that it locks, and its level.
#[derive(Clone, Copy, Debug, PartialEq, Eq)]
pub struct LockState {
    pub owner: Option<u32>,
    pub locked: u32,
    pub level: i128,
}

/// An object, a lock or a thread's object. The object of a thread has the number of classes as its
/// class; with n names in the module its field n is the number of its target, field n + 1 its level,
/// and the fields from n + 2 on are its arguments.
#[derive(Debug, Drop)]
pub struct Object {
    pub class: u32,
    pub fields: Fields,
    pub lock: Option<LockState>,
}

/// A call that hasn't ended: what is still to be done, the values that wait for an operator, the
/// locals, the heap at the entry, the measure that binds the method, the caps of locks, and the
/// measures at the last heads of the open loops that have one, the innermost on top.
#[derive(Debug, Drop)]
pub struct Frame {
    pub method: u32,
    pub control: Stack<Item<Value>>,
    pub stack: Stack<Value>,
    pub store: Items<Option<Value>>,
    pub before: Items<Object>,
    pub measure: Option<i128>,
    pub caps: Items<(u32, i128)>,
    pub turns: Stack<i128>,
}

/// A thread: its frames, the running one on top, its own object unless it is `main`'s, and whether it
/// has ended.
#[derive(Debug, Drop)]
pub struct ThreadState {
    pub frames: Stack<Frame>,
    pub own: Option<u32>,
    pub ended: bool,
}

/// The heap and the threads.
#[derive(Debug, Drop)]
pub struct State {
    pub heap: Items<Object>,
    pub threads: Slots<ThreadState>,
}
