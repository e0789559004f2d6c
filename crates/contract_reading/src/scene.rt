// What contracts are read in.
ghost use Rattle.std.specs.Prelude.{◌≡◌, ◌<◌, ◌-◌, ◌^◌, None, length};
ghost use Rattle.machine_model.specs.Moments.{scene_of};
ghost use Rattle.contract_reading.specs.Scenes.{scene_in};

use machine_model::Object;
use py_syntax::{Module, Value};

/// What an expression of a contract is read in: the objects as they are, those at the method's entry, the objects whose
/// locks and threads are meant, the locals, and the result, where there is one.
#[derive(Clone, Copy)]
pub struct View<'a> {
    /// The objects whose fields are read: under `Old` those at the entry.
    pub now: &'a [Object],
    pub before: &'a [Object],
    /// The levels of locks and threads, and what locks lock, never change: they are read here under `Old` too.
    pub heap: &'a [Object],
    pub store: &'a [Option<Value>],
    pub answer: Option<Value>,
    /// The name of the field of a thread's object that has its level.
    pub level_name: u32,
}

impl<'a> View<'a> {
    /// What a contract of a module is read in.
    pub fn of(
        m: &Module,
        heap: &'a [Object],
        before: &'a [Object],
        store: &'a [Option<Value>],
        answer: Option<Value>,
    ) -> View<'a>
        requires few { length m.now.names < 2 ^ 32 - 1 }
        ensures scene { scene_in result ≡ scene_of m.now heap.entry.now before.entry.now store.entry.now answer }
        ensures heap { result.heap.now ≡ heap.entry.now }
    {
        View {
            now: heap,
            before,
            heap,
            store,
            answer,
            level_name: m.names.len() as u32 + 1,
        }
    }

    /// The same at the method's entry.
    pub fn at_entry(self) -> View<'a>
        ensures { scene_in result ≡ record (scene_in self.entry) { now = (scene_in self.entry).before } }
    {
        View {
            now: self.before,
            ..self
        }
    }

    /// The same for the body of a predicate, which has these locals and no result.
    pub fn within(self, store: &'a [Option<Value>]) -> View<'a>
        ensures scene { scene_in result ≡ record (scene_in self.entry) { store = store.entry.now; answer = None } }
        ensures heap { result.heap.now ≡ self.entry.heap.now }
    {
        View {
            store,
            answer: None,
            ..self
        }
    }
}
