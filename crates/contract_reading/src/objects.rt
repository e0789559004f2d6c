// What is read of objects.
ghost use Rattle.std.specs.Prelude.{◌≡◌};
ghost use Rattle.machine_model.specs.Heap.{field_of, locked_of, lock_of, number_in};
ghost use Rattle.contract_reading.specs.Scenes.{level_named};

use machine_model::{LockState, Object};
use py_syntax::Value;

/// The value of a field of an object, if the object has it.
pub fn field_of(heap: &[Object], r: u32, field: u32) -> Option<Value>
    ensures { result ≡ field_of heap.now r field }
{
    match heap.get(r as usize) {
        Some(object) => object.fields.get(field),
        None => None,
    }
}

/// A lock, where the reference is one.
pub fn lock_of(heap: &[Object], r: u32) -> Option<LockState>
    ensures { result ≡ lock_of heap.now r }
{
    match heap.get(r as usize) {
        Some(object) => object.lock,
        None => None,
    }
}

/// The object that a lock locks.
pub fn locked_of(heap: &[Object], r: u32) -> Option<Value>
    ensures { result ≡ locked_of heap.now r }
{
    match lock_of(heap, r) {
        Some(lock) => Some(Value::Ref(lock.locked)),
        None => None,
    }
}

fn number_in(value: Option<Value>) -> Option<i128>
    ensures { result ≡ number_in value }
{
    match value {
        Some(Value::Num(z)) => Some(z),
        _ => None,
    }
}

/// The level of a lock or of a thread, where the fields of threads have this name for it.
pub fn level_named(name: u32, heap: &[Object], r: u32) -> Option<i128>
    ensures { result ≡ level_named name heap.now r }
{
    match lock_of(heap, r) {
        Some(lock) => Some(lock.level),
        None => number_in(field_of(heap, r, name)),
    }
}
