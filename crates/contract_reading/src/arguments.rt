// The arguments of predicates.
ghost use Rattle.std.specs.Prelude.{◌≡◌, ◌++◌, ◌∷◌, [], map, Some, IfOk, OnOk};
ghost use Rattle.machine_model.specs.Reading.{values_of};
ghost use Rattle.machine_values.specs.Agreement.{Agrees};
ghost use Rattle.machine_values.specs.Bits.{has_128_bits};
ghost use Rattle.contract_reading.specs.Scenes.{scene_in};

use crate::evaluation::evaluate;
use crate::scene::View;
use machine_model::Halt;
use machine_values::Stop;
use py_base::OutOfMemory;
use py_syntax::{Expr, Value};
use sqlite_items::Items;
use std::alloc::Global;

/// The values of arguments; none where one of them isn't defined.
pub fn values_of<'a>(
    alloc: Global,
    all: &[Expr],
    view: View<'a>,
) -> Result<Option<Items<Value>>, Stop>
    ensures { Agrees (values_of has_128_bits (scene_in view.entry) all.now) result (λ vs. vs) }
{
    let mut values = Items::new(alloc);
    for e in all {
        match evaluate(e, view) {
            Ok(Some(v)) => push(v, &mut values)?,
            Ok(None) => return Ok(None),
            Err(p) => return Err(Stop::Halt(Halt::Wide(p))),
        }
    }
    Ok(Some(values))
}

fn push(v: Value, values: &mut Items<Value>) -> Result<(), OutOfMemory>
    ensures { OnOk result (values.new ≡ values.old ++ v ∷ []) }
{
    values.push(v)?;
    Ok(())
}

/// The locals of a predicate's body.
pub fn locals_of(alloc: Global, vs: &[Value]) -> Result<Items<Option<Value>>, OutOfMemory>
    ensures { IfOk result (λ store. store ≡ map (λ v. Some v) vs.now) }
{
    let mut store = Items::new(alloc);
    for v in vs {
        store.push(Some(*v))?;
    }
    Ok(store)
}
