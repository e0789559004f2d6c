// The steps of a combination, numbered as the checker numbers rows.
ghost use Rattle.std.specs.Prelude.{◌≡◌, IfOk, map};
ghost use Rattle.cond_facts.specs.FactRows.{new_number, renumbered};

use lin_rows::ComboStep;
use py_base::OutOfMemory;
use sqlite_items::Items;
use std::alloc::Global;

// The number that a row, or a step from `first` on, has there.
fn renumber(numbers: &[u32], first: u32, number: u32) -> Result<u32, OutOfMemory>
    ensures { IfOk result (λ n. n ≡ new_number numbers.now first number) }
{
    let at = number as usize;
    if at < numbers.len() {
        return Ok(numbers[at]);
    }
    match u32::try_from((at - numbers.len()) as u128 + first as u128) {
        Ok(number) => Ok(number),
        Err(_) => Err(OutOfMemory),
    }
}

fn renumber_step(
    alloc: Global,
    numbers: &[u32],
    first: u32,
    step: &ComboStep,
) -> Result<ComboStep, OutOfMemory>
    ensures { IfOk result (λ s. s ≡ renumbered numbers.now first step.now) }
{
    Ok(ComboStep {
        left: renumber(numbers, first, step.left)?,
        right: renumber(numbers, first, step.right)?,
        by_left: step.by_left,
        by_right: step.by_right,
        row: step.row.copy(alloc)?,
    })
}

/// The steps, numbered so.
pub fn renumber_steps(
    alloc: Global,
    numbers: &[u32],
    first: u32,
    steps: &[ComboStep],
) -> Result<Items<ComboStep>, OutOfMemory>
    ensures { IfOk result (λ list. list ≡ map (renumbered numbers.now first) steps.now) }
{
    let mut list = Items::new(alloc);
    for step in steps {
        let step = renumber_step(alloc, numbers, first, step)?;
        list.push(step)?;
    }
    Ok(list)
}
