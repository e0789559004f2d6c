// The names of a text and their numbers.
ghost use Rattle.std.specs.Prelude.{◌≡◌, IfOk, OnOk};
ghost use Rattle.class_table.specs.ClassList.{with_declared, all_names, name_number};

use crate::outline::{Declared, Table};
use crate::scope::declared_by;
use name_table::Names;
use py_base::OutOfMemory;
use raw_syntax::RawItem;
use std::alloc::Global;

fn add_declared(alloc: Global, names: &mut Names, declared: &[Declared]) -> Result<(), OutOfMemory>
    ensures { OnOk result (names.new ≡ with_declared names.old declared.now) }
{
    'declared: for d in declared {
        names.note(alloc, d.name.bytes())?;
    }
    Ok(())
}

/// The names of a text, in the order in which it first has them.
pub fn all_names(alloc: Global, table: &Table, items: &[RawItem]) -> Result<Names, OutOfMemory>
    ensures { IfOk result (λ names. names ≡ all_names table.now items.now) }
{
    let mut names = Names::new(alloc);
    names.push(alloc, b"Exception")?;
    let mut number = 1usize;
    'items: for item in items {
        match item {
            RawItem::Class(class) => {
                names.note(alloc, class.name.bytes())?;
                add_declared(alloc, &mut names, declared_by(table, number))?;
                number += 1;
            }
            RawItem::Func(function) => names.note(alloc, function.name.bytes())?,
        }
    }
    Ok(names)
}

/// The number in 32 bits. A list with more members doesn't fit in memory.
pub fn as_number(n: usize) -> Result<u32, OutOfMemory>
    ensures { IfOk result (λ number. number ≡ n) }
{
    match u32::try_from(n) {
        Ok(number) => Ok(number),
        Err(_) => Err(OutOfMemory),
    }
}

/// The number of a name.
pub fn name_number(names: &Names, name: &[u8]) -> Result<u32, OutOfMemory>
    ensures { IfOk result (λ number. number ≡ name_number names.now name.now) }
{
    as_number(names.position_or_len(name))
}
