// From a tree to its classes.
ghost use Rattle.std.specs.Prelude.{◌≡◌, ◌<◌, ◌^◌, ◌≢◌, None, Some, length, IfOk, IfErr, MatchResult};
ghost use Rattle.class_table.specs.declared.fault.ClassFault.TheVariants as faults;
ghost use Rattle.class_table.specs.Tables.{table_over};
ghost use Rattle.class_table.specs.Faults.{faults_with, first_of, first_fault};
ghost use Rattle.class_table.specs.ClassList.{classes_with, classes_of};

use crate::checks::all_faults;
use crate::class_list::{all_classes, main_number};
use crate::classes::Classes;
use crate::fault::ClassFault;
use crate::first::first_of;
use crate::init::all_declared;
use crate::name_list::all_names;
use crate::naming::class_names;
use crate::outline::Table;
use crate::rows::{all_rows, locks};
use name_table::Names;
use py_base::OutOfMemory;
use raw_syntax::{Raw, RawItem};
use std::alloc::Global;

fn table_over(alloc: Global, names: Names, items: &[RawItem]) -> Result<Table, OutOfMemory>
    requires { length names < 2 ^ 32 }
    ensures { IfOk result (λ t. t ≡ table_over names items.now) }
{
    let rows = all_rows(alloc, &names, items)?;
    let locks = locks(alloc, &names, rows.as_slice(), items)?;
    let declared = all_declared(alloc, &names, rows.as_slice(), items)?;
    Ok(Table {
        names,
        rows,
        locks,
        declared,
    })
}

fn first_with(alloc: Global, table: &Table, raw: &Raw) -> Result<Option<ClassFault>, OutOfMemory>
    requires { length table.now.names < 2 ^ 32 }
    ensures { IfOk result (λ first. first ≡ first_of None (faults_with table.now raw.now)) }
{
    Ok(first_of(&all_faults(alloc, table, raw)?))
}

fn classes_with(alloc: Global, table: &Table, items: &[RawItem]) -> Result<Classes, OutOfMemory>
    ensures { IfOk result (λ classes. classes ≡ classes_with table.now items.now) }
{
    let names = all_names(alloc, table, items)?;
    let list = all_classes(alloc, table, &names, items)?;
    let main = main_number(items)?;
    Ok(Classes {
        names: names.into_list(),
        list,
        main,
    })
}

// The classes, or the first fault.
fn answer(alloc: Global, raw: &Raw) -> Result<Result<Classes, ClassFault>, OutOfMemory>
    ensures { IfOk result (λ r. MatchResult r (λ classes. (first_fault raw.now ≡ None) × (classes ≡ classes_of raw.now)) (λ f. first_fault raw.now ≡ Some f)) }
{
    let items = raw.items.as_slice();
    let names = class_names(alloc, items)?;
    if names.len() > u32::MAX as usize {
        return Err(OutOfMemory);
    }
    let table = table_over(alloc, names, items)?;
    match first_with(alloc, &table, raw)? {
        Some(fault) => Ok(Err(fault)),
        None => Ok(Ok(classes_with(alloc, &table, items)?)),
    }
}

/// The classes of a tree, or its first fault.
pub fn build(alloc: Global, raw: &Raw) -> Result<Classes, ClassFault>
    ensures classes { IfOk result (λ classes. (first_fault raw.now ≡ None) × (classes ≡ classes_of raw.now)) }
    ensures fault { IfErr result (λ f. f ≢ faults.OutOfMemory → first_fault raw.now ≡ Some f) }
{
    match answer(alloc, raw) {
        Ok(answer) => answer,
        Err(OutOfMemory) => Err(ClassFault::OutOfMemory),
    }
}
