// From a tree to all breaches of the rules on contracts, and to the first.
ghost use Rattle.std.specs.Prelude.{◌≡◌, ◌++◌, [], flat_map, IfOk, OnOk, MatchOption};
ghost use Rattle.contract_forms.specs.Heads.{method_breaches};
ghost use Rattle.contract_forms.specs.Faults.{item_breaches, faults_with, contract_faults};
ghost use Rattle.contract_kinds.specs.Order.{IsFirstFault};

use crate::function::Function;
use crate::recursion::note_recursive;
use crate::statements::note_method;
use crate::table::functions;
use contract_kinds::{Breach, first_breach};
use py_base::OutOfMemory;
use raw_syntax::{Raw, RawFunc, RawItem};
use sqlite_items::Items;
use std::alloc::Global;

fn note_members(
    alloc: Global,
    found: &mut Items<Breach>,
    functions: &[Function],
    members: &[RawFunc],
) -> Result<(), OutOfMemory>
    ensures { OnOk result (found.new ≡ found.old ++ flat_map (method_breaches functions.now) members.now) }
{
    'members: for method in members {
        note_method(alloc, found, functions, method)?;
    }
    Ok(())
}

fn note_item(
    alloc: Global,
    found: &mut Items<Breach>,
    functions: &[Function],
    item: &RawItem,
) -> Result<(), OutOfMemory>
    ensures { OnOk result (found.new ≡ found.old ++ item_breaches functions.now item.now) }
{
    match item {
        RawItem::Class(class) => note_members(alloc, found, functions, class.members.as_slice()),
        RawItem::Func(function) => note_method(alloc, found, functions, function),
    }
}

fn note_items(
    alloc: Global,
    found: &mut Items<Breach>,
    functions: &[Function],
    items: &[RawItem],
) -> Result<(), OutOfMemory>
    ensures { OnOk result (found.new ≡ found.old ++ flat_map (item_breaches functions.now) items.now) }
{
    'items: for item in items {
        note_item(alloc, found, functions, item)?;
    }
    Ok(())
}

fn faults_with(
    alloc: Global,
    functions: &[Function],
    items: &[RawItem],
) -> Result<Items<Breach>, OutOfMemory>
    ensures { IfOk result (λ fs. fs ≡ faults_with functions.now items.now) }
{
    let mut found = Items::new(alloc);
    note_items(alloc, &mut found, functions, items)?;
    note_recursive(alloc, &mut found, functions, items)?;
    Ok(found)
}

/// All breaches of the rules on contracts that a tree has.
pub fn contract_faults(alloc: Global, raw: &Raw) -> Result<Items<Breach>, OutOfMemory>
    ensures { IfOk result (λ fs. fs ≡ contract_faults raw.now) }
{
    let items = raw.items.as_slice();
    let functions = functions(alloc, items)?;
    faults_with(alloc, functions.as_slice(), items)
}

/// The first breach of the rules on contracts of a tree, by place, and at one place in the order of the rules;
/// None where it has none.
pub fn first_contract_fault(alloc: Global, raw: &Raw) -> Result<Option<Breach>, OutOfMemory>
    ensures { IfOk result (λ found. MatchOption found (contract_faults raw.now ≡ []) (IsFirstFault (contract_faults raw.now))) }
{
    let found = contract_faults(alloc, raw)?;
    Ok(first_breach(found.as_slice()))
}
