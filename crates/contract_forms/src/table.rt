// The functions of the module.
ghost use Rattle.std.specs.Prelude.{◌≡◌, ◌++◌, map, flat_map, IfOk, OnOk};
ghost use Rattle.contract_forms.specs.Heads.{line};
ghost use Rattle.contract_forms.specs.Readings.{is_code};
ghost use Rattle.contract_forms.specs.Targets.{is_heading, head_bars, is_target, function_of, item_functions, functions};

use crate::asking::is_alone;
use crate::function::Function;
use crate::heading::{behind_docstring, sort_of, statement_bars, statement_contract};
use crate::target::is_code;
use contract_kinds::Contract;
use py_base::OutOfMemory;
use raw_syntax::{RawFunc, RawItem, RawStmt};
use sqlite_items::Items;
use std::alloc::Global;

fn is_heading(contract: Option<Contract>) -> bool
    ensures { result ≡ is_heading contract }
{
    match contract {
        Some(found) => match found {
            Contract::Requires => true,
            Contract::Ensures => true,
            Contract::Exsures => true,
            _ => false,
        },
        None => false,
    }
}

// Whether a contract at the head of a body keeps the method from being the target of a thread.
fn head_bars(body: &[RawStmt]) -> bool
    ensures { result ≡ head_bars (map line body.now) }
{
    'statements: for s in body {
        if !is_heading(statement_contract(s)) {
            return false;
        }
        if statement_bars(s) {
            return true;
        }
    }
    false
}

// Whether a function may be the target of a thread.
fn is_target(function: &RawFunc) -> bool
    ensures { result ≡ is_target function.now }
{
    function.name.bytes() != b"main".as_slice()
        && is_code(sort_of(function))
        && is_alone(&function.ret, b"None")
        && !head_bars(behind_docstring(function.body.as_slice()))
}

fn function_of(alloc: Global, function: &RawFunc) -> Result<Function, OutOfMemory>
    ensures { IfOk result (λ f. f ≡ function_of function.now) }
{
    Ok(Function {
        place: function.place,
        name: function.name.copy(alloc)?,
        sort: sort_of(function),
        is_target: is_target(function),
    })
}

fn add_item(
    alloc: Global,
    functions: &mut Items<Function>,
    item: &RawItem,
) -> Result<(), OutOfMemory>
    ensures { OnOk result (functions.new ≡ functions.old ++ item_functions item.now) }
{
    match item {
        RawItem::Class(_) => Ok(()),
        RawItem::Func(function) => {
            functions.push(function_of(alloc, function)?)?;
            Ok(())
        }
    }
}

/// The functions of the module, in the order of the text.
pub fn functions(alloc: Global, items: &[RawItem]) -> Result<Items<Function>, OutOfMemory>
    ensures { IfOk result (λ fns. fns ≡ functions items.now) }
{
    let mut all = Items::new(alloc);
    'items: for item in items {
        add_item(alloc, &mut all, item)?;
    }
    Ok(all)
}
