// Pure functions that reach themselves.
ghost use Rattle.std.specs.Prelude.{◌≡◌, ◌++◌, true, map, flat_map, length, slice_get, IfOk, OnOk};
ghost use Rattle.std.specs.Option.{option_map_or};
ghost use Rattle.contract_forms.specs.Pures.{value_calls, statement_calls, row, item_rows, rows, is_true, leads, calls_toward, nowhere, reaching, is_recursive, recursive_from};

use crate::function::Function;
use crate::heading::sort_of;
use crate::pure_calls::{add_calls, is_pure};
use contract_kinds::{Breach, Rule, note_if};
use py_base::OutOfMemory;
use raw_syntax::{RawExpr, RawFunc, RawItem, RawParam, RawStmt, RawStmtForm};
use sqlite_items::Items;
use std::alloc::Global;

fn add_value_calls(
    calls: &mut Items<usize>,
    functions: &[Function],
    params: &[RawParam],
    value: &Option<RawExpr>,
) -> Result<(), OutOfMemory>
    ensures { OnOk result (calls.new ≡ calls.old ++ value_calls functions.now params.now value.now) }
{
    match value {
        Some(e) => add_calls(e, functions, params, calls),
        None => Ok(()),
    }
}

fn add_statement_calls(
    calls: &mut Items<usize>,
    functions: &[Function],
    params: &[RawParam],
    s: &RawStmt,
) -> Result<(), OutOfMemory>
    ensures { OnOk result (calls.new ≡ calls.old ++ statement_calls functions.now params.now s.now) }
{
    match &s.form {
        RawStmtForm::Return(e) => add_value_calls(calls, functions, params, e),
        _ => Ok(()),
    }
}

fn body_calls(
    alloc: Global,
    functions: &[Function],
    params: &[RawParam],
    body: &[RawStmt],
) -> Result<Items<usize>, OutOfMemory>
    ensures { IfOk result (λ calls. calls ≡ flat_map (statement_calls functions.now params.now) body.now) }
{
    let mut calls = Items::new(alloc);
    'statements: for s in body {
        add_statement_calls(&mut calls, functions, params, s)?;
    }
    Ok(calls)
}

// The pure functions that a pure function calls.
fn row(
    alloc: Global,
    functions: &[Function],
    function: &RawFunc,
) -> Result<Items<usize>, OutOfMemory>
    ensures { IfOk result (λ calls. calls ≡ row functions.now function.now) }
{
    if is_pure(sort_of(function)) {
        return body_calls(
            alloc,
            functions,
            function.params.as_slice(),
            function.body.as_slice(),
        );
    }
    Ok(Items::new(alloc))
}

fn add_row(
    alloc: Global,
    rows: &mut Items<Items<usize>>,
    functions: &[Function],
    item: &RawItem,
) -> Result<(), OutOfMemory>
    ensures { OnOk result (rows.new ≡ rows.old ++ item_rows functions.now item.now) }
{
    match item {
        RawItem::Class(_) => Ok(()),
        RawItem::Func(function) => {
            rows.push(row(alloc, functions, function)?)?;
            Ok(())
        }
    }
}

fn rows(
    alloc: Global,
    functions: &[Function],
    items: &[RawItem],
) -> Result<Items<Items<usize>>, OutOfMemory>
    ensures { IfOk result (λ rs. rs ≡ rows functions.now items.now) }
{
    let mut all = Items::new(alloc);
    'items: for item in items {
        add_row(alloc, &mut all, functions, item)?;
    }
    Ok(all)
}

fn leads(target: usize, reached: &[bool], number: usize) -> bool
    ensures { result ≡ leads target reached.now number }
{
    if number == target {
        return true;
    }
    match reached.get(number) {
        Some(found) => *found,
        None => false,
    }
}

// Whether a function with this row calls the target, or one that reaches it.
fn calls_toward(target: usize, reached: &[bool], row: &[usize]) -> bool
    ensures { result ≡ calls_toward target reached.now row.now }
{
    'calls: for number in row {
        if leads(target, reached, *number) {
            return true;
        }
    }
    false
}

fn none_reached(alloc: Global, rows: &[Items<usize>]) -> Result<Items<bool>, OutOfMemory>
    ensures { IfOk result (λ reached. reached ≡ map nowhere rows.now) }
{
    let mut reached = Items::new(alloc);
    'rows: for _row in rows {
        reached.push(false)?;
    }
    Ok(reached)
}

fn one_round(
    alloc: Global,
    rows: &[Items<usize>],
    target: usize,
    before: &[bool],
) -> Result<Items<bool>, OutOfMemory>
    ensures { IfOk result (λ reached. reached ≡ map (calls_toward target before.now) rows.now) }
{
    let mut reached = Items::new(alloc);
    'rows: for row in rows {
        reached.push(calls_toward(target, before, row.as_slice()))?;
    }
    Ok(reached)
}

// Which functions reach the target.
fn reaching(alloc: Global, rows: &[Items<usize>], target: usize) -> Result<Items<bool>, OutOfMemory>
    ensures { IfOk result (λ reached. reached ≡ reaching rows.now target (length rows.now)) }
{
    let mut reached = none_reached(alloc, rows)?;
    'rounds: for _round in 0..rows.len() {
        let next = one_round(alloc, rows, target, reached.as_slice())?;
        if next.as_slice() == reached.as_slice() {
            return Ok(next);
        }
        reached = next;
    }
    Ok(reached)
}

fn reaches_itself(
    alloc: Global,
    rows: &[Items<usize>],
    number: usize,
    row: &[usize],
) -> Result<bool, OutOfMemory>
    ensures { IfOk result (λ b. b ≡ calls_toward number (reaching rows.now number (length rows.now)) row.now) }
{
    if row.len() == 0 {
        return Ok(false);
    }
    let reached = reaching(alloc, rows, number)?;
    Ok(calls_toward(number, reached.as_slice(), row))
}

fn is_recursive(alloc: Global, rows: &[Items<usize>], number: usize) -> Result<bool, OutOfMemory>
    ensures { IfOk result (λ b. b ≡ is_recursive rows.now number) }
{
    match rows.get(number) {
        Some(row) => reaches_itself(alloc, rows, number, row.as_slice()),
        None => Ok(false),
    }
}

fn note_all(
    alloc: Global,
    found: &mut Items<Breach>,
    rows: &[Items<usize>],
    functions: &[Function],
) -> Result<(), OutOfMemory>
    ensures { OnOk result (found.new ≡ found.old ++ recursive_from rows.now 0 functions.now) }
{
    let mut number = 0usize;
    'functions: for function in functions {
        let recursive = is_recursive(alloc, rows, number)?;
        note_if(found, recursive, function.place, Rule::RecursivePure)?;
        number += 1;
    }
    Ok(())
}

/// Adds the breaches of pure functions that reach themselves.
pub fn note_recursive(
    alloc: Global,
    found: &mut Items<Breach>,
    functions: &[Function],
    items: &[RawItem],
) -> Result<(), OutOfMemory>
    ensures { OnOk result (found.new ≡ found.old ++ recursive_from (rows functions.now items.now) 0 functions.now) }
{
    let rows = rows(alloc, functions, items)?;
    note_all(alloc, found, rows.as_slice(), functions)
}
