// The pure functions that an expression calls.
ghost use Rattle.std.specs.Prelude.{◌≡◌, ◌++◌, map, flat_map, position, OnOk};
ghost use Rattle.contract_forms.specs.Readings.{is_pure, is_pure_called, numbers, named_call, part_calls, argument_calls, link_calls, reading, argument_of, link_of};

use crate::function::{Function, Sort};
use crate::reading::word;
use py_base::OutOfMemory;
use raw_syntax::{RawArgument, RawComparison, RawExpr, RawExprForm, RawParam};
use sqlite_items::Items;
use type_base::is_parameter;

/// Whether it is a pure function.
pub fn is_pure(sort: Sort) -> bool
    ensures { result ≡ is_pure sort }
{
    match sort {
        Sort::Pure => true,
        _ => false,
    }
}

fn pure_called(functions: &[Function], name: &[u8]) -> Option<usize>
    ensures { result ≡ position (is_pure_called name.now) functions.now }
{
    functions.iter().position(|function| is_pure(function.sort) && name == function.name.bytes())
}

fn add_number(calls: &mut Items<usize>, number: Option<usize>) -> Result<(), OutOfMemory>
    ensures { OnOk result (calls.new ≡ calls.old ++ numbers number) }
{
    match number {
        Some(found) => {
            calls.push(found)?;
            Ok(())
        }
        None => Ok(()),
    }
}

fn add_named(
    calls: &mut Items<usize>,
    functions: &[Function],
    params: &[RawParam],
    e: &RawExpr,
) -> Result<(), OutOfMemory>
    ensures { OnOk result (calls.new ≡ calls.old ++ named_call functions.now params.now (reading e.now).word) }
{
    match word(e) {
        Some(name) => {
            if is_parameter(params, name.bytes()) {
                return Ok(());
            }
            add_number(calls, pure_called(functions, name.bytes()))
        }
        None => Ok(()),
    }
}

/// Adds the numbers of the pure functions that an expression calls, in a function with these parameters.
#[cycle(calls)]
pub fn add_calls(
    e: &RawExpr,
    functions: &[Function],
    params: &[RawParam],
    calls: &mut Items<usize>,
) -> Result<(), OutOfMemory>
    ensures { OnOk result (calls.new ≡ calls.old ++ (reading e.now).calls functions.now params.now) }
{
    match &e.form {
        RawExprForm::Bracket(inner)
        | RawExprForm::Negate(inner)
        | RawExprForm::Not(inner)
        | RawExprForm::Field(inner, _) => add_calls(inner.get(), functions, params, calls)?,
        RawExprForm::Tuple(parts) => add_parts(parts, functions, params, calls)?,
        RawExprForm::Call(inner, arguments) => {
            add_named(calls, functions, params, inner.get())?;
            add_calls(inner.get(), functions, params, calls)?;
            add_arguments(arguments, functions, params, calls)?;
        }
        RawExprForm::Binary(_, a, b) | RawExprForm::And(a, b) | RawExprForm::Or(a, b) => {
            add_calls(a.get(), functions, params, calls)?;
            add_calls(b.get(), functions, params, calls)?;
        }
        RawExprForm::Chain(a, links) => {
            add_calls(a.get(), functions, params, calls)?;
            add_links(links, functions, params, calls)?;
        }
        _ => {}
    }
    Ok(())
}

#[cycle(calls)]
fn add_parts(
    parts: &Items<RawExpr>,
    functions: &[Function],
    params: &[RawParam],
    calls: &mut Items<usize>,
) -> Result<(), OutOfMemory>
    ensures { OnOk result (calls.new ≡ calls.old ++ flat_map (part_calls functions.now params.now) (map reading parts.now)) }
{
    'parts: for part in parts.as_slice() {
        add_calls(part, functions, params, calls)?;
    }
    Ok(())
}

#[cycle(calls)]
fn add_argument(
    argument: &RawArgument,
    functions: &[Function],
    params: &[RawParam],
    calls: &mut Items<usize>,
) -> Result<(), OutOfMemory>
    ensures { OnOk result (calls.new ≡ calls.old ++ argument_calls functions.now params.now (argument_of argument.now)) }
{
    match argument {
        RawArgument::Value(e) => add_calls(e, functions, params, calls),
        RawArgument::Named(l, e) => {
            add_calls(l, functions, params, calls)?;
            add_calls(e, functions, params, calls)
        }
    }
}

#[cycle(calls)]
fn add_arguments(
    arguments: &Items<RawArgument>,
    functions: &[Function],
    params: &[RawParam],
    calls: &mut Items<usize>,
) -> Result<(), OutOfMemory>
    ensures { OnOk result (calls.new ≡ calls.old ++ flat_map (argument_calls functions.now params.now) (map argument_of arguments.now)) }
{
    'arguments: for argument in arguments.as_slice() {
        add_argument(argument, functions, params, calls)?;
    }
    Ok(())
}

#[cycle(calls)]
fn add_links(
    links: &Items<RawComparison>,
    functions: &[Function],
    params: &[RawParam],
    calls: &mut Items<usize>,
) -> Result<(), OutOfMemory>
    ensures { OnOk result (calls.new ≡ calls.old ++ flat_map (link_calls functions.now params.now) (map link_of links.now)) }
{
    'links: for link in links.as_slice() {
        add_calls(&link.operand, functions, params, calls)?;
    }
    Ok(())
}
