// Expressions: the breaches within them.
ghost use Rattle.std.specs.Prelude.{◌≡◌, ◌++◌, map, flat_map, OnOk};
ghost use Rattle.contract_kinds.specs.Kinds.{inner};
ghost use Rattle.contract_forms.specs.Readings.{scope, reading, argument_of, link_of, part_breaches, argument_breaches, arguments_breaches, link_breaches, is_less, left_spot};

use crate::asking::{gives, note_call};
use crate::function::Function;
use crate::reading::{binds, contract_of};
use contract_kinds::{
    Breach, Contract, Spot, argument_spot, conjunct, inner, lower, second_conjunct,
};
use py_base::{OutOfMemory, Text};
use raw_syntax::{Comparison, RawArgument, RawComparison, RawExpr, RawExprForm, RawFunc};
use sqlite_items::Items;

fn is_less(operator: Comparison) -> bool
    ensures { result ≡ is_less operator }
{
    match operator {
        Comparison::Less => true,
        _ => false,
    }
}

// Where the first operand of a chain stands.
fn left_spot(links: &[RawComparison], at: Spot) -> Spot
    ensures { result ≡ left_spot (map link_of links.now) at }
{
    match links {
        [link] => {
            if is_less(link.operator) {
                return lower(at);
            }
            inner(at)
        }
        _ => inner(at),
    }
}

/// Adds the breaches within an expression that stands there in a method.
#[cycle(breaches)]
pub fn note_expr(
    e: &RawExpr,
    functions: &[Function],
    method: &RawFunc,
    locals: &[Text],
    at: Spot,
    found: &mut Items<Breach>,
) -> Result<(), OutOfMemory>
    ensures { OnOk result (found.new ≡ found.old ++ (reading e.now).breaches (scope functions.now method.now locals.now) at) }
{
    match &e.form {
        RawExprForm::Bracket(a) => note_expr(a.get(), functions, method, locals, at, found)?,
        RawExprForm::Negate(a) | RawExprForm::Not(a) | RawExprForm::Field(a, _) => {
            note_expr(a.get(), functions, method, locals, inner(at), found)?
        }
        RawExprForm::Tuple(parts) => {
            note_parts(parts, functions, method, locals, inner(at), found)?
        }
        RawExprForm::Call(a, xs) => {
            let contract = contract_of(a.get());
            note_call(found, functions, method, locals, at, a.get(), xs.as_slice())?;
            note_expr(a.get(), functions, method, locals, inner(at), found)?;
            note_arguments(xs, functions, method, locals, contract, at, found)?;
        }
        RawExprForm::Binary(_, a, b) | RawExprForm::Or(a, b) => {
            note_expr(a.get(), functions, method, locals, inner(at), found)?;
            note_expr(b.get(), functions, method, locals, inner(at), found)?;
        }
        RawExprForm::Chain(a, links) => {
            let left = left_spot(links.as_slice(), at);
            note_expr(a.get(), functions, method, locals, left, found)?;
            note_links(links, functions, method, locals, inner(at), found)?;
        }
        RawExprForm::And(a, b) => {
            let second = second_conjunct(at, binds(a.get()));
            note_expr(a.get(), functions, method, locals, conjunct(at), found)?;
            note_expr(b.get(), functions, method, locals, second, found)?;
        }
        _ => {}
    }
    Ok(())
}

#[cycle(breaches)]
fn note_parts(
    parts: &Items<RawExpr>,
    functions: &[Function],
    method: &RawFunc,
    locals: &[Text],
    at: Spot,
    found: &mut Items<Breach>,
) -> Result<(), OutOfMemory>
    ensures { OnOk result (found.new ≡ found.old ++ flat_map (part_breaches (scope functions.now method.now locals.now) at) (map reading parts.now)) }
{
    'parts: for part in parts.as_slice() {
        note_expr(part, functions, method, locals, at, found)?;
    }
    Ok(())
}

#[cycle(breaches)]
fn note_argument(
    argument: &RawArgument,
    functions: &[Function],
    method: &RawFunc,
    locals: &[Text],
    at: Spot,
    found: &mut Items<Breach>,
) -> Result<(), OutOfMemory>
    ensures { OnOk result (found.new ≡ found.old ++ argument_breaches (scope functions.now method.now locals.now) at (argument_of argument.now)) }
{
    match argument {
        RawArgument::Value(e) => note_expr(e, functions, method, locals, at, found),
        RawArgument::Named(l, e) => {
            note_expr(l, functions, method, locals, at, found)?;
            note_expr(e, functions, method, locals, at, found)
        }
    }
}

#[cycle(breaches)]
fn note_arguments(
    arguments: &Items<RawArgument>,
    functions: &[Function],
    method: &RawFunc,
    locals: &[Text],
    contract: Option<Contract>,
    at: Spot,
    found: &mut Items<Breach>,
) -> Result<(), OutOfMemory>
    ensures { OnOk result (found.new ≡ found.old ++ arguments_breaches (scope functions.now method.now locals.now) contract at 0 (map argument_of arguments.now)) }
{
    let valued = gives(functions, method, locals);
    let mut number = 0usize;
    'arguments: for argument in arguments.as_slice() {
        let spot = argument_spot(valued, contract, at, number);
        note_argument(argument, functions, method, locals, spot, found)?;
        number += 1;
    }
    Ok(())
}

#[cycle(breaches)]
fn note_links(
    links: &Items<RawComparison>,
    functions: &[Function],
    method: &RawFunc,
    locals: &[Text],
    at: Spot,
    found: &mut Items<Breach>,
) -> Result<(), OutOfMemory>
    ensures { OnOk result (found.new ≡ found.old ++ flat_map (link_breaches (scope functions.now method.now locals.now) at) (map link_of links.now)) }
{
    'links: for link in links.as_slice() {
        note_expr(&link.operand, functions, method, locals, at, found)?;
    }
    Ok(())
}
