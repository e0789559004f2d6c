// What bars a function from being the target of a thread.
ghost use Rattle.std.specs.Prelude.{◌≡◌, map};
ghost use Rattle.std.specs.List.{list_any};
ghost use Rattle.contract_forms.specs.Readings.{is_barring, bars, argument_bars, link_bars, reading, argument_of, link_of};

use crate::reading::contract_of;
use contract_kinds::Contract;
use raw_syntax::{RawArgument, RawComparison, RawExpr, RawExprForm};
use sqlite_items::Items;

fn is_barring(contract: Option<Contract>) -> bool
    ensures { result ≡ is_barring contract }
{
    match contract {
        Some(found) => match found {
            Contract::Old => true,
            Contract::MustRelease => true,
            _ => false,
        },
        None => false,
    }
}

/// Whether `Old` or `MustRelease` is called within an expression.
#[cycle(bars)]
pub fn bars(e: &RawExpr) -> bool
    ensures { result ≡ (reading e.now).bars }
{
    match &e.form {
        RawExprForm::Bracket(inner)
        | RawExprForm::Negate(inner)
        | RawExprForm::Not(inner)
        | RawExprForm::Field(inner, _) => bars(inner.get()),
        RawExprForm::Tuple(parts) => some_part_bars(parts),
        RawExprForm::Call(inner, arguments) => {
            is_barring(contract_of(inner.get()))
                || bars(inner.get())
                || some_argument_bars(arguments)
        }
        RawExprForm::Binary(_, a, b) | RawExprForm::And(a, b) | RawExprForm::Or(a, b) => {
            bars(a.get()) || bars(b.get())
        }
        RawExprForm::Chain(a, links) => bars(a.get()) || some_link_bars(links),
        _ => false,
    }
}

#[cycle(bars)]
fn some_part_bars(parts: &Items<RawExpr>) -> bool
    ensures { result ≡ list_any bars (map reading parts.now) }
{
    'parts: for part in parts.as_slice() {
        if bars(part) {
            return true;
        }
    }
    false
}

#[cycle(bars)]
fn some_argument_bars(arguments: &Items<RawArgument>) -> bool
    ensures { result ≡ list_any argument_bars (map argument_of arguments.now) }
{
    'arguments: for argument in arguments.as_slice() {
        if argument_bars(argument) {
            return true;
        }
    }
    false
}

#[cycle(bars)]
fn argument_bars(argument: &RawArgument) -> bool
    ensures { result ≡ argument_bars (argument_of argument.now) }
{
    match argument {
        RawArgument::Value(e) => bars(e),
        RawArgument::Named(l, e) => bars(l) || bars(e),
    }
}

#[cycle(bars)]
fn some_link_bars(links: &Items<RawComparison>) -> bool
    ensures { result ≡ list_any link_bars (map link_of links.now) }
{
    'links: for link in links.as_slice() {
        if bars(&link.operand) {
            return true;
        }
    }
    false
}
