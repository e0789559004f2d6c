// What `print` writes.
ghost use Rattle.std.specs.Prelude.{◌≡◌, ◌++◌, ◌+◌, Bool, List, [], drop, OnOk, IfOk};
ghost use Rattle.machine_model.specs.Frames.{pop_arguments};
ghost use Rattle.machine_model.specs.Items.{prints};
ghost use Rattle.machine_model.specs.Printing as texts_said;
ghost use Rattle.py_syntax.specs.StmtItems as items;
ghost use Rattle.machine_values.specs.Agreement.{Agrees};
ghost use Rattle.machine_items.specs.Lines.{further};
ghost use Rattle.machine_items.specs.Deeds.{IsDeed};

use crate::going::dropping;
use crate::moment::Moment;
use machine_deeds::Deed;
use machine_model::Stack;
use machine_values::{Stop, value_at};
use py_base::{OutOfMemory, Text};
use py_syntax::{PrintArg, Value};
use std::alloc::Global;

/// Prints the topmost values and the literals between them.
pub fn print(alloc: Global, at: Moment<'_>, args: &[PrintArg]) -> Result<Deed, Stop>
    ensures { IsDeed (prints args.now) at.entry result }
{
    let count = values_wanted(args);
    let values = top_values(alloc, count, &at.frame.stack)?;
    let texts = texts(alloc, args, values)?;
    let line = spaced(alloc, &texts)?;
    let deed = dropping(alloc, at, count)?;
    Ok(Deed {
        line: Some(line),
        ..deed
    })
}

// How many values the arguments ask for.
fn values_wanted(args: &[PrintArg]) -> usize
    ensures { result ≡ items.values_wanted args.now }
{
    let mut count = 0;
    for arg in args {
        if let PrintArg::Value(_) = arg {
            count += 1;
        }
    }
    count
}

/// The topmost values, so many, the lowest one on top.
#[tactic(auto, using(crate::proofs::Arguments::pop_more, crate::proofs::Arguments::pop_fails))]
pub fn top_values(alloc: Global, count: usize, stack: &Stack<Value>) -> Result<Stack<Value>, Stop>
    ensures { Agrees (pop_arguments count stack.now) result (λ values. (values, drop count stack.now)) }
{
    let mut values = Stack::new(alloc);
    for depth in 0..count {
        values.push(value_at(depth, stack)?)?;
    }
    Ok(values)
}

// The texts of the arguments, whose values are these.
fn texts(
    alloc: Global,
    args: &[PrintArg],
    mut values: Stack<Value>,
) -> Result<Vec<Text>, OutOfMemory>
    ensures { IfOk result (λ texts. texts.items ≡ texts_said.texts_of args.now values) }
{
    let mut texts = Vec::new(alloc);
    for arg in args {
        match arg {
            PrintArg::Literal(text) => texts.push(text.copy(alloc)?)?,
            PrintArg::Value(_) => match values.pop() {
                Some(value) => texts.push(value_text(alloc, value)?)?,
                None => break,
            },
        }
    }
    Ok(texts)
}

fn value_text(alloc: Global, value: Value) -> Result<Text, OutOfMemory>
    ensures { IfOk result (λ text. text ≡ texts_said.text_of value) }
{
    match value {
        Value::Num(n) => Ok(Text::of(format!(in alloc; "{n}")?.into_bytes())),
        Value::Truth(true) => Ok(Text::of(b"True".to_vec(alloc)?)),
        Value::Truth(false) => Ok(Text::of(b"False".to_vec(alloc)?)),
        Value::Nil | Value::Ref(_) => Ok(Text::of(Vec::new(alloc))),
    }
}

// Texts with one space between.
#[tactic(auto, using(crate::proofs::Arguments::spaced_is))]
fn spaced(alloc: Global, texts: &[Text]) -> Result<Text, OutOfMemory>
    ensures { IfOk result (λ line. line ≡ texts_said.spaced texts.now) }
{
    match texts {
        [] => Ok(Text::of(Vec::new(alloc))),
        [first, rest @ ..] => {
            let mut line = first.bytes().to_vec(alloc)?;
            push_further(&mut line, rest)?;
            Ok(Text::of(line))
        }
    }
}

// Texts with a space in front of each.
fn push_further(line: &mut Vec<u8>, texts: &[Text]) -> Result<(), OutOfMemory>
    ensures { OnOk result (line.new.items ≡ line.old.items ++ further texts.now) }
{
    for text in texts {
        line.push(b' ')?;
        line.extend_from_slice(text.bytes())?;
    }
    Ok(())
}
