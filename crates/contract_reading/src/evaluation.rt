// Values of expressions.
ghost use Rattle.std.specs.Prelude.{◌≡◌, ◌<◌, map, drop, length};
ghost use Rattle.machine_model.specs.Evaluation.{meaning, chain_of, chain_from};
ghost use Rattle.machine_values.specs.Bits.{has_128_bits};
ghost use Rattle.contract_reading.specs.Scenes.{scene_in, told};

use crate::parts::{
    Link, both, either, field, implied, joined, level, link_to, local, locked, not_nil, prefixed,
};
use crate::scene::View;
use py_base::Place;
use py_syntax::{Expr, ExprForm, Value};

/// The value of an expression, none where it isn't defined, or the place of a number outside 128 bits. Parts whose value
/// isn't asked for are read too: reading changes nothing and ends.
#[cycle(evaluate)]
pub fn evaluate<'a>(e: &Expr, view: View<'a>) -> Result<Option<Value>, Place>
    ensures { told result ≡ meaning has_128_bits e.now (scene_in view.entry) }
{
    match &e.form {
        ExprForm::Num(n) => Ok(Some(Value::Num(*n))),
        ExprForm::Truth(b) => Ok(Some(Value::Truth(*b))),
        ExprForm::Nil => Ok(Some(Value::Nil)),
        ExprForm::Local(i) => Ok(local(view, *i)),
        ExprForm::Get(o, name) => field(view, *name, evaluate(o.get(), view)),
        ExprForm::Un(key, a) => prefixed(e.place, *key, evaluate(a.get(), view)),
        ExprForm::Bin(key, a, b) => {
            joined(
                e.place,
                *key,
                evaluate(a.get(), view),
                evaluate(b.get(), view),
            )
        }
        ExprForm::Chain(all, keys) => evaluate_chain(all.as_slice(), keys.as_slice(), view),
        ExprForm::And(a, b) => both(evaluate(a.get(), view), evaluate(b.get(), view)),
        ExprForm::Or(a, b) => either(evaluate(a.get(), view), evaluate(b.get(), view)),
        ExprForm::Call(_, _) => Ok(None),
        ExprForm::Send(_, _, _) => Ok(None),
        ExprForm::New(_, _) => Ok(None),
        ExprForm::NewLock(_, _, _) => Ok(None),
        ExprForm::NewThread(_, _, _) => Ok(None),
        ExprForm::Locked(lock) => locked(view, evaluate(lock.get(), view)),
        ExprForm::NotNil(o) => not_nil(evaluate(o.get(), view)),
        ExprForm::Old(inner) => evaluate(inner.get(), view.at_entry()),
        ExprForm::Answer => Ok(view.answer),
        ExprForm::LevelOf(o) => level(view, evaluate(o.get(), view)),
        ExprForm::Opened(_, inner) => evaluate(inner.get(), view),
        ExprForm::Gives(a, b) => implied(evaluate(a.get(), view), evaluate(b.get(), view)),
    }
}

// A chain of comparisons.
#[cycle(evaluate)]
fn evaluate_chain<'a>(all: &[Expr], keys: &[u16], view: View<'a>) -> Result<Option<Value>, Place>
    ensures { told result ≡ chain_of (map (meaning has_128_bits) all.now) keys.now (scene_in view.entry) }
{
    if all.is_empty() {
        return Ok(None);
    }
    match evaluate(&all[0], view) {
        Ok(Some(v)) => evaluate_links(v, all, keys, view),
        Ok(None) => Ok(None),
        Err(p) => Err(p),
    }
}

// The rest of a chain, whose first operand has this value.
#[cycle(evaluate)]
fn evaluate_links<'a>(
    v: Value,
    all: &[Expr],
    keys: &[u16],
    view: View<'a>,
) -> Result<Option<Value>, Place>
    requires { 0 < length all.now }
    ensures { told result ≡ chain_from v (map (meaning has_128_bits) (drop 1 all.now)) keys.now (scene_in view.entry) }
{
    let mut last = v;
    let mut at = 0;
    while at + 1 < all.len() {
        if at >= keys.len() {
            return Ok(Some(Value::Truth(true)));
        }
        let e = &all[at + 1];
        match link_to(e.place, keys[at], last, evaluate(e, view)) {
            Link::Next(w) => last = w,
            Link::Ends(read) => return read,
        }
        at += 1;
    }
    Ok(Some(Value::Truth(true)))
}
