// The numbers and the symbols of terms that aren't built.
ghost use Rattle.std.specs.Prelude.{◌≡◌, ◌≤◌, ℕ, map, MatchOption, IfSome, IfNone};
ghost use Rattle.terms.specs.Forms.{form_of};
ghost use Rattle.proof_checker.specs.Views.{origin_term, node_term, under};
ghost use Rattle.proof_checker.specs.Chains.{side_term};
ghost use Rattle.proof_checker.specs.Figures.{asked, FigureFits, HasSymbol, reply_to, list_reply, after};

use crate::origin::{Origin, Top};
use crate::puts::{Puts, same_nodes};
use crate::replies::{
    Figure, Query, Reply, multiple, of_literal, of_nothing, of_symbol, sum, with_rest,
};
use crate::side::Side;
use terms::Term;

/// Replacements still to be put into a term, the next one at the head.
#[derive(Clone, Copy)]
pub enum Pending<'a> {
    None,
    Next(Origin<'a>, &'a Puts<'a>, Origin<'a>, &'a Puts<'a>, &'a Pending<'a>),
}

/// The reply of a term with its replacements, and those still to be put into it.
#[cycle(replies)]
fn read<'a>(x: Origin<'a>, p: &'a Puts<'a>, rest: &'a Pending<'a>, q: Query) -> Reply
    ensures { result ≡ reply_to q ((after rest.now).under (under p.now (origin_term x.entry))) }
{
    match p {
        Puts::None => go_on(x, &Puts::None, &*rest, q),
        Puts::More(before, from, from_puts, to, to_puts) => read(
            x,
            &**before,
            &Pending::Next(*from, &**from_puts, *to, &**to_puts, &*rest),
            q,
        ),
    }
}

/// The reply of a term that has its replacements in its parts, and those still to be put into it.
#[cycle(replies)]
fn go_on<'a>(x: Origin<'a>, p: &'a Puts<'a>, rest: &'a Pending<'a>, q: Query) -> Reply
    ensures { result ≡ reply_to q ((after rest.now).under (node_term x.entry p.now)) }
{
    match rest {
        Pending::None => of_node(x, &*p, q),
        Pending::Next(from, from_puts, to, to_puts, more) => {
            if same_nodes(x, &*p, *from, &**from_puts) {
                go_on(*to, &**to_puts, &**more, q)
            } else {
                go_on(
                    x,
                    &Puts::More(&*p, *from, &**from_puts, *to, &**to_puts),
                    &**more,
                    q,
                )
            }
        }
    }
}

/// The reply of a term with replacements in its parts.
#[cycle(replies)]
fn of_node<'a>(x: Origin<'a>, p: &'a Puts<'a>, q: Query) -> Reply
    ensures { result ≡ reply_to q (node_term x.entry p.now) }
{
    match x.top() {
        Top::Sym(n) => of_symbol(q, n),
        Top::Lit(z) => of_literal(q, z),
        Top::Add(a, b) => {
            let first = read(a, &*p, &Pending::None, q);
            let second = read(b, &*p, &Pending::None, q);
            sum(first, second)
        }
        Top::Scale(k, a) => {
            let one = read(a, &*p, &Pending::None, q);
            multiple(k, one)
        }
        Top::App(_, all) => of_list(all.as_slice(), &*p, q),
        Top::RefSym(_) => of_nothing(q),
        Top::RefLit(_) => of_nothing(q),
        Top::Nil => of_nothing(q),
    }
}

/// The reply of the terms of a list, to which replacements are put.
#[cycle(replies)]
fn of_list<'a>(xs: &'a [Term], p: &'a Puts<'a>, q: Query) -> Reply
    ensures { result ≡ list_reply q (map (reply_to q) (map (under p.now) xs.now)) }
{
    match xs {
        [] => of_nothing(q),
        [x, more @ ..] => {
            let first = read(Origin::Whole(x), &*p, &Pending::None, q);
            if more.is_empty() {
                first
            } else {
                with_rest(first, of_list(more, &*p, q))
            }
        }
    }
}

/// The number of a side's linear form. There is none exactly where that of its term, or of a term
/// within it, is outside 128 bits.
pub fn figure<'a>(s: &'a Side<'a>, q: Figure) -> Option<i128>
    ensures { MatchOption result (¬ (FigureFits q (side_term s.now))) (λ z. FigureFits q (side_term s.now) × (z ≡ asked q (form_of (side_term s.now)))) }
{
    match of_node(s.origin, &s.puts, Query::Number(q)) {
        Reply::Number(z) => Some(z),
        Reply::Symbol(_) => None,
        Reply::None => None,
    }
}

/// The least number symbol of a side that is not below a number.
pub fn next_symbol<'a>(s: &'a Side<'a>, from: u64) -> Option<u32>
    ensures some { IfSome result (λ v. HasSymbol v (side_term s.now) × (from ≤ v) × ((w : ℕ) → HasSymbol w (side_term s.now) → from ≤ w → v ≤ w)) }
    ensures none { IfNone result ((w : ℕ) → HasSymbol w (side_term s.now) → ¬ (from ≤ w)) }
{
    match of_node(s.origin, &s.puts, Query::Next(from)) {
        Reply::Symbol(v) => Some(v),
        Reply::Number(_) => None,
        Reply::None => None,
    }
}
