// Terms into which others are put, read without building them.
ghost use Rattle.std.specs.Prelude.{◌≡◌, map};
ghost use Rattle.terms.specs.Sameness.{same_term, same_all};
ghost use Rattle.terms.specs.Sorts.{of_numbers, every};
ghost use Rattle.terms.specs.Within.{terms_within, joined};
ghost use Rattle.proof_checker.specs.Views.{origin_term, node_term, under, question, has};

use crate::origin::{Origin, Top};
use terms::Term;

/// Replacements, the newest one at the head: a term that is to be replaced, and what is put for it. Of
/// both the term stands there with replacements in its parts.
#[derive(Clone, Copy)]
pub enum Puts<'a> {
    None,
    More(&'a Puts<'a>, Origin<'a>, &'a Puts<'a>, Origin<'a>, &'a Puts<'a>),
}

/// What is to be done with a term that is being read.
#[derive(Clone, Copy)]
pub enum Todo<'a> {
    /// A replacement, and what is to be done then.
    Put(Origin<'a>, &'a Puts<'a>, Origin<'a>, &'a Puts<'a>, &'a Todo<'a>),
    /// To be compared with a term that has these replacements.
    Then(Origin<'a>, &'a Puts<'a>),
    /// To be compared with a term that has these replacements in its parts.
    With(Origin<'a>, &'a Puts<'a>),
    /// Whether a term that has these replacements in its parts stands in it.
    Stands(Origin<'a>, &'a Puts<'a>),
    /// Whether it is of numbers.
    Numbers,
}

/// Whether two terms are one, each with its replacements in its parts.
#[cycle(views)]
pub fn same_nodes<'a>(x: Origin<'a>, p: &'a Puts<'a>, y: Origin<'a>, q: &'a Puts<'a>) -> bool
    ensures { result ≡ same_term (node_term x.entry p.now) (node_term y.entry q.now) }
{
    match (x.top(), y.top()) {
        (Top::Sym(m), Top::Sym(n)) => m == n,
        (Top::Lit(m), Top::Lit(n)) => m == n,
        (Top::Add(a, b), Top::Add(c, d)) => {
            same_under(a, &*p, c, &*q) && same_under(b, &*p, d, &*q)
        }
        (Top::Scale(k, a), Top::Scale(l, c)) => k == l && same_under(a, &*p, c, &*q),
        (Top::App(f, xs), Top::App(g, ys)) => {
            f == g && same_lists(xs.as_slice(), &*p, ys.as_slice(), &*q)
        }
        (Top::RefSym(m), Top::RefSym(n)) => m == n,
        (Top::RefLit(m), Top::RefLit(n)) => m == n,
        (Top::Nil, Top::Nil) => true,
        _ => false,
    }
}

/// Whether two terms are one, each with its replacements.
#[cycle(views)]
fn same_under<'a>(x: Origin<'a>, p: &'a Puts<'a>, y: Origin<'a>, q: &'a Puts<'a>) -> bool
    ensures { result ≡ same_term (under p.now (origin_term x.entry)) (under q.now (origin_term y.entry)) }
{
    apply(x, &*p, &Todo::Then(y, &*q))
}

/// Whether the terms of two lists are the same, place by place, each with its replacements.
#[cycle(views)]
fn same_lists<'a>(xs: &'a [Term], p: &'a Puts<'a>, ys: &'a [Term], q: &'a Puts<'a>) -> bool
    ensures { result ≡ same_all (map same_term (map (under p.now) xs.now)) (map (under q.now) ys.now) }
{
    match xs {
        [] => ys.is_empty(),
        [x, more @ ..] => match ys {
            [] => false,
            [y, others @ ..] => {
                same_under(Origin::Whole(x), &*p, Origin::Whole(y), &*q)
                    && same_lists(more, &*p, others, &*q)
            }
        },
    }
}

/// What is to be done, with the replacements put into the term before it.
#[cycle(views)]
pub fn apply<'a>(x: Origin<'a>, p: &'a Puts<'a>, todo: &'a Todo<'a>) -> bool
    ensures { result ≡ (question todo.now).answer (under p.now (origin_term x.entry)) }
{
    match p {
        Puts::None => finish(x, &Puts::None, &*todo),
        Puts::More(before, from, from_puts, to, to_puts) => apply(
            x,
            &**before,
            &Todo::Put(*from, &**from_puts, *to, &**to_puts, &*todo),
        ),
    }
}

/// What is to be done with a term that has its replacements in its parts.
#[cycle(views)]
fn finish<'a>(x: Origin<'a>, p: &'a Puts<'a>, todo: &'a Todo<'a>) -> bool
    ensures { result ≡ (question todo.now).answer (node_term x.entry p.now) }
{
    match todo {
        Todo::Put(from, from_puts, to, to_puts, rest) => {
            if same_nodes(x, &*p, *from, &**from_puts) {
                finish(*to, &**to_puts, &**rest)
            } else {
                finish(
                    x,
                    &Puts::More(&*p, *from, &**from_puts, *to, &**to_puts),
                    &**rest,
                )
            }
        }
        Todo::Then(y, q) => apply(*y, &**q, &Todo::With(x, &*p)),
        Todo::With(y, q) => same_nodes(*y, &**q, x, &*p),
        Todo::Stands(a, q) => stands(x, &*p, *a, &**q),
        Todo::Numbers => is_of_numbers(x, &*p),
    }
}

/// Whether a term stands in another, each with its replacements in its parts.
#[cycle(views)]
pub fn stands<'a>(x: Origin<'a>, p: &'a Puts<'a>, a: Origin<'a>, q: &'a Puts<'a>) -> bool
    ensures { result ≡ has (terms_within (node_term x.entry p.now)) (node_term a.entry q.now) }
{
    if same_nodes(x, &*p, a, &*q) {
        true
    } else {
        match x.top() {
            Top::Add(b, c) => {
                let first = apply(b, &*p, &Todo::Stands(a, &*q));
                first || apply(c, &*p, &Todo::Stands(a, &*q))
            }
            Top::Scale(_, b) => apply(b, &*p, &Todo::Stands(a, &*q)),
            Top::App(_, all) => stands_in_list(all.as_slice(), &*p, a, &*q),
            Top::Sym(_) => false,
            Top::Lit(_) => false,
            Top::RefSym(_) => false,
            Top::RefLit(_) => false,
            Top::Nil => false,
        }
    }
}

/// Whether a term stands in one of a list, to which replacements are put.
#[cycle(views)]
fn stands_in_list<'a>(xs: &'a [Term], p: &'a Puts<'a>, a: Origin<'a>, q: &'a Puts<'a>) -> bool
    ensures { result ≡ has (joined (map terms_within (map (under p.now) xs.now))) (node_term a.entry q.now) }
{
    match xs {
        [] => false,
        [x, more @ ..] => {
            let first = apply(Origin::Whole(x), &*p, &Todo::Stands(a, &*q));
            first || stands_in_list(more, &*p, a, &*q)
        }
    }
}

/// Whether a term with replacements in its parts is of numbers.
#[cycle(views)]
pub fn is_of_numbers<'a>(x: Origin<'a>, p: &'a Puts<'a>) -> bool
    ensures { result ≡ of_numbers (node_term x.entry p.now) }
{
    match x.top() {
        Top::Sym(_) => true,
        Top::Lit(_) => true,
        Top::Add(a, b) => apply(a, &*p, &Todo::Numbers) && apply(b, &*p, &Todo::Numbers),
        Top::Scale(_, a) => apply(a, &*p, &Todo::Numbers),
        Top::App(_, all) => !all.is_empty() && are_of_numbers(all.as_slice(), &*p),
        Top::RefSym(_) => false,
        Top::RefLit(_) => false,
        Top::Nil => false,
    }
}

/// Whether the terms of a list, to which replacements are put, are of numbers.
#[cycle(views)]
fn are_of_numbers<'a>(xs: &'a [Term], p: &'a Puts<'a>) -> bool
    ensures { result ≡ every (map of_numbers (map (under p.now) xs.now)) }
{
    match xs {
        [] => true,
        [x, more @ ..] => {
            apply(Origin::Whole(x), &*p, &Todo::Numbers) && are_of_numbers(more, &*p)
        }
    }
}
