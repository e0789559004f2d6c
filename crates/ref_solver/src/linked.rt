// Which terms are equal by one step.
ghost use Rattle.std.specs.Prelude.{◌≡◌};
ghost use Rattle.std.specs.List.{list_any};
ghost use Rattle.terms.specs.declared.Term.{out-Term};
ghost use Rattle.ref_solver.specs.Classes.{has, has_both, together, says, both_end, fronts_together, last_is, congruent, ends_in, linked, linked_to, linked_to_some, links};

use crate::same::same_term;
use sqlite_items::Items;
use terms::{Literal, Term};

pub(crate) fn has(t: &Term, class: &Items<Term>) -> bool
    ensures { result ≡ has t.now class.now }
{
    class.as_slice().iter().any(|u| same_term(t, u))
}

fn has_both(s: &Term, t: &Term, class: &Items<Term>) -> bool
    ensures { result ≡ has_both s.now t.now class.now }
{
    has(s, class) && has(t, class)
}

pub(crate) fn together(classes: &[Items<Term>], s: &Term, t: &Term) -> bool
    ensures { result ≡ together classes.now s.now t.now }
{
    classes.iter().any(|class| has_both(s, t, class))
}

fn says(s: &Term, t: &Term, l: &Literal) -> bool
    ensures { result ≡ says s.now t.now l.now }
{
    match l {
        Literal::Same(a, b) => same_term(s, a) && same_term(t, b),
        _ => false,
    }
}

fn is_said(lits: &[Literal], s: &Term, t: &Term) -> bool
    ensures { result ≡ list_any (says s.now t.now) lits.now }
{
    lits.iter().any(|l| says(s, t, l))
}

fn both_end(xs: &[Term], ys: &[Term]) -> bool
    ensures { result ≡ both_end xs.now ys.now }
{
    match xs {
        [] => match ys {
            [] => true,
            [_, ..] => false,
        },
        [_, ..] => false,
    }
}

fn fronts_together(classes: &[Items<Term>], xs: &[Term], ys: &[Term]) -> bool
    ensures { result ≡ fronts_together classes.now xs.now ys.now }
{
    match xs {
        [x, more @ ..] => match ys {
            [y, others @ ..] => {
                both_end(more, others)
                    || together(classes, x, y) && fronts_together(classes, more, others)
            }
            [] => false,
        },
        [] => false,
    }
}

fn last_is(t: &Term, xs: &[Term]) -> bool
    ensures { result ≡ last_is t.now xs.now }
{
    match xs {
        [x, more @ ..] => both_end(more, &[]) && same_term(t, x) || last_is(t, more),
        [] => false,
    }
}

fn ends_in(t: &Term, s: &Term) -> bool
    ensures { result ≡ ends_in t.now (out-Term s.now) }
{
    match s {
        Term::App(_, all) => last_is(t, all.as_slice()),
        _ => false,
    }
}

fn congruent(classes: &[Items<Term>], s: &Term, t: &Term) -> bool
    ensures { result ≡ congruent classes.now (out-Term s.now) (out-Term t.now) }
{
    match s {
        Term::Add(a, b) => match t {
            Term::Add(c, d) => {
                together(classes, a.get(), c.get()) && together(classes, b.get(), d.get())
            }
            _ => false,
        },
        Term::Scale(k, a) => match t {
            Term::Scale(l, b) => *k == *l && together(classes, a.get(), b.get()),
            _ => false,
        },
        Term::App(p, xs) => match t {
            Term::App(q, ys) => *p == *q && fronts_together(classes, xs.as_slice(), ys.as_slice()),
            _ => false,
        },
        Term::Nil => match t {
            Term::RefLit(n) => *n == 0,
            _ => false,
        },
        _ => false,
    }
}

fn linked(lits: &[Literal], classes: &[Items<Term>], s: &Term, t: &Term) -> bool
    ensures { result ≡ linked lits.now classes.now s.now t.now }
{
    is_said(lits, s, t) || ends_in(t, s) || congruent(classes, s, t)
}

fn linked_to(lits: &[Literal], classes: &[Items<Term>], s: &Term, t: &Term) -> bool
    ensures { result ≡ linked_to lits.now classes.now s.now t.now }
{
    linked(lits, classes, s, t) || linked(lits, classes, t, s)
}

fn linked_to_some(lits: &[Literal], classes: &[Items<Term>], d: &Items<Term>, s: &Term) -> bool
    ensures { result ≡ linked_to_some lits.now classes.now d.now s.now }
{
    d.as_slice().iter().any(|t| linked_to(lits, classes, s, t))
}

pub(crate) fn links(
    lits: &[Literal],
    classes: &[Items<Term>],
    c: &Items<Term>,
    d: &Items<Term>,
) -> bool
    ensures { result ≡ links lits.now classes.now c.now d.now }
{
    c.as_slice()
        .iter()
        .any(|s| linked_to_some(lits, classes, d, s))
}
