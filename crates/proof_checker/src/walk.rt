// The applications that stand in a condition, one after the other.
ghost use Rattle.std.specs.Prelude.{◌≡◌, Bool, List, [], Some, None, MatchOption, ◌++◌, ◌∷◌};
ghost use Rattle.terms.specs.declared.Term.{Term};
ghost use Rattle.terms.specs.Fitting.{Application, sides_of, within_sides, terms_in};
ghost use Rattle.terms.specs.Sameness.{same_term};
ghost use Rattle.terms.specs.Within.{terms_within};
ghost use Rattle.proof_checker.specs.Conditions.{literals_of};
ghost use Rattle.proof_checker.specs.Views.{has};
ghost use Rattle.proof_checker.specs.Uses.{application_of, applied, applied_by, seen, terms_below, within_all, chosen_at, chosen_in, IsCounted, some_chosen};

use crate::condition::Condition;
use crate::origin::Origin;
use crate::puts::{Puts, stands};
use terms::{Literal, Term};

/// An application that stands in a condition.
#[derive(Clone, Copy)]
pub struct Use<'a> {
    pub operator: u16,
    pub operands: &'a [Term],
    pub result: &'a Term,
}

/// Terms that stand before another one.
#[derive(Clone, Copy)]
pub enum Before<'a> {
    None,
    /// Also the term itself.
    More(&'a Before<'a>, &'a Term),
    /// Also all terms within it.
    Within(&'a Before<'a>, &'a Term),
    /// Also those within the sides of a literal.
    Sides(&'a Before<'a>, &'a Literal),
}

/// The application of a number, or how far the number lies past them.
#[derive(Clone, Copy)]
pub enum Counted<'a> {
    Is(Use<'a>),
    Past(u32),
}

/// Which applications are to be counted.
pub trait Choice {
    ghost chooses: { Self → List Term → Term → Application → Bool };

    fn is_chosen<'a, 'b>(&self, before: &'b Before<'b>, t: &'a Term, u: Use<'a>) -> bool
        ensures { result ≡ chooses self.now (seen before.now) t.now (application_of u.entry) };
}

// The application of an operator to all but the last term.
fn with_result<'a>(operator: u16, all: &'a [Term]) -> Option<Use<'a>>
    ensures { MatchOption result (applied operator all.now ≡ None) (λ u. applied operator all.now ≡ Some (application_of u)) }
{
    match all {
        [] => None,
        [operands @ .., result] => Some(Use {
            operator,
            operands,
            result,
        }),
    }
}

/// The application that a term is.
fn use_of<'a>(t: &'a Term) -> Option<Use<'a>>
    ensures { MatchOption result (applied_by t.now ≡ None) (λ u. applied_by t.now ≡ Some (application_of u)) }
{
    match t {
        Term::App(operator, all) => with_result(*operator, all.as_slice()),
        _ => None,
    }
}

/// Whether two terms are one.
pub fn same_terms(a: &Term, b: &Term) -> bool
    ensures { result ≡ same_term a.now b.now }
{
    a.is_same(b)
}

/// Whether a term is another or stands within it.
fn stands_within<'a>(u: &'a Term, t: &'a Term) -> bool
    ensures { result ≡ has (terms_within u.now) t.now }
{
    stands(Origin::Whole(u), &Puts::None, Origin::Whole(t), &Puts::None)
}

/// The sides of a literal.
pub fn sides<'a>(l: &'a Literal) -> Option<(&'a Term, &'a Term)>
    ensures { MatchOption result (sides_of l.now ≡ None) (λ s. sides_of l.now ≡ Some (s.0.now, s.1.now)) }
{
    match l {
        Literal::AtMost(a, b) => Some((a, b)),
        Literal::Same(a, b) => Some((a, b)),
        Literal::Apart(a, b) => Some((a, b)),
        Literal::Flag(_, _) => None,
    }
}

fn stands_in_sides<'a>(l: &'a Literal, t: &'a Term) -> bool
    ensures { result ≡ has (within_sides (sides_of l.now)) t.now }
{
    match sides(l) {
        None => false,
        Some((a, b)) => {
            if stands_within(a, t) {
                true
            } else {
                stands_within(b, t)
            }
        }
    }
}

/// Whether a term stands before.
pub fn has_before<'a>(before: &'a Before<'a>, t: &'a Term) -> bool
    ensures { result ≡ has (seen before.now) t.now }
{
    match before {
        Before::None => false,
        Before::More(older, u) => {
            if same_terms(&**u, &*t) {
                true
            } else {
                has_before(&**older, &*t)
            }
        }
        Before::Within(older, u) => {
            if stands_within(&**u, &*t) {
                true
            } else {
                has_before(&**older, &*t)
            }
        }
        Before::Sides(older, l) => {
            if stands_in_sides(&**l, &*t) {
                true
            } else {
                has_before(&**older, &*t)
            }
        }
    }
}

// Counts the term itself.
fn count_here<'a, 'b, Q: Choice>(q: &Q, t: &'a Term, before: &'b Before<'b>, n: u32) -> Counted<'a>
    ensures { IsCounted (chosen_at (Q.chooses q.now (seen before.now) t.now) (applied_by t.now)) n result }
{
    match use_of(t) {
        None => Counted::Past(n),
        Some(found) => {
            if !q.is_chosen(&*before, t, found) {
                Counted::Past(n)
            } else if n == 0 {
                Counted::Is(found)
            } else {
                Counted::Past(n - 1)
            }
        }
    }
}

// Counts the term and those within it.
#[cycle(count)]
fn count<'a, 'b, Q: Choice>(q: &Q, t: &'a Term, before: &'b Before<'b>, n: u32) -> Counted<'a>
    ensures { IsCounted (chosen_in (Q.chooses q.now) (seen before.now) (terms_within t.now)) n result }
{
    match count_here(q, t, &*before, n) {
        Counted::Is(found) => Counted::Is(found),
        Counted::Past(left) => count_parts(q, t, &Before::More(&*before, t), left),
    }
}

// Counts those within the term.
#[cycle(count)]
fn count_parts<'a, 'b, Q: Choice>(q: &Q, t: &'a Term, before: &'b Before<'b>, n: u32) -> Counted<'a>
    ensures { IsCounted (chosen_in (Q.chooses q.now) (seen before.now) (terms_below t.now)) n result }
{
    match t {
        Term::Add(a, b) => count_two(q, a.get(), b.get(), &*before, n),
        Term::Scale(_, a) => count(q, a.get(), &*before, n),
        Term::App(_, all) => count_list(q, all.as_slice(), &*before, n),
        Term::Sym(_) => Counted::Past(n),
        Term::Lit(_) => Counted::Past(n),
        Term::RefSym(_) => Counted::Past(n),
        Term::RefLit(_) => Counted::Past(n),
        Term::Nil => Counted::Past(n),
    }
}

// Counts those within two terms.
#[cycle(count)]
fn count_two<'a, 'b, Q: Choice>(
    q: &Q,
    a: &'a Term,
    b: &'a Term,
    before: &'b Before<'b>,
    n: u32,
) -> Counted<'a>
    ensures { IsCounted (chosen_in (Q.chooses q.now) (seen before.now) (terms_within a.now ++ terms_within b.now)) n result }
{
    match count(q, a, &*before, n) {
        Counted::Is(found) => Counted::Is(found),
        Counted::Past(left) => count(q, b, &Before::Within(&*before, a), left),
    }
}

// Counts those within the terms of a list.
#[cycle(count)]
fn count_list<'a, 'b, Q: Choice>(
    q: &Q,
    ts: &'a [Term],
    before: &'b Before<'b>,
    n: u32,
) -> Counted<'a>
    ensures { IsCounted (chosen_in (Q.chooses q.now) (seen before.now) (within_all ts.now)) n result }
{
    match ts {
        [] => Counted::Past(n),
        [t, more @ ..] => match count(q, t, &*before, n) {
            Counted::Is(found) => Counted::Is(found),
            Counted::Past(left) => count_list(q, more, &Before::Within(&*before, t), left),
        },
    }
}

// Counts those of a literal.
fn count_sides<'a, 'b, Q: Choice>(
    q: &Q,
    l: &'a Literal,
    before: &'b Before<'b>,
    n: u32,
) -> Counted<'a>
    ensures { IsCounted (chosen_in (Q.chooses q.now) (seen before.now) (within_sides (sides_of l.now))) n result }
{
    match sides(l) {
        None => Counted::Past(n),
        Some((a, b)) => count_two(q, a, b, &*before, n),
    }
}

// Counts those of literals, and then of a last one.
fn count_literals<'a, 'b, Q: Choice>(
    q: &Q,
    ls: &'a [Literal],
    last: &'a Literal,
    before: &'b Before<'b>,
    n: u32,
) -> Counted<'a>
    ensures { IsCounted (chosen_in (Q.chooses q.now) (seen before.now) (terms_in (ls.now ++ last.now ∷ []))) n result }
{
    match ls {
        [] => count_sides(q, last, &*before, n),
        [l, more @ ..] => match count_sides(q, l, &*before, n) {
            Counted::Is(found) => Counted::Is(found),
            Counted::Past(left) => count_literals(q, more, last, &Before::Sides(&*before, l), left),
        },
    }
}

/// The chosen application of a number in a condition.
pub fn count_in<'a, Q: Choice>(q: &Q, c: &'a Condition, n: u32) -> Counted<'a>
    ensures { IsCounted (chosen_in (Q.chooses q.now) [] (terms_in (literals_of c.now))) n result }
{
    count_literals(q, c.hyps.as_slice(), &c.goal, &Before::None, n)
}

/// Whether an application of a condition is chosen.
pub fn is_any<Q: Choice>(q: &Q, c: &Condition) -> bool
    ensures { result ≡ some_chosen (chosen_in (Q.chooses q.now) [] (terms_in (literals_of c.now))) }
{
    match count_in(q, c, 0) {
        Counted::Is(_) => true,
        Counted::Past(_) => false,
    }
}
