// The literals that splits and replacements add to the assumptions.
ghost use Rattle.std.specs.Prelude.{◌≡◌, ◌↔◌, ◌⊎◌, pos, IsTrue, MatchOption};
ghost use Rattle.terms.specs.declared.Term.{Term, Lit};
ghost use Rattle.terms.specs.declared.Literal.TheVariants as lit;
ghost use Rattle.proof_checker.specs.Conditions.{plain_literal, plus_one};
ghost use Rattle.proof_checker.specs.Derivations.{AreNumbers, AreReferences, ArePair, SplitsApart};
ghost use Rattle.proof_checker.specs.Chains.{compared, facts, side_term, view_literal};
ghost use Rattle.proof_checker.specs.Additions.{Finds, IsOtherSide, IsPutInto, IsReplacement};

use crate::chain::{Chain, Found, are_assumed_apart, find};
use crate::condition::Condition;
use crate::pairs::are_pair;
use crate::side::{Side, one_more, whole};
use crate::view::{Kind, View, replaced};
use terms::{Literal, Term};

fn are_numbers(a: &Term, b: &Term) -> bool
    ensures { IsTrue result ↔ AreNumbers a.now b.now }
{
    a.is_of_numbers() && b.is_of_numbers()
}

fn are_references(a: &Term, b: &Term) -> bool
    ensures { IsTrue result ↔ AreReferences a.now b.now }
{
    a.is_of_references() && b.is_of_references()
}

fn is_unit(t: &Term) -> bool
    ensures { IsTrue result ↔ (t.now ≡ Lit (pos 1)) }
{
    match t {
        Term::Lit(z) => *z == 1,
        _ => false,
    }
}

/// The term to which a term adds one unit.
fn one_less<'a>(t: &'a Term) -> Option<&'a Term>
    ensures { MatchOption result ((x : Term) → ¬ (t.now ≡ plus_one x)) (λ x. t.now ≡ plus_one x.now) }
{
    match t {
        Term::Add(x, y) => if is_unit(y.get()) {
            Some(x.get())
        } else {
            None
        },
        _ => None,
    }
}

/// The term below the first one that is assumed to be apart from the second.
fn split_apart<'a>(chain: &'a Chain<'a>, first: &'a Term, b: &'a Term) -> Option<&'a Term>
    ensures { MatchOption result ((x : Term) → ¬ (SplitsApart (facts chain.now) first.now x b.now)) (λ x. SplitsApart (facts chain.now) first.now x.now b.now) }
{
    match one_less(first) {
        None => None,
        Some(x) => if are_assumed_apart(chain, x, b) {
            Some(x)
        } else {
            None
        },
    }
}

/// `b + 1 <= a`.
pub fn turned_order<'a>(a: &'a Term, b: &'a Term) -> View<'a>
    ensures { view_literal result ≡ plain_literal (lit.AtMost (plus_one b.now) a.now) }
{
    View::Sides(Kind::AtMost, one_more(b), whole(a))
}

/// The other side of a split on `a <= b`.
fn other_order<'a>(
    c: &'a Condition,
    chain: &'a Chain<'a>,
    a: &'a Term,
    b: &'a Term,
) -> Option<View<'a>>
    ensures { Finds (IsOtherSide c.now (facts chain.now) (lit.AtMost a.now b.now)) result }
{
    if !are_numbers(a, b) {
        return None;
    }
    match split_apart(chain, a, b) {
        Some(x) => Some(turned_order(x, b)),
        None => if are_pair(c, a, b) {
            Some(turned_order(a, b))
        } else {
            None
        },
    }
}

/// Whether a split may be on the equality of two terms.
fn may_be_same(c: &Condition, a: &Term, b: &Term) -> bool
    ensures { IsTrue result ↔ (AreReferences a.now b.now ⊎ (AreNumbers a.now b.now × ArePair c.now a.now b.now)) }
{
    if are_references(a, b) {
        true
    } else {
        are_numbers(a, b) && are_pair(c, a, b)
    }
}

/// The literal of the other side of a split.
#[inline(never)]
pub fn other_side<'a>(c: &'a Condition, chain: &'a Chain<'a>, l: &'a Literal) -> Option<View<'a>>
    ensures { Finds (IsOtherSide c.now (facts chain.now) l.now) result }
{
    match l {
        Literal::AtMost(a, b) => other_order(c, chain, a, b),
        Literal::Same(a, b) => if may_be_same(c, a, b) {
            Some(View::Sides(Kind::Apart, whole(a), whole(b)))
        } else {
            None
        },
        Literal::Apart(a, b) => if are_references(a, b) {
            Some(View::Sides(Kind::Same, whole(a), whole(b)))
        } else {
            None
        },
        Literal::Flag(n, held) => Some(View::Flag(*n, !*held)),
    }
}

fn put_sides<'a>(
    kind: Kind,
    a: &'a Side<'a>,
    b: &'a Side<'a>,
    into: &'a View<'a>,
) -> Option<View<'a>>
    ensures { Finds (IsPutInto (compared kind (side_term a.now) (side_term b.now)) (view_literal into.now)) result }
{
    match kind {
        Kind::AtMost => None,
        Kind::Same => Some(replaced(a, b, into)),
        Kind::Apart => None,
    }
}

/// A literal with an equality put into it.
fn put_equality<'a>(equality: &'a View<'a>, into: &'a View<'a>) -> Option<View<'a>>
    ensures { Finds (IsPutInto (view_literal equality.now) (view_literal into.now)) result }
{
    match equality {
        View::Sides(kind, a, b) => put_sides(*kind, a, b, into),
        View::Flag(_, _) => None,
    }
}

/// The second assumption with the equality that is the first put into it.
#[inline(never)]
pub fn replacement<'a>(chain: &'a Chain<'a>, i: u32, j: u32) -> Option<View<'a>>
    ensures { Finds (IsReplacement (facts chain.now) i j) result }
{
    match find(chain, i) {
        Found::Past(_) => None,
        Found::Is(equality) => match find(chain, j) {
            Found::Past(_) => None,
            Found::Is(into) => put_equality(equality, into),
        },
    }
}
