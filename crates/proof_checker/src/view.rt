// Literals that aren't built.
ghost use Rattle.std.specs.Prelude.{◌≡◌, ◌↔◌, ◌⊎◌, IsTrue};
ghost use Rattle.terms.specs.declared.Literal.{Literal};
ghost use Rattle.proof_checker.specs.declared.view.Kind.TheVariants as kind;
ghost use Rattle.proof_checker.specs.Conditions.{plain_literal};
ghost use Rattle.proof_checker.specs.Derivations.{turned, IsOpposite, IsFalse, StandsIn, Replaced};
ghost use Rattle.proof_checker.specs.Replacing.{put_in};
ghost use Rattle.proof_checker.specs.Chains.{side_term, compared, view_literal};

use crate::side::{
    Side, is_one_more, put_in_side, reference_number, same_sides, stands_in_side, whole,
};
use terms::Literal;

/// What a literal says of its sides.
#[derive(Clone, Copy, PartialEq, Eq)]
pub enum Kind {
    AtMost,
    Same,
    Apart,
}

/// A literal whose sides aren't built.
#[derive(Clone, Copy)]
pub enum View<'a> {
    Sides(Kind, Side<'a>, Side<'a>),
    Flag(u32, bool),
}

/// A literal as an assumption.
pub fn view_of<'a>(l: &'a Literal) -> View<'a>
    ensures { view_literal result ≡ plain_literal l.now }
{
    match l {
        Literal::AtMost(a, b) => View::Sides(Kind::AtMost, whole(a), whole(b)),
        Literal::Same(a, b) => View::Sides(Kind::Same, whole(a), whole(b)),
        Literal::Apart(a, b) => View::Sides(Kind::Apart, whole(a), whole(b)),
        Literal::Flag(n, held) => View::Flag(*n, *held),
    }
}

fn same_kinds(k: Kind, l: Kind) -> bool
    ensures { IsTrue result ↔ (k ≡ l) }
{
    k == l
}

/// Whether two literals are one.
pub fn same_views<'a>(v: &'a View<'a>, w: &'a View<'a>) -> bool
    ensures { IsTrue result ↔ (view_literal v.now ≡ view_literal w.now) }
{
    match (v, w) {
        (View::Sides(k, a, b), View::Sides(l, c, d)) => {
            same_kinds(*k, *l) && same_sides(a, c) && same_sides(b, d)
        }
        (View::Flag(m, a), View::Flag(n, b)) => *m == *n && *a == *b,
        _ => false,
    }
}

/// Whether the second is the opposite of the first, its sides in either order.
pub fn is_opposite<'a>(l: &'a View<'a>, k: &'a View<'a>) -> bool
    ensures { IsTrue result ↔ IsOpposite (view_literal l.now) (view_literal k.now) }
{
    match (l, k) {
        (View::Sides(Kind::AtMost, a, b), View::Sides(Kind::AtMost, c, d)) => {
            is_one_more(c, b) && same_sides(d, a)
        }
        (View::Sides(Kind::Same, a, b), View::Sides(Kind::Apart, c, d)) => {
            same_pairs(a, b, c, d)
        }
        (View::Sides(Kind::Apart, a, b), View::Sides(Kind::Same, c, d)) => {
            same_pairs(a, b, c, d)
        }
        (View::Flag(m, a), View::Flag(n, b)) => *m == *n && *a != *b,
        _ => false,
    }
}

/// Whether two pairs of sides are the same, in either order.
fn same_pairs<'a>(a: &'a Side<'a>, b: &'a Side<'a>, c: &'a Side<'a>, d: &'a Side<'a>) -> bool
    ensures { IsTrue result ↔ ((side_term c.now ≡ side_term a.now) × (side_term d.now ≡ side_term b.now)) ⊎ ((side_term c.now ≡ side_term b.now) × (side_term d.now ≡ side_term a.now)) }
{
    if same_places(a, b, c, d) {
        true
    } else {
        same_places(b, a, c, d)
    }
}

fn same_places<'a>(a: &'a Side<'a>, b: &'a Side<'a>, c: &'a Side<'a>, d: &'a Side<'a>) -> bool
    ensures { IsTrue result ↔ ((side_term c.now ≡ side_term a.now) × (side_term d.now ≡ side_term b.now)) }
{
    same_sides(c, a) && same_sides(d, b)
}

/// Whether a literal is false by itself.
pub fn is_false<'a>(l: &'a View<'a>) -> bool
    ensures { IsTrue result ↔ IsFalse (view_literal l.now) }
{
    match l {
        View::Sides(k, a, b) => is_false_of(*k, a, b),
        View::Flag(_, _) => false,
    }
}

fn is_false_of<'a>(k: Kind, a: &'a Side<'a>, b: &'a Side<'a>) -> bool
    ensures { IsTrue result ↔ IsFalse (compared k (side_term a.now) (side_term b.now)) }
{
    match k {
        Kind::AtMost => false,
        Kind::Same => are_two_numbers(a, b),
        Kind::Apart => same_sides(a, b),
    }
}

/// Whether two sides are two reference numbers.
fn are_two_numbers<'a>(a: &'a Side<'a>, b: &'a Side<'a>) -> bool
    ensures { IsTrue result ↔ IsFalse (compared kind.Same (side_term a.now) (side_term b.now)) }
{
    match reference_number(a) {
        None => false,
        Some(m) => match reference_number(b) {
            None => false,
            Some(n) => m != n,
        },
    }
}

/// A literal with one term put everywhere for another.
pub fn put_in_view<'a>(from: &'a Side<'a>, to: &'a Side<'a>, v: &'a View<'a>) -> View<'a>
    ensures { view_literal result ≡ put_in (side_term from.now) (side_term to.now) (view_literal v.now) }
{
    match v {
        View::Sides(k, a, b) => View::Sides(*k, put_in_side(from, to, a), put_in_side(from, to, b)),
        View::Flag(n, held) => View::Flag(*n, *held),
    }
}

/// Whether a term stands in a literal.
pub fn stands_in_view<'a>(a: &'a Side<'a>, v: &'a View<'a>) -> bool
    ensures { IsTrue result ↔ StandsIn (side_term a.now) (view_literal v.now) }
{
    match v {
        View::Sides(_, b, c) => {
            if stands_in_side(a, b) {
                true
            } else {
                stands_in_side(a, c)
            }
        }
        View::Flag(_, _) => false,
    }
}

/// A literal with an equality put into it: the right side for the left one, where that stands in the
/// literal, else the left side for the right one.
pub fn replaced<'a>(a: &'a Side<'a>, b: &'a Side<'a>, v: &'a View<'a>) -> View<'a>
    ensures { (k : Literal) → Replaced (side_term a.now) (side_term b.now) (view_literal v.now) k ↔ (k ≡ view_literal result) }
{
    if stands_in_view(a, v) {
        put_in_view(a, b, v)
    } else {
        put_in_view(b, a, v)
    }
}
