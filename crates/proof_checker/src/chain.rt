// The assumptions of a derivation, on the stack.
ghost use Rattle.std.specs.Prelude.{◌≡◌, ◌↔◌, IsTrue, Contains};
ghost use Rattle.terms.specs.declared.Literal.TheVariants as lit;
ghost use Rattle.proof_checker.specs.Conditions.{plain};
ghost use Rattle.proof_checker.specs.Derivations.{Assumed};
ghost use Rattle.proof_checker.specs.Chains.{compared, facts, view_literal, IsFound};

use crate::side::whole;
use crate::view::{Kind, View, same_views};
use terms::Term;

/// The assumptions, the newest one at the head.
#[derive(Clone, Copy)]
pub enum Chain<'a> {
    First,
    More(&'a Chain<'a>, View<'a>),
}

/// An assumption, or how far a number lies past the assumptions.
#[derive(Clone, Copy)]
pub enum Found<'a> {
    Is(&'a View<'a>),
    Past(u32),
}

/// The assumption of a number.
pub fn find<'a>(chain: &'a Chain<'a>, n: u32) -> Found<'a>
    ensures { IsFound (facts chain.now) n result }
{
    match chain {
        Chain::First => Found::Past(n),
        Chain::More(before, view) => {
            match find(&**before, n) {
                Found::Is(found) => Found::Is(found),
                Found::Past(left) => if left == 0 {
                    Found::Is(&*view)
                } else {
                    Found::Past(left - 1)
                },
            }
        }
    }
}

/// Whether a literal is one of the assumptions.
pub fn contains<'a>(chain: &'a Chain<'a>, v: &'a View<'a>) -> bool
    ensures { IsTrue result ↔ Contains (facts chain.now) (view_literal v.now) }
{
    match chain {
        Chain::First => false,
        Chain::More(before, view) => {
            if same_views(&*view, &*v) {
                true
            } else {
                contains(&**before, &*v)
            }
        }
    }
}

// Two terms as the sides of an assumption.
fn pair<'a>(kind: Kind, a: &'a Term, b: &'a Term) -> View<'a>
    ensures { view_literal result ≡ compared kind (plain a.now) (plain b.now) }
{
    View::Sides(kind, whole(a), whole(b))
}

fn is_there<'a>(chain: &'a Chain<'a>, kind: Kind, a: &'a Term, b: &'a Term) -> bool
    ensures { IsTrue result ↔ Contains (facts chain.now) (compared kind (plain a.now) (plain b.now)) }
{
    contains(&*chain, &pair(kind, &*a, &*b))
}

/// Whether two terms are assumed to be the same, in either order.
pub fn are_assumed_same<'a>(chain: &'a Chain<'a>, a: &'a Term, b: &'a Term) -> bool
    ensures { IsTrue result ↔ Assumed (facts chain.now) (lit.Same a.now b.now) }
{
    if is_there(&*chain, Kind::Same, &*a, &*b) {
        true
    } else {
        is_there(&*chain, Kind::Same, &*b, &*a)
    }
}

/// Whether two terms are assumed to be apart, in either order.
pub fn are_assumed_apart<'a>(chain: &'a Chain<'a>, a: &'a Term, b: &'a Term) -> bool
    ensures { IsTrue result ↔ Assumed (facts chain.now) (lit.Apart a.now b.now) }
{
    if is_there(&*chain, Kind::Apart, &*a, &*b) {
        true
    } else {
        is_there(&*chain, Kind::Apart, &*b, &*a)
    }
}
