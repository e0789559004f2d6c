// Rules of derivations over the assumptions.
ghost use Rattle.std.specs.Prelude.{◌≡◌, ◌↔◌, ◌⊎◌, true, IsTrue};
ghost use Rattle.terms.specs.declared.Literal.TheVariants as lit;
ghost use Rattle.proof_checker.specs.Conditions.{plain};
ghost use Rattle.proof_checker.specs.Derivations.{AreEqual, Assumed, IsFalse, IsOpposite};
ghost use Rattle.proof_checker.specs.Chains.{Clashes, facts, view_literal};

use crate::chain::{Chain, Found, are_assumed_same, find};
use crate::side::{same_sides, whole};
use crate::view::{View, is_false, is_opposite};
use terms::Term;

/// Whether two assumptions are opposites, or one is false by itself.
#[inline(never)]
pub fn do_clash<'a>(chain: &'a Chain<'a>, i: u32, j: u32) -> bool
    ensures { IsTrue result ↔ Clashes (facts chain.now) i j }
{
    match find(&*chain, i) {
        Found::Past(_) => false,
        Found::Is(l) => match find(&*chain, j) {
            Found::Past(_) => false,
            Found::Is(k) => are_clashing(&*l, &*k, i == j),
        },
    }
}

fn are_clashing<'a>(l: &'a View<'a>, k: &'a View<'a>, same: bool) -> bool
    ensures { IsTrue result ↔ (IsOpposite (view_literal l.now) (view_literal k.now) ⊎ IsOpposite (view_literal k.now) (view_literal l.now)) ⊎ ((same ≡ true) × IsFalse (view_literal l.now)) }
{
    if are_opposites(&*l, &*k) {
        true
    } else if same {
        is_false(&*l)
    } else {
        false
    }
}

fn are_opposites<'a>(l: &'a View<'a>, k: &'a View<'a>) -> bool
    ensures { IsTrue result ↔ (IsOpposite (view_literal l.now) (view_literal k.now) ⊎ IsOpposite (view_literal k.now) (view_literal l.now)) }
{
    if is_opposite(&*l, &*k) {
        true
    } else {
        is_opposite(&*k, &*l)
    }
}

fn is_equal<'a>(chain: &'a Chain<'a>, a: &'a Term, b: &'a Term) -> bool
    ensures { IsTrue result ↔ (plain a.now ≡ plain b.now) ⊎ Assumed (facts chain.now) (lit.Same a.now b.now) }
{
    let left = whole(&*a);
    let right = whole(&*b);
    if same_sides(&left, &right) {
        true
    } else {
        are_assumed_same(&*chain, &*a, &*b)
    }
}

/// Whether the terms of two lists are one term or assumed to be the same, place by place.
pub fn are_equal<'a>(chain: &'a Chain<'a>, xs: &'a [Term], ys: &'a [Term]) -> bool
    ensures { IsTrue result ↔ AreEqual (facts chain.now) xs.now ys.now }
{
    match xs {
        [] => ys.is_empty(),
        [x, more @ ..] => match ys {
            [] => false,
            [y, others @ ..] => {
                is_equal(&*chain, &*x, &*y) && are_equal(&*chain, &*more, &*others)
            }
        },
    }
}
