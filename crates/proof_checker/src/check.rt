// Whether a derivation derives a condition. Each way is a call that isn't inlined, and so are the rules that it applies: a level
// of nesting then takes at most about 500 bytes of the stack.
ghost use Rattle.std.specs.Prelude.{◌≡◌, ◌↔◌, ◌∷◌, ◌++◌, [], map, IsTrue};
ghost use Rattle.terms.specs.Meanings.{Valued};
ghost use Rattle.proof_checker.specs.Conditions.{HoldsAt, IsSorted, opposite, plain_literal};
ghost use Rattle.proof_checker.specs.Derivations.{Derives, DerivesFrom};
ghost use Rattle.proof_checker.specs.Chains.{facts, view_literal};
ghost use Rattle.proof_checker.specs.Additions.{DerivesWith, IsOtherSide, IsReplacement};
ghost use Rattle.proof_checker.specs.Uses.{Congruence};

use crate::chain::Chain;
use crate::combos::is_combination;
use crate::condition::Condition;
use crate::derivation::Derivation;
use crate::rules::do_clash;
use crate::side::whole;
use crate::splits::{other_side, replacement, turned_order};
use crate::uses::congruence;
use crate::view::{Kind, View, view_of};
use terms::Literal;

/// Whether a derivation derives a condition from assumptions.
#[cycle(derivations)]
#[inline(never)]
fn derives_from<'a>(d: &'a Derivation, c: &'a Condition, chain: &'a Chain<'a>) -> bool
    ensures { IsTrue result ↔ DerivesFrom c.now (facts chain.now) d.now }
{
    match d {
        Derivation::Split(l, held, other) => {
            derives_with(held.get(), c, &*chain, l) && derives_without(other.get(), c, &*chain, l)
        }
        Derivation::Replace(i, j, rest) => derives_replaced(rest.get(), c, &*chain, *i, *j),
        Derivation::Congruent(i, j, rest) => derives_applied(rest.get(), c, &*chain, *i, *j),
        Derivation::Clash(i, j) => do_clash(&*chain, *i, *j),
        Derivation::Combine(steps) => is_combination(&*chain, steps.as_slice()),
    }
}

/// Whether it does so with an assumption added.
#[cycle(derivations)]
#[inline(always)]
fn derives_adding<'a>(
    d: &'a Derivation,
    c: &'a Condition,
    chain: &'a Chain<'a>,
    view: View<'a>,
) -> bool
    ensures { IsTrue result ↔ DerivesFrom c.now (facts chain.now ++ view_literal view.entry ∷ []) d.now }
{
    derives_from(d, c, &Chain::More(&*chain, view))
}

/// Whether it does so with a literal added.
#[cycle(derivations)]
#[inline(never)]
fn derives_with<'a>(
    d: &'a Derivation,
    c: &'a Condition,
    chain: &'a Chain<'a>,
    l: &'a Literal,
) -> bool
    ensures { IsTrue result ↔ DerivesFrom c.now (facts chain.now ++ plain_literal l.now ∷ []) d.now }
{
    derives_adding(d, c, &*chain, view_of(l))
}

/// Whether it does so with the other side of a split on a literal added.
#[cycle(derivations)]
#[inline(never)]
fn derives_without<'a>(
    d: &'a Derivation,
    c: &'a Condition,
    chain: &'a Chain<'a>,
    l: &'a Literal,
) -> bool
    ensures { IsTrue result ↔ DerivesWith c.now (facts chain.now) (IsOtherSide c.now (facts chain.now) l.now) d.now }
{
    match other_side(c, &*chain, l) {
        None => false,
        Some(k) => derives_adding(d, c, &*chain, k),
    }
}

/// Whether it does so with a replacement added.
#[cycle(derivations)]
#[inline(never)]
fn derives_replaced<'a>(
    d: &'a Derivation,
    c: &'a Condition,
    chain: &'a Chain<'a>,
    i: u32,
    j: u32,
) -> bool
    ensures { IsTrue result ↔ DerivesWith c.now (facts chain.now) (IsReplacement (facts chain.now) i j) d.now }
{
    match replacement(&*chain, i, j) {
        None => false,
        Some(k) => derives_adding(d, c, &*chain, k),
    }
}

/// Whether it does so with the equality of two applications' results added.
#[cycle(derivations)]
#[inline(never)]
fn derives_applied<'a>(
    d: &'a Derivation,
    c: &'a Condition,
    chain: &'a Chain<'a>,
    i: u32,
    j: u32,
) -> bool
    ensures { IsTrue result ↔ DerivesWith c.now (facts chain.now) (Congruence c.now (facts chain.now) i j) d.now }
{
    match congruence(c, &*chain, i, j) {
        None => false,
        Some(k) => derives_adding(d, c, &*chain, k),
    }
}

/// The opposite of a literal as an assumption.
fn opposite_view<'a>(l: &'a Literal) -> View<'a>
    ensures { view_literal result ≡ plain_literal (opposite l.now) }
{
    match l {
        Literal::AtMost(a, b) => turned_order(a, b),
        Literal::Same(a, b) => View::Sides(Kind::Apart, whole(a), whole(b)),
        Literal::Apart(a, b) => View::Sides(Kind::Same, whole(a), whole(b)),
        Literal::Flag(n, held) => View::Flag(*n, !*held),
    }
}

/// Whether a derivation derives a condition from assumptions, hypotheses and the opposite of the goal.
#[cycle(hypotheses)]
fn derives_after<'a>(
    hyps: &'a [Literal],
    d: &'a Derivation,
    c: &'a Condition,
    chain: &'a Chain<'a>,
) -> bool
    ensures { IsTrue result ↔ DerivesFrom c.now (facts chain.now ++ map plain_literal (hyps.now ++ opposite c.now.goal ∷ [])) d.now }
{
    match hyps {
        [] => derives_adding(d, c, &*chain, opposite_view(&c.goal)),
        [l, more @ ..] => after_adding(&*more, d, c, &*chain, view_of(l)),
    }
}

/// Whether it does so with an assumption added in front of the hypotheses.
#[cycle(hypotheses)]
fn after_adding<'a>(
    hyps: &'a [Literal],
    d: &'a Derivation,
    c: &'a Condition,
    chain: &'a Chain<'a>,
    view: View<'a>,
) -> bool
    ensures { IsTrue result ↔ DerivesFrom c.now ((facts chain.now ++ view_literal view.entry ∷ []) ++ map plain_literal (hyps.now ++ opposite c.now.goal ∷ [])) d.now }
{
    derives_after(hyps, d, c, &Chain::More(&*chain, view))
}

/// Whether a condition is sorted and a derivation derives it. It then holds at every valuation and unit.
pub fn check_derivation(c: &Condition, d: &Derivation) -> bool
    ensures exact { IsTrue result ↔ (IsSorted c.now × Derives c.now d.now) }
    ensures sound { IsTrue result → (m : Valued) → HoldsAt m c.now }
{
    c.is_sorted() && derives_after(c.hyps.as_slice(), d, c, &Chain::First)
}
