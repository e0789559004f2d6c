// What two applications ask for.
ghost use Rattle.std.specs.Prelude.{◌≡◌, length, All, MatchBool, MatchOption};
ghost use Rattle.proof_checker.specs.Derivations.{AreEqual, AreNumbers};
ghost use Rattle.cond_plan.specs.PointValues.{IsMet, AreApartAt, AreEqualAt};
ghost use Rattle.cond_plan.specs.Known.{AreAssumedSame, AreAssumedApart, ArePlacesSettled, AreNotApart, DoDifferAt, IsEqualPair, IsOpenAt, IsCongruentPairAt, IsAsked};

use crate::assumed::{Relation, are_assumed};
use crate::known::{are_known_apart, are_known_equal};
use crate::plan::Applied;
use lin_rows::Point;
use terms::{Literal, Term};

/// What two applications of one operator ask for.
#[derive(Clone, Copy, Debug, PartialEq, Eq, Drop)]
pub(crate) enum Asked {
    /// That their results are equal.
    Results,
    /// A split on whether the operands in a place are equal.
    Operand(usize),
}

/// What two applications ask for, where they may be congruent and aren't known to be.
pub(crate) fn asked_of(p: &Point, facts: &[Literal], f: &Applied, g: &Applied) -> Option<Asked>
    requires met { IsMet facts.now p.now }
    requires results { AreNumbers f.now.result g.now.result }
    requires left { All (λ t. AreNumbers t t) f.now.operands }
    requires right { All (λ t. AreNumbers t t) g.now.operands }
    requires settled { f.now.operator ≡ g.now.operator → ArePlacesSettled p.now facts.now f.now.operands g.now.operands }
    ensures { MatchOption result (f.now.operator ≡ g.now.operator → IsCongruentPairAt p.now f.now g.now) (IsAsked facts.now f.now g.now) }
{
    if f.operator != g.operator {
        return None;
    }
    if f.operands.len() != g.operands.len() {
        return None;
    }
    if are_results_equal(p, facts, &f.result, &g.result) {
        return None;
    }
    let xs = f.operands.as_slice();
    let ys = g.operands.as_slice();
    if do_differ(p, facts, xs, ys) {
        return None;
    }
    match first_open(facts, xs, ys) {
        Some(k) => Some(Asked::Operand(k)),
        None => Some(Asked::Results),
    }
}

fn are_results_equal(p: &Point, facts: &[Literal], a: &Term, b: &Term) -> bool
    requires met { IsMet facts.now p.now }
    requires numbers { AreNumbers a.now b.now }
    ensures { MatchBool result (AreEqualAt p.now a.now b.now) (¬ (AreAssumedSame facts.now a.now b.now)) }
{
    if a.is_same(b) {
        true
    } else {
        are_known_equal(p, facts, a, b)
    }
}

fn do_differ(p: &Point, facts: &[Literal], xs: &[Term], ys: &[Term]) -> bool
    requires met { IsMet facts.now p.now }
    requires left { All (λ t. AreNumbers t t) xs.now }
    requires right { All (λ t. AreNumbers t t) ys.now }
    requires lengths { length xs.now ≡ length ys.now }
    requires settled { ArePlacesSettled p.now facts.now xs.now ys.now }
    ensures { MatchBool result (DoDifferAt p.now xs.now ys.now) (AreNotApart facts.now xs.now ys.now) }
{
    for (k, a) in xs.iter().enumerate() {
        if are_operands_apart(p, facts, a, &ys[k]) {
            return true;
        }
    }
    false
}

fn are_operands_apart(p: &Point, facts: &[Literal], a: &Term, b: &Term) -> bool
    requires met { IsMet facts.now p.now }
    requires numbers { AreNumbers a.now b.now }
    requires settled { AreAssumedApart facts.now a.now b.now → AreApartAt p.now a.now b.now }
    ensures { MatchBool result (AreApartAt p.now a.now b.now) (¬ (AreAssumedApart facts.now a.now b.now)) }
{
    if are_assumed(facts, Relation::Apart, a, b) {
        true
    } else {
        are_known_apart(p, facts, a, b)
    }
}

// The first place where the operands aren't assumed to be equal.
fn first_open(facts: &[Literal], xs: &[Term], ys: &[Term]) -> Option<usize>
    requires left { All (λ t. AreNumbers t t) xs.now }
    requires right { All (λ t. AreNumbers t t) ys.now }
    requires lengths { length xs.now ≡ length ys.now }
    ensures { MatchOption result (AreEqual facts.now xs.now ys.now) (IsOpenAt facts.now xs.now ys.now) }
{
    for (k, a) in xs.iter().enumerate() {
        if !are_operands_equal(facts, a, &ys[k]) {
            return Some(k);
        }
    }
    None
}

fn are_operands_equal(facts: &[Literal], a: &Term, b: &Term) -> bool
    requires numbers { AreNumbers a.now b.now }
    ensures { MatchBool result (IsEqualPair facts.now a.now b.now) (¬ (AreAssumedSame facts.now a.now b.now)) }
{
    if a.is_same(b) {
        true
    } else if are_assumed(facts, Relation::Same, a, b) {
        true
    } else {
        are_assumed(facts, Relation::Same, b, a)
    }
}
