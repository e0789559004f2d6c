// How far two numbers are apart at a point.
ghost use Rattle.std.specs.Prelude.{◌≡◌, ◌+ℤ◌, ◌≤ℤ◌, IsTrue, IfSome};
ghost use Rattle.lin_rows.specs.Points.{valuation};
ghost use Rattle.proof_checker.specs.Derivations.{AreNumbers};
ghost use Rattle.cond_plan.specs.Needs.{IsGap};
ghost use Rattle.cond_plan.specs.Known.{IsNumberAt, IsLastNumberAt, IsSumOf, IsMultipleOf, IsGapOf};

use lin_rows::Point;
use sqlite_items::Items;
use terms::Term;

/// What is told of two numbers at a point.
#[derive(Clone, Copy, Debug, PartialEq, Eq, Drop)]
pub enum Gap {
    Equal,
    /// They differ by at least the unit.
    Far,
    /// They differ by less, or the numbers on the way to an answer leave 128 bits.
    Unknown,
}

/// What is told of two numbers at a point.
pub fn gap_of(p: &Point, a: &Term, b: &Term) -> Gap
    requires numbers { AreNumbers a.now b.now }
    ensures { IsGap p.now a.now b.now result }
{
    match (number_of(a, p), number_of(b, p)) {
        (Some(x), Some(y)) => gap_between(p.q, x, y),
        _ => Gap::Unknown,
    }
}

fn gap_between(unit: i128, x: i128, y: i128) -> Gap
    ensures { IsGapOf unit x y result }
{
    if x == y {
        Gap::Equal
    } else if is_below(unit, x, y) {
        Gap::Far
    } else if is_below(unit, y, x) {
        Gap::Far
    } else {
        Gap::Unknown
    }
}

fn is_below(unit: i128, x: i128, y: i128) -> bool
    ensures { IsTrue result → (x +ℤ unit) ≤ℤ y }
{
    match x.checked_add(unit) {
        Some(z) => z <= y,
        None => false,
    }
}

// A term's number, where those on the way to it are within 128 bits.
#[cycle(number)]
fn number_of(t: &Term, p: &Point) -> Option<i128>
    ensures { IfSome result (IsNumberAt p.now t.now) }
{
    match t {
        Term::Sym(n) => Some(value_of(p.values.as_slice(), *n)),
        Term::Lit(z) => z.checked_mul(p.q),
        Term::Add(a, b) => sum_of(number_of(a.get(), p), number_of(b.get(), p)),
        Term::Scale(k, a) => multiple_of(*k, number_of(a.get(), p)),
        Term::App(_, all) => number_of_last(all, p),
        Term::RefSym(_) | Term::RefLit(_) | Term::Nil => Some(0),
    }
}

#[cycle(number)]
fn number_of_last(all: &Items<Term>, p: &Point) -> Option<i128>
    ensures { IfSome result (IsLastNumberAt p.now all.now) }
{
    match all.as_slice() {
        [] => Some(0),
        [.., last] => number_of(last, p),
    }
}

// The value of a variable.
fn value_of(values: &[(u32, i128)], var: u32) -> i128
    ensures { result ≡ valuation values.now var }
{
    for (v, value) in values {
        if *v == var {
            return *value;
        }
    }
    0
}

fn sum_of(a: Option<i128>, b: Option<i128>) -> Option<i128>
    ensures { IfSome result (IsSumOf a b) }
{
    match (a, b) {
        (Some(x), Some(y)) => x.checked_add(y),
        _ => None,
    }
}

fn multiple_of(k: i128, a: Option<i128>) -> Option<i128>
    ensures { IfSome result (IsMultipleOf k a) }
{
    match a {
        Some(x) => k.checked_mul(x),
        None => None,
    }
}
