// Sides of literals that aren't built.
ghost use Rattle.std.specs.Prelude.{◌≡◌, ◌↔◌, ℕ, pos, IsTrue, IfSome, IfNone, Contains};
ghost use Rattle.terms.specs.Within.{terms_within};
ghost use Rattle.proof_checker.specs.Conditions.{plain, plus_one};
ghost use Rattle.proof_checker.specs.Replacing.{put};
ghost use Rattle.proof_checker.specs.Views.{origin_term, under};
ghost use Rattle.proof_checker.specs.Chains.{side_term};
ghost use Rattle.terms.specs.declared.Term.{Lit, RefLit};

use crate::origin::{Origin, Top};
use crate::puts::{Puts, Todo, apply, same_nodes, stands};
use terms::Term;

/// A term that stands there with replacements in its parts.
#[derive(Clone, Copy)]
pub struct Side<'a> {
    pub origin: Origin<'a>,
    pub puts: Puts<'a>,
}

/// A term as a side of a literal.
pub fn whole<'a>(t: &'a Term) -> Side<'a>
    ensures { side_term result ≡ plain t.now }
{
    Side {
        origin: Origin::side(t),
        puts: Puts::None,
    }
}

/// A term and one unit.
pub fn one_more<'a>(t: &'a Term) -> Side<'a>
    ensures { side_term result ≡ plus_one t.now }
{
    Side {
        origin: Origin::PlusOne(t),
        puts: Puts::None,
    }
}

/// Whether two sides are one term.
pub fn same_sides<'a>(a: &'a Side<'a>, b: &'a Side<'a>) -> bool
    ensures { IsTrue result ↔ (side_term a.now ≡ side_term b.now) }
{
    same_nodes(a.origin, &a.puts, b.origin, &b.puts)
}

/// Whether a term with replacements is a side.
fn is_side<'a>(x: Origin<'a>, p: &'a Puts<'a>, b: &'a Side<'a>) -> bool
    ensures { IsTrue result ↔ (under p.now (origin_term x.entry) ≡ side_term b.now) }
{
    apply(x, p, &Todo::With(b.origin, &b.puts))
}

/// Whether a term with replacements is one unit.
fn is_one<'a>(x: Origin<'a>, p: &'a Puts<'a>) -> bool
    ensures { IsTrue result ↔ (under p.now (origin_term x.entry) ≡ Lit (pos 1)) }
{
    let one = Side {
        origin: Origin::One,
        puts: Puts::None,
    };
    is_side(x, p, &one)
}

/// Whether a side is another one and one unit.
pub fn is_one_more<'a>(a: &'a Side<'a>, b: &'a Side<'a>) -> bool
    ensures { IsTrue result ↔ (side_term a.now ≡ plus_one (side_term b.now)) }
{
    match a.origin.top() {
        Top::Add(c, d) => is_side(c, &a.puts, b) && is_one(d, &a.puts),
        Top::Sym(_) => false,
        Top::Lit(_) => false,
        Top::Scale(_, _) => false,
        Top::App(_, _) => false,
        Top::RefSym(_) => false,
        Top::RefLit(_) => false,
        Top::Nil => false,
    }
}

/// The number of a side that is a reference number.
pub fn reference_number<'a>(a: &'a Side<'a>) -> Option<u32>
    ensures some { IfSome result (λ n. side_term a.now ≡ RefLit n) }
    ensures none { IfNone result ((n : ℕ) → ¬ (side_term a.now ≡ RefLit n)) }
{
    match a.origin.top() {
        Top::RefLit(n) => Some(n),
        Top::Sym(_) => None,
        Top::Lit(_) => None,
        Top::Add(_, _) => None,
        Top::Scale(_, _) => None,
        Top::App(_, _) => None,
        Top::RefSym(_) => None,
        Top::Nil => None,
    }
}

/// Whether a term stands in a side.
pub fn stands_in_side<'a>(a: &'a Side<'a>, b: &'a Side<'a>) -> bool
    ensures { IsTrue result ↔ Contains (terms_within (side_term b.now)) (side_term a.now) }
{
    stands(b.origin, &b.puts, a.origin, &a.puts)
}

/// A side with one term put everywhere for another.
pub fn put_in_side<'a>(from: &'a Side<'a>, to: &'a Side<'a>, s: &'a Side<'a>) -> Side<'a>
    ensures { side_term result ≡ put (side_term from.now) (side_term to.now) (side_term s.now) }
{
    if same_nodes(s.origin, &s.puts, from.origin, &from.puts) {
        *to
    } else {
        Side {
            origin: s.origin,
            puts: Puts::More(&s.puts, from.origin, &from.puts, to.origin, &to.puts),
        }
    }
}
