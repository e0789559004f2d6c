// Whether literals are assumed, without building them.
ghost use Rattle.std.specs.Prelude.{◌≡◌, ◌↔◌, IsTrue, Contains, pos};
ghost use Rattle.terms.specs.declared.Term.{Lit};
ghost use Rattle.proof_checker.specs.Conditions.{plus_one};
ghost use Rattle.cond_plan.specs.Known.{compared};

use terms::{Literal, Term};

/// How a literal compares two terms.
#[derive(Clone, Copy, Debug, PartialEq, Eq, Drop)]
pub(crate) enum Relation {
    Same,
    Apart,
    /// The first and one unit are at most the second.
    Below,
}

/// Whether two terms are assumed to compare so.
pub(crate) fn are_assumed(facts: &[Literal], how: Relation, a: &Term, b: &Term) -> bool
    ensures { IsTrue result ↔ Contains facts.now (compared how a.now b.now) }
{
    for fact in facts {
        if compares(fact, how, a, b) {
            return true;
        }
    }
    false
}

fn compares(l: &Literal, how: Relation, a: &Term, b: &Term) -> bool
    ensures { IsTrue result ↔ (l.now ≡ compared how a.now b.now) }
{
    match (how, l) {
        (Relation::Same, Literal::Same(c, d)) => c.is_same(a) && d.is_same(b),
        (Relation::Apart, Literal::Apart(c, d)) => c.is_same(a) && d.is_same(b),
        (Relation::Below, Literal::AtMost(c, d)) => is_one_more(c, a) && d.is_same(b),
        _ => false,
    }
}

fn is_one_more(t: &Term, a: &Term) -> bool
    ensures { IsTrue result ↔ (t.now ≡ plus_one a.now) }
{
    match t {
        Term::Add(b, one) => b.get().is_same(a) && is_one(one.get()),
        _ => false,
    }
}

fn is_one(t: &Term) -> bool
    ensures { IsTrue result ↔ (t.now ≡ Lit (pos 1)) }
{
    match t {
        Term::Lit(z) => *z == 1,
        _ => false,
    }
}
