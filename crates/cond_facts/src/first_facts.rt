// What is assumed at first.
ghost use Rattle.std.specs.Prelude.{◌≡◌, IfOk};
ghost use Rattle.proof_checker.specs.Conditions.{opposite, plain, plain_literal, plus_one};
ghost use Rattle.proof_checker.specs.Derivations.{first_assumptions};

use proof_checker::Condition;
use py_base::OutOfMemory;
use sqlite_items::{Boxed, Items};
use std::alloc::Global;
use terms::{Literal, Term};

fn plain(t: Term) -> Term
    ensures { result ≡ plain t }
{
    match t {
        Term::Nil => Term::RefLit(0),
        t => t,
    }
}

// A literal with the reference 0 for None.
fn plain_literal(l: Literal) -> Literal
    ensures { result ≡ plain_literal l }
{
    match l {
        Literal::AtMost(a, b) => Literal::AtMost(plain(a), plain(b)),
        Literal::Same(a, b) => Literal::Same(plain(a), plain(b)),
        Literal::Apart(a, b) => Literal::Apart(plain(a), plain(b)),
        Literal::Flag(n, held) => Literal::Flag(n, held),
    }
}

fn plus_one(alloc: Global, t: Term) -> Result<Term, OutOfMemory>
    ensures { IfOk result (λ sum. sum ≡ plus_one t) }
{
    let t = Boxed::new(alloc, t)?;
    let one = Boxed::new(alloc, Term::Lit(1))?;
    Ok(Term::Add(t, one))
}

fn opposite(alloc: Global, l: Literal) -> Result<Literal, OutOfMemory>
    ensures { IfOk result (λ k. k ≡ opposite l) }
{
    match l {
        Literal::AtMost(a, b) => {
            let sum = plus_one(alloc, b)?;
            Ok(Literal::AtMost(sum, a))
        }
        Literal::Same(a, b) => Ok(Literal::Apart(a, b)),
        Literal::Apart(a, b) => Ok(Literal::Same(a, b)),
        Literal::Flag(n, held) => Ok(Literal::Flag(n, !held)),
    }
}

/// The hypotheses of a condition and the opposite of its goal, with the reference 0 for None.
pub fn assumptions_of(alloc: Global, c: &Condition) -> Result<Items<Literal>, OutOfMemory>
    ensures { IfOk result (λ fs. fs ≡ first_assumptions c.now) }
{
    let mut facts = Items::new(alloc);
    for l in c.hyps.as_slice() {
        facts.push(plain_literal(l.copy(alloc)?))?;
    }
    let goal = c.goal.copy(alloc)?;
    facts.push(plain_literal(opposite(alloc, goal)?))?;
    Ok(facts)
}
