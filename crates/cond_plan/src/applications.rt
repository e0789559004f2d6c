// The applications of a condition.
ghost use Rattle.std.specs.Prelude.{◌≡◌, ◌↔◌, IsTrue, Contains, IfOk};
ghost use Rattle.terms.specs.Fitting.{AppliedIn, Applies, terms_in};
ghost use Rattle.terms.specs.Within.{terms_within};
ghost use Rattle.proof_checker.specs.Chains.{side_term};
ghost use Rattle.proof_checker.specs.Conditions.{literals_of};
ghost use Rattle.proof_checker.specs.Derivations.{StandsIn};
ghost use Rattle.proof_checker.specs.Uses.{application_of as used};
ghost use Rattle.cond_plan.specs.Applied.{application_of};
ghost use Rattle.cond_plan.specs.Listed.{StandsAt};
ghost use Rattle.cond_plan.specs.Plans.{AreApplications, IsPlaced};

use crate::plan::Applied;
use crate::sides::{number, sides};
use proof_checker::{Condition, Origin, Puts, Side, Use, application, stands_in_side};
use py_base::OutOfMemory;
use sqlite_items::Items;
use std::alloc::Global;
use terms::{Literal, Term};

fn copied(alloc: Global, terms: &[Term]) -> Result<Items<Term>, OutOfMemory>
    ensures { IfOk result (λ copy. copy ≡ terms.now) }
{
    let mut copy = Items::new(alloc);
    for t in terms {
        copy.push(t.copy(alloc)?)?;
    }
    Ok(copy)
}

// The term that an application is.
fn term_of<'a>(alloc: Global, u: Use<'a>) -> Result<Term, OutOfMemory>
    ensures { IfOk result (λ t. Applies t (used u.entry)) }
{
    let mut all = copied(alloc, u.operands)?;
    all.push(u.result.copy(alloc)?)?;
    Ok(Term::App(u.operator, all))
}

// A term in which nothing is replaced.
fn unchanged<'a>(t: &'a Term) -> Side<'a>
    ensures { side_term result ≡ t.now }
{
    Side {
        origin: Origin::Whole(t),
        puts: Puts::None,
    }
}

// Whether a term is the other or stands within it.
fn stands_within<'a>(t: &'a Term, other: &'a Term) -> bool
    ensures { IsTrue result ↔ Contains (terms_within other.now) t.now }
{
    stands_in_side(&unchanged(t), &unchanged(other))
}

// Whether a term stands in a literal.
fn stands_in<'a>(t: &'a Term, l: &'a Literal) -> bool
    ensures { IsTrue result ↔ StandsIn t.now l.now }
{
    match sides(l) {
        None => false,
        Some((a, b)) => {
            if stands_within(t, a) {
                true
            } else {
                stands_within(t, b)
            }
        }
    }
}

// The number of the first literal in which a term stands.
fn place_of(c: &Condition, t: &Term) -> usize
    requires { Contains (terms_in (literals_of c.now)) t.now }
    ensures { StandsAt (literals_of c.now) result t.now }
{
    let hyps = c.hyps.as_slice();
    for (i, l) in hyps.iter().enumerate() {
        if stands_in(t, l) {
            return i;
        }
    }
    hyps.len()
}

// An application of a condition as it is listed.
fn applied<'a>(alloc: Global, c: &Condition, u: Use<'a>) -> Result<Applied, OutOfMemory>
    requires { AppliedIn (literals_of c.now) (used u) }
    ensures same { IfOk result (λ f. application_of f ≡ used u.entry) }
    ensures placed { IfOk result (IsPlaced c.now) }
{
    let t = term_of(alloc, u)?;
    let place = number(place_of(c, &t))?;
    let operands = copied(alloc, u.operands)?;
    let result = u.result.copy(alloc)?;
    Ok(Applied {
        operator: u.operator,
        operands,
        result,
        place,
    })
}

/// The applications of a condition, each in the place of its number.
pub(crate) fn applications_of(alloc: Global, c: &Condition) -> Result<Items<Applied>, OutOfMemory>
    ensures { IfOk result (AreApplications c.now) }
{
    let mut all = Items::new(alloc);
    for n in 0..u32::MAX {
        match application(c, n) {
            None => return Ok(all),
            Some(u) => all.push(applied(alloc, c, u)?)?,
        }
    }
    Err(OutOfMemory)
}
