// What a condition compares and applies.
ghost use Rattle.std.specs.Prelude.{IfOk};
ghost use Rattle.proof_checker.specs.Conditions.{IsSorted};
ghost use Rattle.cond_plan.specs.Plans.{IsPlan};

use crate::applications::applications_of;
use crate::comparisons::comparisons_of;
use proof_checker::Condition;
use py_base::OutOfMemory;
use sqlite_items::Items;
use std::alloc::Global;
use terms::Term;

/// Two numbers that a condition compares.
#[derive(Debug, Drop)]
pub struct Comparison {
    pub left: Term,
    pub right: Term,
    /// The number of the literal that has the first of them, the goal last.
    pub place: u32,
}

/// An application that stands in a condition.
#[derive(Debug, Drop)]
pub struct Applied {
    pub operator: u16,
    pub operands: Items<Term>,
    pub result: Term,
    /// The number of a literal in which it stands, the goal last.
    pub place: u32,
}

/// What a condition compares and applies.
#[derive(Debug, Drop)]
pub struct Plan {
    pub comparisons: Items<Comparison>,
    /// The applications, each in the place of its number in derivations.
    pub applications: Items<Applied>,
}

/// What a condition compares and applies.
pub fn plan_of(alloc: Global, c: &Condition) -> Result<Plan, OutOfMemory>
    requires sorted { IsSorted c.now }
    ensures { IfOk result (IsPlan c.now) }
{
    let applications = applications_of(alloc, c)?;
    let comparisons = comparisons_of(alloc, c, applications.as_slice())?;
    Ok(Plan {
        comparisons,
        applications,
    })
}
