// Equal copies of assertions.
ghost use Rattle.std.specs.Prelude.{◌≡◌, IfOk};

use crate::assertion::{Assertion, AtomForm};
use crate::copy::expr::{copy_exprs, copy_optional};
use crate::expr::Expr;
use py_base::{OutOfMemory, Units};
use sqlite_items::{Boxed, Items};
use std::alloc::Global;

impl Assertion {
    /// An equal assertion.
    #[cycle(copy_assertion)]
    pub fn copy(&self, alloc: Global) -> Result<Assertion, OutOfMemory>
        ensures { IfOk result (λ copy. copy ≡ self.now) }
    {
        Ok(Assertion {
            place: self.place,
            form: self.form.copy(alloc)?,
        })
    }
}

impl AtomForm {
    // An equal form. Each arm is one call without `?`: many of them in one match are much dearer to
    // prove.
    #[cycle(copy_assertion)]
    fn copy(&self, alloc: Global) -> Result<AtomForm, OutOfMemory>
        ensures { IfOk result (λ copy. copy ≡ self.now) }
    {
        match self {
            Self::Both(all) => copy_assertions(alloc, all).map(Self::Both),
            Self::When(condition, then) => copy_when(alloc, then, condition),
            Self::AccOf(e, field, units) => copy_access(alloc, e, *field, *units),
            Self::Holds(instance) => instance.copy(alloc).map(Self::Holds),
            Self::Terminates(measure) => measure.copy(alloc).map(Self::Terminates),
            Self::Releases(lock, measure) => copy_releases(alloc, lock, measure),
            Self::Joins(thread, function, args) => copy_joins(alloc, thread, *function, args),
            Self::WaitBelow(level) => level.copy(alloc).map(Self::WaitBelow),
            Self::True(e) => e.copy(alloc).map(Self::True),
        }
    }
}

#[cycle(copy_assertion)]
pub(crate) fn copy_assertions(
    alloc: Global,
    all: &Items<Assertion>,
) -> Result<Items<Assertion>, OutOfMemory>
    ensures { IfOk result (λ copy. copy ≡ all.now) }
{
    let mut copy = Items::new(alloc);
    for a in all.as_slice() {
        copy.push(a.copy(alloc)?)?;
    }
    Ok(copy)
}

#[cycle(copy_assertion)]
fn copy_when(
    alloc: Global,
    then: &Boxed<Assertion>,
    condition: &Expr,
) -> Result<AtomForm, OutOfMemory>
    ensures { IfOk result (λ copy. copy ≡ AtomForm.When condition.now then.now) }
{
    let then = Boxed::new(alloc, then.get().copy(alloc)?)?;
    Ok(AtomForm::When(condition.copy(alloc)?, then))
}

fn copy_access(alloc: Global, e: &Expr, field: u32, units: Units) -> Result<AtomForm, OutOfMemory>
    ensures { IfOk result (λ copy. copy ≡ AtomForm.AccOf e.now field units) }
{
    Ok(AtomForm::AccOf(e.copy(alloc)?, field, units))
}

fn copy_releases(
    alloc: Global,
    lock: &Expr,
    measure: &Option<Expr>,
) -> Result<AtomForm, OutOfMemory>
    ensures { IfOk result (λ copy. copy ≡ AtomForm.Releases lock.now measure.now) }
{
    let lock = lock.copy(alloc)?;
    Ok(AtomForm::Releases(lock, copy_optional(alloc, measure)?))
}

fn copy_joins(
    alloc: Global,
    thread: &Expr,
    function: u32,
    args: &Items<Expr>,
) -> Result<AtomForm, OutOfMemory>
    ensures { IfOk result (λ copy. copy ≡ AtomForm.Joins thread.now function args.now) }
{
    let thread = thread.copy(alloc)?;
    Ok(AtomForm::Joins(thread, function, copy_exprs(alloc, args)?))
}
