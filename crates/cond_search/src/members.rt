// Members of plans by their numbers.
ghost use Rattle.std.specs.Prelude.{◌≡◌, ◌<◌, length, Some, slice_get, IfOk};

use cond_plan::{Applied, Comparison, Plan};
use py_base::OutOfMemory;
use terms::Term;

pub(crate) fn comparison_at(plan: &Plan, place: usize) -> &Comparison
    requires { place < length plan.now.comparisons }
    ensures { slice_get plan.now.comparisons place ≡ Some result.now }
{
    &plan.comparisons.as_slice()[place]
}

pub(crate) fn applied_at(plan: &Plan, place: usize) -> &Applied
    requires { place < length plan.now.applications }
    ensures { slice_get plan.now.applications place ≡ Some result.now }
{
    &plan.applications.as_slice()[place]
}

pub(crate) fn operand_at(f: &Applied, place: usize) -> &Term
    requires { place < length f.now.operands }
    ensures { slice_get f.now.operands place ≡ Some result.now }
{
    &f.operands.as_slice()[place]
}

/// A place as derivations have it.
pub(crate) fn number_of(place: usize) -> Result<u32, OutOfMemory>
    ensures { IfOk result (λ n. n ≡ place) }
{
    match u32::try_from(place) {
        Ok(n) => Ok(n),
        Err(_) => Err(OutOfMemory),
    }
}
