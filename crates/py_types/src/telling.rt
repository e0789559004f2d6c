// The types of a tree, or its first fault.
ghost use Rattle.std.specs.Prelude.{◌≡◌, [], Some, None, IfOk, IfErr, IfSome, MatchResult};
ghost use Rattle.type_forms.specs.Forms.{form_faults};
ghost use Rattle.py_types.specs.Order.{first_of, IsFirstFault};
ghost use Rattle.py_types.specs.TreeFaults.{type_faults};
ghost use Rattle.py_types.specs.Typing.{typed_of, told};

use crate::first::first_of;
use crate::typed::{TypeFault, Typed};
use class_table::Classes;
use py_base::OutOfMemory;
use raw_syntax::Raw;
use std::alloc::Global;
use type_base::{Fault, Rank};
use type_forms::form_faults;
use type_rules::{Findings, findings_of};

fn first_by_forms(alloc: Global, raw: &Raw, classes: &Classes) -> Result<Option<Fault>, OutOfMemory>
    ensures { IfOk result (λ best. best ≡ first_of None (form_faults raw.now classes.now)) }
{
    let found = form_faults(alloc, raw, classes)?;
    Ok(first_of(None, found.as_slice()))
}

fn refusal(fault: Fault) -> TypeFault
    ensures { told result ≡ Some fault }
{
    match fault.rank {
        Rank::Mistyped(rule) => TypeFault::Mistyped(fault.place, rule),
        Rank::BoolAsInt => TypeFault::BoolAsInt(fault.place),
        Rank::Unassigned => TypeFault::Unassigned(fault.place),
    }
}

// The types, or the first fault.
#[tactic(auto, using(crate::proofs::Firsts::none_of_both, crate::proofs::Firsts::first_by_both))]
fn answer(
    alloc: Global,
    raw: &Raw,
    classes: &Classes,
) -> Result<Result<Typed, TypeFault>, OutOfMemory>
    ensures { IfOk result (λ r. MatchResult r (λ t. (type_faults raw.now classes.now ≡ []) × (t ≡ typed_of raw.now classes.now)) (λ f. IfSome (told f) (IsFirstFault (type_faults raw.now classes.now)))) }
{
    let so_far = first_by_forms(alloc, raw, classes)?;
    let Findings {
        faults,
        types,
        locals,
    } = findings_of(alloc, raw, classes)?;
    match first_of(so_far, faults.as_slice()) {
        Some(fault) => Ok(Err(refusal(fault))),
        None => Ok(Ok(Typed { types, locals })),
    }
}

/// The types of a tree with these classes, or its first fault of types: by place, and at one place a rule that fails, the lowest one
/// first, before a `bool` for an `int`, and that before a read without an assignment.
pub fn type_module(alloc: Global, raw: &Raw, classes: &Classes) -> Result<Typed, TypeFault>
    ensures typed { IfOk result (λ t. (type_faults raw.now classes.now ≡ []) × (t ≡ typed_of raw.now classes.now)) }
    ensures fault { IfErr result (λ f. IfSome (told f) (IsFirstFault (type_faults raw.now classes.now))) }
{
    match answer(alloc, raw, classes) {
        Ok(answer) => answer,
        Err(OutOfMemory) => Err(TypeFault::OutOfMemory),
    }
}
