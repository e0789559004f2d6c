// Whether assertions bound a loop or a method.
ghost use Rattle.std.specs.Prelude.{◌≡◌, Bool, map};
ghost use Rattle.std.specs.List.{list_any};
ghost use Rattle.machine_model.specs.Frames as frames;
ghost use Rattle.machine_items.specs.Bounds.{bounds};

use py_syntax::{Assertion, AtomForm};

/// Whether `MustTerminate` stands among assertions.
#[tactic(auto, using(crate::proofs::Anyone::any_is))]
pub fn must_terminate(all: &[Assertion]) -> bool
    ensures { result ≡ frames.must_terminate all.now }
{
    any_bounds(all)
}

#[cycle(bounds)]
fn any_bounds(all: &[Assertion]) -> bool
    ensures { result ≡ list_any (λ b. b) (map bounds all.now) }
{
    for a in all {
        if is_bound(a) {
            return true;
        }
    }
    false
}

#[cycle(bounds)]
fn is_bound(a: &Assertion) -> bool
    ensures { result ≡ bounds a.now }
{
    match &a.form {
        AtomForm::Both(all) => any_bounds(all.as_slice()),
        AtomForm::Terminates(_) => true,
        _ => false,
    }
}
