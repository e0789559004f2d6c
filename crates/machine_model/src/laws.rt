// What the definition of a run says of two modules.
ghost use Rattle.std.specs.Prelude.{◌≡◌, true, false, [], ◌∷◌, codes, replicate};
ghost use Rattle.py_base.specs.declared.Kind.TheVariants.{Undeclared};
ghost use Rattle.machine_model.specs.Smallest.{at, smallest};
ghost use Rattle.machine_model.specs.Replaced.{replaced};
ghost use Rattle.machine_model.specs.Steps.{after};
ghost use Rattle.machine_model.specs.Stuck.{all_ended};

/// The smallest module that assigns, asserts and prints runs for exactly eleven steps of its thread.
/// It prints `3`, and no test fails.
pub fn the_smallest_module_takes_eleven_steps()
    ensures unfinished { all_ended (after smallest (replicate 10 0)).state ≡ false }
    ensures finished { all_ended (after smallest (replicate 11 0)).state ≡ true }
    ensures lines { (after smallest (replicate 11 0)).lines ≡ codes "3" ∷ [] }
    ensures faults { (after smallest (replicate 11 0)).faults ≡ [] }
{}

/// Where an exception is raised in a `finally` block that another one goes through, it replaces that
/// one: the test of what the method declares fails for it, at its own place.
pub fn an_exception_in_finally_replaces_the_pending_one()
    ensures { (after replaced (replicate 5 0)).faults ≡ (Undeclared, at 12 9, 0) ∷ [] }
{}
