// What the laws say of two small modules.
ghost use Rattle.std.specs.Prelude.{◌≡◌, ℕ, pos, true, false, [], ◌∷◌};
ghost use Rattle.py_syntax.specs.declared.Value.TheVariants.{Ref};
ghost use Rattle.machine_model.specs.Smallest.{at, smallest};
ghost use Rattle.machine_model.specs.Results.{Got};
ghost use Rattle.machine_model.specs.Reading.{opens_within, room};
ghost use Rattle.machine_model.specs.Steps.{whole};
ghost use Rattle.machine_laws.specs.Widths.{StepComputes};
ghost use Rattle.machine_laws.specs.Depths.{holds_at, IsOver, BodiesNameReferences};
ghost use Rattle.machine_laws.specs.Examples.{at_the_sum};
ghost use Rattle.machine_laws.specs.Chained.{chained, nodes};

/// The sum of 3 and 2 computes one number, which is 5, at the place of its operator.
pub fn a_sum_computes_its_value()
    ensures { StepComputes smallest at_the_sum 0 ((at 3 14, pos 5) ∷ []) }
{}

/// A chain of two nodes holds three deep and no less, and one that leads back to its node at no depth.
pub fn a_chain_is_as_deep_as_it_is_long()
    ensures three_deep { holds_at whole chained nodes 3 0 (Ref 0 ∷ []) ≡ Got true }
    ensures not_two_deep { holds_at whole chained nodes 2 0 (Ref 0 ∷ []) ≡ Got false }
    ensures never { (k : ℕ) → holds_at whole chained nodes k 0 (Ref 2 ∷ []) ≡ Got false }
{}

/// The nodes and the chain meet what the reading within its room asks for, and it finds which of the
/// two chains holds.
pub fn a_chain_is_read()
    ensures over { IsOver 3 nodes }
    ensures names { BodiesNameReferences whole chained nodes 3 }
    ensures holds { opens_within whole chained nodes (room chained 3) [] 0 (Ref 0 ∷ []) ≡ Got true }
    ensures doesnt { opens_within whole chained nodes (room chained 3) [] 0 (Ref 2 ∷ []) ≡ Got false }
{}
