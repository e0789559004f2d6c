// Laws of derivations.
ghost use Rattle.std.specs.Prelude.{◌≡◌, ◌↔◌, ℕ, List, IsTrue};
ghost use Rattle.proof_checker.specs.declared.condition.Condition.{Condition};
ghost use Rattle.proof_checker.specs.declared.derivation.Derivation.{Derivation, Derivation-F, out-Derivation};
ghost use Rattle.proof_checker.specs.Conditions.{IsSorted, HoldsAt};
ghost use Rattle.proof_checker.specs.Derivations.{Derives, DerivesFrom};
ghost use Rattle.proof_checker.specs.Chains.{Clashes};
ghost use Rattle.terms.specs.declared.Literal.{Literal};
ghost use Rattle.proof_checker.specs.Replacing.{put};
ghost use Rattle.terms.specs.declared.Term.{Term};
ghost use Rattle.terms.specs.Meanings.{Valued, meaning_at};
ghost use Rattle.terms.specs.Sameness.{same_term};

/// A condition that a derivation derives holds at every valuation and unit.
pub fn derived_conditions_hold()
    ensures { (c : Condition) (d : Derivation) → IsSorted c → Derives c d → (m : Valued) → HoldsAt m c }
{}

/// What one term put for another is: the test of equal terms is exact, and an equal term put for
/// another changes no meaning.
pub fn replaced_terms_mean_the_same()
    ensures test { (t u : Term) → IsTrue (same_term t u) ↔ (t ≡ u) }
    ensures meaning { (m : Valued) (from to t : Term) → meaning_at m from ≡ meaning_at m to →
        meaning_at m (put from to t) ≡ meaning_at m t }
{}

/// A clash derives a condition where two assumptions are opposites or one is false by itself.
pub fn clashes_derive()
    ensures { (c : Condition) (fs : List Literal) (d : Derivation) (i j : ℕ) → out-Derivation d ≡ Derivation-F.Clash i j →
        (DerivesFrom c fs d ↔ Clashes fs i j) }
{}
