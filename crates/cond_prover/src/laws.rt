// Laws of the prover's answers.
ghost use Rattle.proof_checker.specs.declared.Condition.{Condition};
ghost use Rattle.proof_checker.specs.declared.Derivation.{Derivation};
ghost use Rattle.proof_checker.specs.declared.Valuation.{Valuation};
ghost use Rattle.proof_checker.specs.Conditions.{IsSorted};
ghost use Rattle.proof_checker.specs.Derivations.{Derives};
ghost use Rattle.cond_facts.specs.Decisions.{IsCounterexample};

use proof_checker::derived_conditions_hold;

/// Of no condition there are a derivation and a counterexample: the answers exclude each other.
pub fn derived_conditions_have_no_counterexample()
    ensures { (c : Condition) (d : Derivation) (v : Valuation) → IsSorted c → Derives c d → ¬ (IsCounterexample c v) }
{
    derived_conditions_hold();
}
