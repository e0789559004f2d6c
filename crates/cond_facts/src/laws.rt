// Laws of points and counterexamples.
ghost use Rattle.std.specs.Prelude.{◌≡◌, ℕ, Bool, List, All};
ghost use Rattle.lin_rows.specs.declared.Point.{Point};
ghost use Rattle.lin_rows.specs.declared.WidePoint.{WidePoint};
ghost use Rattle.terms.specs.declared.Literal.{Literal};
ghost use Rattle.proof_checker.specs.declared.Condition.{Condition};
ghost use Rattle.proof_checker.specs.Conditions.{IsSorted};
ghost use Rattle.proof_checker.specs.Derivations.{first_assumptions};
ghost use Rattle.cond_plan.specs.declared.Plan.{Plan};
ghost use Rattle.cond_plan.specs.Plans.{IsPlan};
ghost use Rattle.cond_plan.specs.PointValues.{IsMet};
ghost use Rattle.cond_plan.specs.Needs.{IsSettled, AreCongruentAt};
ghost use Rattle.cond_facts.specs.ConditionPoints.{IsNarrow, IsWideIn};
ghost use Rattle.cond_facts.specs.Decisions.{IsFactOf, IsApartListed, IsFittingPoint, IsCounterexample, DoReferencesHold, DoFlagsHold, valuation_of};
ghost use Rattle.cond_facts.specs.Outcomes.{IsWideOf, AreNarrow};

/// A condition is fitted at a point where its comparisons are settled and its applications congruent.
pub fn settled_points_fit()
    ensures { (c : Condition) (plan : Plan) (fs : List Literal) (p : Point) → IsSorted c → IsPlan c plan → All (IsFactOf c) fs →
        All (IsApartListed plan) fs → IsMet fs p → All (IsSettled p fs) plan.comparisons → AreCongruentAt p plan.applications →
        IsFittingPoint c fs p }
{}

/// A point that fits a condition and makes its first assumptions true is a counterexample, with numbers of
/// references and flags that do so too.
pub fn fitting_points_are_counterexamples()
    ensures { (c : Condition) (plan : Plan) (p : Point) (refs : List (ℕ × ℕ)) (flags : List (ℕ × Bool)) → IsSorted c → IsPlan c plan →
        IsFittingPoint c (first_assumptions c) p → DoReferencesHold (first_assumptions c) refs →
        DoFlagsHold (first_assumptions c) flags → IsCounterexample c (valuation_of p refs flags) }
{}

/// A wide point of assumptions that a condition gives rise to is one of the condition, and those of a narrow
/// condition have narrow rows.
pub fn rows_of_facts_are_the_conditions()
    ensures wide { (c : Condition) (fs : List Literal) (w : WidePoint) → All (IsFactOf c) fs → IsWideOf fs w → IsWideIn c w }
    ensures narrow { (c : Condition) (fs : List Literal) → IsNarrow c → All (IsFactOf c) fs → AreNarrow fs }
{}
