// Laws of the answers.
ghost use Rattle.std.specs.Prelude.{ℕ, ℤ, pos, ◌≤ℤ◌, List, All};
ghost use Rattle.lin_rows.specs.Rows.{Meets};
ghost use Rattle.lin_rows.specs.declared.row.Row.{Row};
ghost use Rattle.lin_rows.specs.declared.step.ComboStep.{ComboStep};
ghost use Rattle.lin_rows.specs.declared.point.Point.{Point as PointOf};
ghost use Rattle.lin_solver.specs.Answers.{IsSolved};
ghost use Rattle.lin_solver.specs.declared.solving.Solved.TheVariants as solutions;

/// Rows that a combination refutes are met in no unit and by no whole numbers (Farkas), so at most one of
/// the two answers is right.
pub fn combinations_exclude_points()
    ensures met { (rows : List Row) (steps : List ComboStep) (q : ℤ) (x : ℕ → ℤ) →
        IsSolved rows (solutions.Combination steps) → pos 1 ≤ℤ q → All (Meets q x) rows → ⊥ }
    ensures point { (rows : List Row) (steps : List ComboStep) (p : PointOf) →
        IsSolved rows (solutions.Combination steps) → IsSolved rows (solutions.Point p) → ⊥ }
{}
