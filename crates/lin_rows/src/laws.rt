// Laws of sums, which hold of every row.
ghost use Rattle.std.specs.Prelude.{◌≡◌, ℕ, ◌<◌, ℤ, pos, ◌≤ℤ◌, unsigned_abs, List, map, All, Option, Some};
ghost use Rattle.lin_rows.specs.Terms.{IsNormal, coef_at};
ghost use Rattle.lin_rows.specs.Rows.{Meets, IsSum};
ghost use Rattle.lin_rows.specs.Lowest.{IsElimination, FitsElimination, IsWideElimination};
ghost use Rattle.lin_rows.specs.Derived.{Derived};
ghost use Rattle.lin_rows.specs.Steps.{IsCombination, AreMet};
ghost use Rattle.lin_rows.specs.Points.{HasLeastUnit, HasNoDivisor};
ghost use Rattle.lin_rows.specs.declared.point.Point.{Point};
ghost use Rattle.lin_rows.specs.declared.row.Row.{Row};
ghost use Rattle.lin_rows.specs.declared.step.ComboStep.{ComboStep};

/// A sum of two rows by multipliers that aren't negative is met where both rows are.
pub fn sums_are_met()
    ensures { (q k l : ℤ) (x : ℕ → ℤ) (a b r : Row) → pos 0 ≤ℤ k → pos 0 ≤ℤ l →
        IsSum k l a b r → Meets q x a → Meets q x b → Meets q x r }
{}

/// Two rows have one sum.
pub fn sums_are_unique()
    ensures { (k l : ℤ) (a b r s : Row) → IsNormal r.coefs → IsNormal s.coefs →
        IsSum k l a b r → IsSum k l a b s → r ≡ s }
{}

/// Elimination has one answer, and its row doesn't have the variable.
pub fn eliminations_cancel()
    ensures cancels { (v : ℕ) (a b r : Row) → IsElimination v a b r → coef_at r.coefs v ≡ pos 0 }
    ensures unique { (v : ℕ) (a b r s : Row) → IsNormal r.coefs → IsNormal s.coefs →
        IsElimination v a b r → IsElimination v a b s → r ≡ s }
    ensures exact { (v : ℕ) (a b : Row) → FitsElimination v a b → IsWideElimination v a b → ⊥ }
{}

/// A row derived before a variable is met where the rows are, and has no lower variable.
pub fn derived_rows_are_met()
    ensures met { (rows : List Row) (v : ℕ) (r : Row) (q : ℤ) (x : ℕ → ℤ) →
        All (Meets q x) rows → Derived rows v r → Meets q x r }
    ensures lower { (rows : List Row) (v : ℕ) (r : Row) → Derived rows v r →
        (w : ℕ) → w < v → coef_at r.coefs w ≡ pos 0 }
{}

/// The rows of a combination aren't met together, in no unit and by no whole numbers.
pub fn combinations_refute()
    ensures numbered { (rows : List (Option Row)) (steps : List ComboStep) (q : ℤ) (x : ℕ → ℤ) →
        IsCombination rows steps → pos 1 ≤ℤ q → AreMet q x rows → ⊥ }
    ensures given { (rows : List Row) (steps : List ComboStep) (q : ℤ) (x : ℕ → ℤ) →
        IsCombination (map Some rows) steps → pos 1 ≤ℤ q → All (Meets q x) rows → ⊥ }
{}

/// A unit that has no divisor with all values is the least that makes them whole.
pub fn reduced_units_are_least()
    ensures { (p : Point) → pos 1 ≤ℤ p.q → HasNoDivisor (unsigned_abs p.q) p.values → HasLeastUnit p }
{}
