// Laws of what follows from literals.
ghost use Rattle.std.specs.Prelude.{◌≡◌, ◌++◌, List, All, Contains, IsTrue};
ghost use Rattle.terms.specs.declared.Term.{Term};
ghost use Rattle.terms.specs.declared.Literal.{Literal};
ghost use Rattle.terms.specs.Sorts.{sorted};
ghost use Rattle.terms.specs.Meanings.{Valued, Holds, meaning_at};
ghost use Rattle.terms.specs.Fitting.{Fits, terms_in};
ghost use Rattle.ref_solver.specs.Following.{Follows};
ghost use Rattle.ref_solver.specs.Clashing.{Clash};

/// Where a valuation fits sorted literals and they hold, terms whose equality follows mean the same.
pub fn equal_terms_mean_the_same()
    ensures { (m : Valued) (ls : List Literal) (s t : Term) → All (λ l. IsTrue (sorted l)) ls →
        Fits m ls → All (Holds m) ls → Follows ls s t → meaning_at m s ≡ meaning_at m t }
{}

/// What follows from literals follows from more.
pub fn equalities_stay_with_more()
    ensures { (ls more : List Literal) (s t : Term) → Follows ls s t → Follows (ls ++ more) s t }
{}

/// Literals that clash still do with more.
pub fn clashes_stay_with_more()
    ensures { (ls more : List Literal) → Clash ls → Clash (ls ++ more) }
{}

/// Equalities follow between terms of the literals alone.
pub fn equal_terms_stand()
    ensures left { (ls : List Literal) (s t : Term) → Follows ls s t → Contains (terms_in ls) s }
    ensures right { (ls : List Literal) (s t : Term) → Follows ls s t → Contains (terms_in ls) t }
{}
