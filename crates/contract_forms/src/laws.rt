// Laws of the definitions.
ghost use Rattle.std.specs.Prelude.{◌≡◌, true, ℕ, List};
ghost use Rattle.contract_forms.specs.Pures.{is_recursive};
ghost use Rattle.contract_forms.specs.Reach.{Reaches};

/// By as many rounds as there are functions exactly those are found that reach themselves.
pub fn rounds_find_what_reaches_itself()
    ensures found { (rs : List (List ℕ)) (b : ℕ) → is_recursive rs b ≡ true → Reaches rs b b }
    ensures all { (rs : List (List ℕ)) (b : ℕ) → Reaches rs b b → is_recursive rs b ≡ true }
{}
