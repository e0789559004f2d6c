// What the first of some breaches is.
ghost use Rattle.std.specs.Prelude.{◌≡◌, List, [], None, MatchOption};
ghost use Rattle.contract_kinds.specs.declared.breach.Breach.{Breach};
ghost use Rattle.contract_kinds.specs.Order.{IsFirstFault, first_of};

/// Breaches have one first breach at most, and one where there are any.
pub fn breaches_have_one_first_breach()
    ensures one { (fs : List Breach) (f g : Breach) →
        IsFirstFault fs f → IsFirstFault fs g → f ≡ g }
    ensures some { (fs : List Breach) → MatchOption (first_of None fs) (fs ≡ []) (IsFirstFault fs) }
{}
