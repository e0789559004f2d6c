// What the first of some faults is.
ghost use Rattle.std.specs.Prelude.{◌≡◌, List, [], None, MatchOption};
ghost use Rattle.type_base.specs.declared.Fault.{Fault};
ghost use Rattle.py_types.specs.Order.{IsFirstFault, first_of};

/// Faults have one first fault at most, and one where there are any.
pub fn faults_have_one_first_fault()
    ensures one { (fs : List Fault) (f g : Fault) → IsFirstFault fs f → IsFirstFault fs g → f ≡ g }
    ensures some { (fs : List Fault) → MatchOption (first_of None fs) (fs ≡ []) (IsFirstFault fs) }
{}
