// Laws of the definitions.
ghost use Rattle.std.specs.Prelude.{◌≡◌, Some, None, []};
ghost use Rattle.raw_syntax.specs.declared.Raw.{Raw};
ghost use Rattle.class_table.specs.declared.fault.ClassFault.{ClassFault};
ghost use Rattle.class_table.specs.Faults.{faults_of, first_fault};
ghost use Rattle.class_table.specs.Order.{IsFirstOf};

/// The first fault of a tree is one of its faults, and none of them comes before it; a tree without a first
/// fault has no fault.
pub fn the_first_fault_comes_first()
    ensures first { (raw : Raw) (f : ClassFault) → first_fault raw ≡ Some f → IsFirstOf (faults_of raw) f }
    ensures none { (raw : Raw) → first_fault raw ≡ None → faults_of raw ≡ [] }
{}
