// What the trees of small forms keep.
ghost use Rattle.std.specs.Prelude.{◌≡◌, Ok, None, []};
ghost use Rattle.raw_syntax.specs.declared.Raw.{Raw};
ghost use Rattle.py_syntax.specs.declared.Module.{Module};
ghost use Rattle.class_table.specs.ClassList.{classes_of};
ghost use Rattle.class_table.specs.Faults.{first_fault};
ghost use Rattle.py_types.specs.TreeFaults.{type_faults};
ghost use Rattle.contract_forms.specs.Faults.{contract_faults};
ghost use Rattle.small_module.specs.SmallModule.{module_of};

/// A tree of which a small module is built has no fault of classes, none of types and none of contracts.
pub fn a_small_tree_has_no_fault()
    ensures classes { (tree : Raw) (m : Module) → module_of tree ≡ Ok m → first_fault tree ≡ None }
    ensures types { (tree : Raw) (m : Module) →
        module_of tree ≡ Ok m → type_faults tree (classes_of tree) ≡ [] }
    ensures contracts { (tree : Raw) (m : Module) → module_of tree ≡ Ok m → contract_faults tree ≡ [] }
{}
