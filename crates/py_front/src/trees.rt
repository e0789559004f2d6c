// The module of a tree.
ghost use Rattle.std.specs.Prelude.{◌≡◌, [], None, Err};
ghost use Rattle.class_table.specs.ClassList.{classes_of};
ghost use Rattle.class_table.specs.Faults.{first_fault};
ghost use Rattle.py_types.specs.TreeFaults.{type_faults};
ghost use Rattle.small_module.specs.SmallModule.{module_of};
ghost use Rattle.py_front.specs.TreeAnswers.{of_classes, of_refusal, of_rule, of_contracts, built, IsTreeAnswer};

use crate::fault::FrontFault;
use class_table::{ClassFault, Classes, build};
use contract_forms::first_contract_fault;
use contract_kinds::{Breach, Rule};
use py_base::Place;
use py_syntax::Module;
use py_types::{TypeFault, type_module};
use raw_syntax::Raw;
use small_module::module_of;
use std::alloc::Global;

fn of_classes(fault: ClassFault) -> FrontFault
    ensures { result ≡ of_classes fault }
{
    match fault {
        ClassFault::DuplicateName(place) => FrontFault::DuplicateName(place),
        ClassFault::UnknownBase(place) => FrontFault::UnknownBase(place),
        ClassFault::BaseCycle(place) => FrontFault::BaseCycle(place),
        ClassFault::BadInit(place) => FrontFault::BadInit(place),
        ClassFault::NoMain(place) => FrontFault::NoMain(place),
        ClassFault::OutOfMemory => FrontFault::OutOfMemory,
    }
}

fn of_types(fault: TypeFault) -> FrontFault
    ensures { result ≡ of_refusal fault }
{
    match fault {
        TypeFault::Mistyped(place, rule) => FrontFault::Mistyped(place, rule),
        TypeFault::BoolAsInt(place) => FrontFault::BoolAsInt(place),
        TypeFault::Unassigned(place) => FrontFault::Unassigned(place),
        TypeFault::OutOfMemory => FrontFault::OutOfMemory,
    }
}

fn of_rule(place: Place, rule: Rule) -> FrontFault
    ensures { result ≡ of_rule place rule }
{
    match rule {
        Rule::ContractPlace => FrontFault::ContractPlace(place),
        Rule::OldInPre => FrontFault::OldInPre(place),
        Rule::DutyPlace => FrontFault::DutyPlace(place),
        Rule::BadFraction => FrontFault::BadFraction(place),
        Rule::RecursivePure => FrontFault::RecursivePure(place),
        Rule::BadTarget => FrontFault::BadTarget(place),
        Rule::UnknownPredicate => FrontFault::UnknownPredicate(place),
    }
}

fn of_contracts(breach: Breach) -> FrontFault
    ensures { result ≡ of_contracts breach }
{
    of_rule(breach.place, breach.rule)
}

// The module of a tree without a fault, or its first form that isn't built.
fn built_module(alloc: Global, tree: &Raw) -> Result<Module, FrontFault>
    ensures { ¬ (result ≡ Err FrontFault.OutOfMemory) → result ≡ built (module_of tree.now) }
{
    match module_of(alloc, tree) {
        Ok(Ok(module)) => Ok(module),
        Ok(Err(place)) => Err(FrontFault::NotBuilt(place)),
        Err(_) => Err(FrontFault::OutOfMemory),
    }
}

// The module of a tree without a fault of classes and types.
#[tactic(auto, using(crate::proofs::Answering::tree_not_contracted, crate::proofs::Answering::tree_faultless))]
fn contracted_module(alloc: Global, tree: &Raw) -> Result<Module, FrontFault>
    ensures { first_fault tree.now ≡ None → type_faults tree.now (classes_of tree.now) ≡ [] →
        ¬ (result ≡ Err FrontFault.OutOfMemory) → IsTreeAnswer tree.now result }
{
    match first_contract_fault(alloc, tree) {
        Ok(Some(breach)) => Err(of_contracts(breach)),
        Ok(None) => built_module(alloc, tree),
        Err(_) => Err(FrontFault::OutOfMemory),
    }
}

// The module of a tree without a fault of classes, which has these classes.
#[tactic(auto, using(crate::proofs::Answering::tree_not_typed, crate::proofs::Answering::no_type_fault))]
fn typed_module(alloc: Global, tree: &Raw, classes: &Classes) -> Result<Module, FrontFault>
    ensures { first_fault tree.now ≡ None → classes.now ≡ classes_of tree.now →
        ¬ (result ≡ Err FrontFault.OutOfMemory) → IsTreeAnswer tree.now result }
{
    match type_module(alloc, tree, classes) {
        Ok(_typed) => contracted_module(alloc, tree),
        Err(fault) => Err(of_types(fault)),
    }
}

/// The module of a tree, or its first fault in the order of refusals.
#[tactic(auto, using(crate::proofs::Answering::tree_not_classed))]
pub fn module_of_tree(alloc: Global, tree: &Raw) -> Result<Module, FrontFault>
    ensures { ¬ (result ≡ Err FrontFault.OutOfMemory) → IsTreeAnswer tree.now result }
{
    match build(alloc, tree) {
        Ok(classes) => typed_module(alloc, tree, &classes),
        Err(fault) => Err(of_classes(fault)),
    }
}
