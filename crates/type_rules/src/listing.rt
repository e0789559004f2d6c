// The locals of methods.
ghost use Rattle.std.specs.Prelude.{◌≡◌, ◌++◌, map, drop, OnOk, IfOk};
ghost use Rattle.type_names.specs.Signatures.{function_sort};
ghost use Rattle.type_rules.specs.Types.{local, locals_in, sort_locals};

use py_base::OutOfMemory;
use raw_syntax::RawFunc;
use sqlite_items::Items;
use std::alloc::Global;
use type_names::{FunctionSort, Local, Scope, Variable, function_sort, or_void};

fn local(alloc: Global, variable: &Variable) -> Result<Local, OutOfMemory>
    ensures { IfOk result (λ l. l ≡ local variable.now) }
{
    let name = variable.name.copy(alloc)?;
    Ok(Local {
        name,
        ty: or_void(variable.ty),
    })
}

fn behind(variables: &[Variable], count: usize) -> &[Variable]
    ensures { result.now ≡ drop count variables.now }
{
    if count > variables.len() {
        return &[];
    }
    &variables[count..]
}

fn all_locals(alloc: Global, variables: &[Variable]) -> Result<Items<Local>, OutOfMemory>
    ensures { IfOk result (λ ls. ls ≡ map local variables.now) }
{
    let mut all = Items::new(alloc);
    'variables: for variable in variables {
        all.push(local(alloc, variable)?)?;
    }
    Ok(all)
}

/// Adds the locals of a method, and nothing for what is no method.
pub fn list_locals(
    alloc: Global,
    all: &mut Items<Items<Local>>,
    f: &RawFunc,
    scope: &Scope,
) -> Result<(), OutOfMemory>
    ensures { OnOk result (all.new ≡ all.old ++ sort_locals (function_sort f.now) (locals_in f.now scope.now)) }
{
    match function_sort(f) {
        FunctionSort::Code => {
            let own = behind(scope.variables.as_slice(), f.params.len());
            all.push(all_locals(alloc, own)?)?;
            Ok(())
        }
        FunctionSort::Predicate => Ok(()),
        FunctionSort::Pure => Ok(()),
    }
}
