// The built-in names that a function declares or assigns.
ghost use Rattle.std.specs.Prelude.{◌≡◌, ◌++◌, map, flat_map, OnOk};
ghost use Rattle.class_table.specs.Shapes.{shape};
ghost use Rattle.class_table.specs.Faults.{parameter_fault, target_fault, joined, assigned_faults, part_faults, handler_faults, local_faults};

use crate::fault::ClassFault;
use crate::names::is_built_in;
use crate::noting::note_if;
use py_base::OutOfMemory;
use raw_syntax::{
    RawElif, RawExpr, RawExprForm, RawFunc, RawHandler, RawParam, RawStmt, RawStmtForm,
};
use sqlite_items::Items;

fn note_target(found: &mut Vec<ClassFault>, target: &RawExpr) -> Result<(), OutOfMemory>
    ensures { OnOk result (found.new.items ≡ found.old.items ++ target_fault (shape target.now)) }
{
    match &target.form {
        RawExprForm::Bracket(inner) => note_target(found, inner.get()),
        RawExprForm::Name(name) => note_if(
            found,
            is_built_in(name.bytes()),
            ClassFault::DuplicateName(target.place),
        ),
        _ => Ok(()),
    }
}

/// Adds a fault for each built-in name that the statement and those within it assign.
#[cycle(assigned)]
pub fn note_assigned(s: &RawStmt, found: &mut Vec<ClassFault>) -> Result<(), OutOfMemory>
    ensures { OnOk result (found.new.items ≡ found.old.items ++ assigned_faults s.now) }
{
    match &s.form {
        RawStmtForm::Declare(target, _, _)
        | RawStmtForm::Assign(target, _)
        | RawStmtForm::Augment(target, _, _, _) => note_target(found, target)?,
        RawStmtForm::If(_, body, parts, other) => {
            note_block(body, found)?;
            note_parts(parts, found)?;
            note_block(other, found)?;
        }
        RawStmtForm::While(_, body) | RawStmtForm::With(_, body) => note_block(body, found)?,
        RawStmtForm::Try(body, handlers, other, last) => {
            note_block(body, found)?;
            note_handlers(handlers, found)?;
            note_block(other, found)?;
            note_block(last, found)?;
        }
        _ => {}
    }
    Ok(())
}

#[cycle(assigned)]
fn note_block(ss: &Items<RawStmt>, found: &mut Vec<ClassFault>) -> Result<(), OutOfMemory>
    ensures { OnOk result (found.new.items ≡ found.old.items ++ joined (map assigned_faults ss.now)) }
{
    'statements: for s in ss.as_slice() {
        note_assigned(s, found)?;
    }
    Ok(())
}

#[cycle(assigned)]
fn note_parts(parts: &Items<RawElif>, found: &mut Vec<ClassFault>) -> Result<(), OutOfMemory>
    ensures { OnOk result (found.new.items ≡ found.old.items ++ joined (map part_faults parts.now)) }
{
    'parts: for part in parts.as_slice() {
        note_block(&part.body, found)?;
    }
    Ok(())
}

#[cycle(assigned)]
fn note_handlers(
    handlers: &Items<RawHandler>,
    found: &mut Vec<ClassFault>,
) -> Result<(), OutOfMemory>
    ensures { OnOk result (found.new.items ≡ found.old.items ++ joined (map handler_faults handlers.now)) }
{
    'handlers: for handler in handlers.as_slice() {
        note_block(&handler.body, found)?;
    }
    Ok(())
}

fn note_parameter(found: &mut Vec<ClassFault>, param: &RawParam) -> Result<(), OutOfMemory>
    ensures { OnOk result (found.new.items ≡ found.old.items ++ parameter_fault param.now) }
{
    note_if(
        found,
        is_built_in(param.name.bytes()),
        ClassFault::DuplicateName(param.place),
    )
}

fn note_parameters(found: &mut Vec<ClassFault>, params: &[RawParam]) -> Result<(), OutOfMemory>
    ensures { OnOk result (found.new.items ≡ found.old.items ++ flat_map parameter_fault params.now) }
{
    'params: for param in params {
        note_parameter(found, param)?;
    }
    Ok(())
}

/// Adds the faults of the names that a function declares.
pub fn note_locals(found: &mut Vec<ClassFault>, function: &RawFunc) -> Result<(), OutOfMemory>
    ensures { OnOk result (found.new.items ≡ found.old.items ++ local_faults function.now) }
{
    note_parameters(found, function.params.as_slice())?;
    note_block(&function.body, found)
}
