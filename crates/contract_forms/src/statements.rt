// Statements: the breaches within them.
ghost use Rattle.std.specs.Prelude.{◌≡◌, ◌++◌, map, flat_map, OnOk};
ghost use Rattle.contract_forms.specs.Readings.{scope, reading};
ghost use Rattle.contract_forms.specs.Heads.{block_breaches, in_code, returned_breaches, all_blocks, line, part_block, handler_block, method_breaches};

use crate::expressions::note_expr;
use crate::function::Function;
use crate::heading::{after, behind_docstring, first_spot, returned_spot, sort_of};
use contract_kinds::{Breach, Spot};
use py_base::{OutOfMemory, Text};
use raw_syntax::{RawElif, RawExpr, RawFunc, RawHandler, RawStmt, RawStmtForm};
use sqlite_items::Items;
use std::alloc::Global;
use type_base::locals;

#[tactic(auto, unfolding(crate::specs::Heads::in_code))]
fn note_code(
    e: &RawExpr,
    functions: &[Function],
    method: &RawFunc,
    locals: &[Text],
    found: &mut Items<Breach>,
) -> Result<(), OutOfMemory>
    ensures { OnOk result (found.new ≡ found.old ++ in_code (scope functions.now method.now locals.now) e.now) }
{
    note_expr(e, functions, method, locals, Spot::Value, found)
}

#[tactic(auto, unfolding(crate::specs::Heads::returned_breaches))]
fn note_returned(
    e: &Option<RawExpr>,
    functions: &[Function],
    method: &RawFunc,
    locals: &[Text],
    back: Spot,
    found: &mut Items<Breach>,
) -> Result<(), OutOfMemory>
    ensures { OnOk result (found.new ≡ found.old ++ returned_breaches (scope functions.now method.now locals.now) back e.now) }
{
    match e {
        Some(value) => note_expr(value, functions, method, locals, back, found),
        None => Ok(()),
    }
}

fn note_assignment(
    target: &RawExpr,
    e: &RawExpr,
    functions: &[Function],
    method: &RawFunc,
    locals: &[Text],
    found: &mut Items<Breach>,
) -> Result<(), OutOfMemory>
    ensures { OnOk result (found.new ≡ found.old ++ (in_code (scope functions.now method.now locals.now) target.now ++ in_code (scope functions.now method.now locals.now) e.now)) }
{
    note_code(target, functions, method, locals, found)?;
    note_code(e, functions, method, locals, found)
}

// Adds the breaches of a statement that stands there; `back` is where a value that it returns stands.
#[cycle(statements)]
fn note_statement(
    s: &RawStmt,
    functions: &[Function],
    method: &RawFunc,
    locals: &[Text],
    back: Spot,
    at: Spot,
    found: &mut Items<Breach>,
) -> Result<(), OutOfMemory>
    ensures { OnOk result (found.new ≡ found.old ++ (line s.now).breaches (scope functions.now method.now locals.now) back at) }
{
    let alone = Spot::Alone;
    match &s.form {
        RawStmtForm::Return(e) => note_returned(e, functions, method, locals, back, found),
        RawStmtForm::Assert(e) => note_code(e, functions, method, locals, found),
        RawStmtForm::Eval(e) => note_expr(e, functions, method, locals, at, found),
        RawStmtForm::Declare(target, _, e)
        | RawStmtForm::Assign(target, e)
        | RawStmtForm::Augment(target, _, _, e) => {
            note_assignment(target, e, functions, method, locals, found)
        }
        RawStmtForm::If(e, body, elifs, other) => {
            note_code(e, functions, method, locals, found)?;
            note_block(body, functions, method, locals, back, alone, found)?;
            note_parts(elifs, functions, method, locals, back, found)?;
            note_block(other, functions, method, locals, back, alone, found)
        }
        RawStmtForm::While(e, body) => {
            let head = Spot::LoopHead(false);
            note_code(e, functions, method, locals, found)?;
            note_block(body, functions, method, locals, back, head, found)
        }
        RawStmtForm::Try(body, handlers, other, last) => {
            note_block(body, functions, method, locals, back, alone, found)?;
            note_handlers(handlers, functions, method, locals, back, found)?;
            note_block(other, functions, method, locals, back, alone, found)?;
            note_block(last, functions, method, locals, back, alone, found)
        }
        RawStmtForm::With(e, body) => {
            note_code(e, functions, method, locals, found)?;
            note_block(body, functions, method, locals, back, alone, found)
        }
        _ => Ok(()),
    }
}

#[cycle(statements)]
fn note_block(
    body: &Items<RawStmt>,
    functions: &[Function],
    method: &RawFunc,
    locals: &[Text],
    back: Spot,
    first: Spot,
    found: &mut Items<Breach>,
) -> Result<(), OutOfMemory>
    ensures { OnOk result (found.new ≡ found.old ++ block_breaches (map line body.now) (scope functions.now method.now locals.now) back first) }
{
    let mut at = first;
    'statements: for s in body.as_slice() {
        note_statement(s, functions, method, locals, back, at, found)?;
        at = after(at, s);
    }
    Ok(())
}

#[cycle(statements)]
fn note_part(
    part: &RawElif,
    functions: &[Function],
    method: &RawFunc,
    locals: &[Text],
    back: Spot,
    found: &mut Items<Breach>,
) -> Result<(), OutOfMemory>
    ensures { OnOk result (found.new ≡ found.old ++ part_block part.now (scope functions.now method.now locals.now) back) }
{
    note_code(&part.condition, functions, method, locals, found)?;
    note_block(
        &part.body,
        functions,
        method,
        locals,
        back,
        Spot::Alone,
        found,
    )
}

#[cycle(statements)]
fn note_parts(
    parts: &Items<RawElif>,
    functions: &[Function],
    method: &RawFunc,
    locals: &[Text],
    back: Spot,
    found: &mut Items<Breach>,
) -> Result<(), OutOfMemory>
    ensures { OnOk result (found.new ≡ found.old ++ all_blocks (scope functions.now method.now locals.now) back (map part_block parts.now)) }
{
    'parts: for part in parts.as_slice() {
        note_part(part, functions, method, locals, back, found)?;
    }
    Ok(())
}

#[cycle(statements)]
fn note_handler(
    handler: &RawHandler,
    functions: &[Function],
    method: &RawFunc,
    locals: &[Text],
    back: Spot,
    found: &mut Items<Breach>,
) -> Result<(), OutOfMemory>
    ensures { OnOk result (found.new ≡ found.old ++ handler_block handler.now (scope functions.now method.now locals.now) back) }
{
    note_block(
        &handler.body,
        functions,
        method,
        locals,
        back,
        Spot::Alone,
        found,
    )
}

#[cycle(statements)]
fn note_handlers(
    handlers: &Items<RawHandler>,
    functions: &[Function],
    method: &RawFunc,
    locals: &[Text],
    back: Spot,
    found: &mut Items<Breach>,
) -> Result<(), OutOfMemory>
    ensures { OnOk result (found.new ≡ found.old ++ all_blocks (scope functions.now method.now locals.now) back (map handler_block handlers.now)) }
{
    'handlers: for handler in handlers.as_slice() {
        note_handler(handler, functions, method, locals, back, found)?;
    }
    Ok(())
}

// Adds the breaches of statements of a method, one behind another.
fn note_lines(
    found: &mut Items<Breach>,
    functions: &[Function],
    method: &RawFunc,
    locals: &[Text],
    back: Spot,
    first: Spot,
    body: &[RawStmt],
) -> Result<(), OutOfMemory>
    ensures { OnOk result (found.new ≡ found.old ++ block_breaches (map line body.now) (scope functions.now method.now locals.now) back first) }
{
    let mut at = first;
    'statements: for s in body {
        note_statement(s, functions, method, locals, back, at, found)?;
        at = after(at, s);
    }
    Ok(())
}

/// Adds the breaches of a function or method.
pub fn note_method(
    alloc: Global,
    found: &mut Items<Breach>,
    functions: &[Function],
    method: &RawFunc,
) -> Result<(), OutOfMemory>
    ensures { OnOk result (found.new ≡ found.old ++ method_breaches functions.now method.now) }
{
    let sort = sort_of(method);
    let names = locals(alloc, method)?;
    let body = behind_docstring(method.body.as_slice());
    note_lines(
        found,
        functions,
        method,
        names.as_slice(),
        returned_spot(sort),
        first_spot(sort),
        body,
    )
}
