// The statements of a body.
ghost use Rattle.std.specs.Prelude.{◌≡◌, ◌<◌, ◌^◌, ◌++◌, ◌&&◌, length, map, nat_lt, codes, OnOk};
ghost use Rattle.class_table.specs.Bases.{is_init};
ghost use Rattle.class_table.specs.Shapes.{is_contract};
ghost use Rattle.class_table.specs.Declaring.{statement_is};
ghost use Rattle.type_base.specs.Faults.{joined};
ghost use Rattle.type_forms.specs.Statements.{alone_fault, super_faults_if, expression_faults, return_faults, assignment_faults, declaration_faults, in_block, standing, part_standing, handler_standing, left_behind, body_faults, has_init_above, fields_made, prefix_length, statement_faults};

use crate::head::note_annotation;
use crate::over::is_init;
use crate::super_use::{note_allowed, note_supers};
use crate::target::{note_class, note_declared, note_target};
use class_table::Classes;
use py_base::{OutOfMemory, Place, Text};
use raw_syntax::{
    RawElif, RawExpr, RawFunc, RawHandler, RawItem, RawParam, RawStmt, RawStmtForm, RawTy,
};
use sqlite_items::Items;
use std::alloc::Global;
use type_base::{Fault, Rank, locals, method_above, note_if};
use type_ways::{bare_place, behind_docstring, is_alone, is_any_call, is_contract_statement};

fn note_alone(e: &RawExpr, found: &mut Items<Fault>) -> Result<(), OutOfMemory>
    ensures { OnOk result (found.new ≡ found.old ++ alone_fault e.now) }
{
    note_if(found, !is_any_call(e), bare_place(e), Rank::Mistyped(21))
}

fn note_supers_if(called: bool, e: &RawExpr, found: &mut Items<Fault>) -> Result<(), OutOfMemory>
    ensures { OnOk result (found.new ≡ found.old ++ super_faults_if called e.now) }
{
    if called {
        return note_allowed(e, found);
    }
    note_supers(e, found)
}

// An expression alone.
fn note_expression(
    e: &RawExpr,
    found: &mut Items<Fault>,
    classes: &Classes,
    params: &[RawParam],
    names: &[Text],
    called: bool,
) -> Result<(), OutOfMemory>
    requires { length classes.now.list < 2 ^ 32 }
    ensures { OnOk result (found.new ≡ found.old ++ expression_faults classes.now params.now names.now called e.now) }
{
    note_alone(e, found)?;
    note_declared(e, found, classes, params, names)?;
    note_supers_if(called, e, found)
}

fn note_return(
    value: &Option<RawExpr>,
    found: &mut Items<Fault>,
    void: bool,
    place: Place,
) -> Result<(), OutOfMemory>
    ensures { OnOk result (found.new ≡ found.old ++ return_faults void place value.now) }
{
    match value {
        Some(e) => {
            note_if(found, void, place, Rank::Mistyped(11))?;
            note_supers(e, found)
        }
        None => note_if(found, !void, place, Rank::Mistyped(11)),
    }
}

// An assignment, with an annotation or without.
fn note_assignment(
    target: &RawExpr,
    value: &RawExpr,
    found: &mut Items<Fault>,
    params: &[RawParam],
    outside: bool,
) -> Result<(), OutOfMemory>
    ensures { OnOk result (found.new ≡ found.old ++ assignment_faults params.now outside target.now value.now) }
{
    note_target(target, found, params, outside)?;
    note_supers(target, found)?;
    note_supers(value, found)
}

fn note_declaration(
    target: &RawExpr,
    ty: &RawTy,
    value: &RawExpr,
    found: &mut Items<Fault>,
    classes: &Classes,
    params: &[RawParam],
    outside: bool,
) -> Result<(), OutOfMemory>
    requires { length classes.now.list < 2 ^ 32 }
    ensures { OnOk result (found.new ≡ found.old ++ declaration_faults classes.now params.now outside target.now ty.now value.now) }
{
    note_annotation(found, classes, ty)?;
    note_assignment(target, value, found, params, outside)
}

#[cycle(standing)]
fn note_statement(
    s: &RawStmt,
    found: &mut Items<Fault>,
    classes: &Classes,
    params: &[RawParam],
    names: &[Text],
    void: bool,
    called: bool,
    made: bool,
) -> Result<(), OutOfMemory>
    requires { length classes.now.list < 2 ^ 32 }
    ensures { OnOk result (found.new ≡ found.old ++ standing classes.now params.now names.now void s.now called made) }
{
    match &s.form {
        RawStmtForm::Return(value) => note_return(value, found, void, s.place)?,
        RawStmtForm::Raise(place, name) => {
            note_class(found, classes, params, names, *place, name.bytes())?
        }
        RawStmtForm::Assert(e) => note_supers(e, found)?,
        RawStmtForm::Eval(e) => note_expression(e, found, classes, params, names, called)?,
        RawStmtForm::Declare(target, ty, e) => {
            note_declaration(target, ty, e, found, classes, params, !made)?
        }
        RawStmtForm::Assign(target, e) | RawStmtForm::Augment(target, _, _, e) => {
            note_assignment(target, e, found, params, false)?
        }
        RawStmtForm::If(e, body, parts, other) => {
            note_supers(e, found)?;
            note_block(body, found, classes, params, names, void)?;
            note_parts(parts, found, classes, params, names, void)?;
            note_block(other, found, classes, params, names, void)?;
        }
        RawStmtForm::While(e, body) | RawStmtForm::With(e, body) => {
            note_supers(e, found)?;
            note_block(body, found, classes, params, names, void)?;
        }
        RawStmtForm::Try(body, handlers, other, last) => {
            note_block(body, found, classes, params, names, void)?;
            note_handlers(handlers, found, classes, params, names, void)?;
            note_block(other, found, classes, params, names, void)?;
            note_block(last, found, classes, params, names, void)?;
        }
        _ => {}
    }
    Ok(())
}

#[cycle(standing)]
fn note_block(
    ss: &Items<RawStmt>,
    found: &mut Items<Fault>,
    classes: &Classes,
    params: &[RawParam],
    names: &[Text],
    void: bool,
) -> Result<(), OutOfMemory>
    requires { length classes.now.list < 2 ^ 32 }
    ensures { OnOk result (found.new ≡ found.old ++ in_block (map (standing classes.now params.now names.now void) ss.now)) }
{
    'statements: for s in ss.as_slice() {
        note_statement(s, found, classes, params, names, void, false, false)?;
    }
    Ok(())
}

#[cycle(standing)]
fn note_parts(
    parts: &Items<RawElif>,
    found: &mut Items<Fault>,
    classes: &Classes,
    params: &[RawParam],
    names: &[Text],
    void: bool,
) -> Result<(), OutOfMemory>
    requires { length classes.now.list < 2 ^ 32 }
    ensures { OnOk result (found.new ≡ found.old ++ joined (map (part_standing classes.now params.now names.now void) parts.now)) }
{
    'parts: for part in parts.as_slice() {
        note_supers(&part.condition, found)?;
        note_block(&part.body, found, classes, params, names, void)?;
    }
    Ok(())
}

#[cycle(standing)]
fn note_handlers(
    handlers: &Items<RawHandler>,
    found: &mut Items<Fault>,
    classes: &Classes,
    params: &[RawParam],
    names: &[Text],
    void: bool,
) -> Result<(), OutOfMemory>
    requires { length classes.now.list < 2 ^ 32 }
    ensures { OnOk result (found.new ≡ found.old ++ joined (map (handler_standing classes.now params.now names.now void) handlers.now)) }
{
    'handlers: for handler in handlers.as_slice() {
        let class = handler.class.bytes();
        note_class(found, classes, params, names, handler.place, class)?;
        note_block(&handler.body, found, classes, params, names, void)?;
    }
    Ok(())
}

fn left_behind(left: usize, s: &RawStmt) -> usize
    ensures { result ≡ left_behind left s.now }
{
    match &s.form {
        RawStmtForm::Declare(_, _, _) | RawStmtForm::Assign(_, _) => left.saturating_sub(1),
        _ => left,
    }
}

fn is_more(left: usize) -> bool
    ensures { result ≡ nat_lt 0 left }
{
    0 < left
}

fn may_still_call(called: bool, s: &RawStmt) -> bool
    ensures { result ≡ (called && statement_is is_contract s.now) }
{
    called && is_contract_statement(s)
}

fn note_body(
    body: &[RawStmt],
    found: &mut Items<Fault>,
    classes: &Classes,
    params: &[RawParam],
    names: &[Text],
    void: bool,
    may_call: bool,
    makes: usize,
) -> Result<(), OutOfMemory>
    requires { length classes.now.list < 2 ^ 32 }
    ensures { OnOk result (found.new ≡ found.old ++ body_faults classes.now params.now names.now void may_call makes body.now) }
{
    let mut called = may_call;
    let mut left = makes;
    'statements: for s in body {
        note_statement(
            s,
            found,
            classes,
            params,
            names,
            void,
            called,
            is_more(left),
        )?;
        called = may_still_call(called, s);
        left = left_behind(left, s);
    }
    Ok(())
}

fn has_init_above(classes: &Classes, items: &[RawItem], owner: Option<u32>) -> bool
    ensures { result ≡ has_init_above classes.now items.now owner }
{
    match owner {
        None => false,
        Some(class) => {
            let Some(_found) = method_above(classes, items, class as usize, b"__init__") else {
                return false;
            };
            true
        }
    }
}

fn fields_made(classes: &Classes, owner: Option<u32>) -> usize
    ensures { result ≡ fields_made classes.now owner }
{
    let Some(class) = owner else {
        return 0;
    };
    match classes.list.as_slice().get(class as usize) {
        Some(found) => found.fields.len(),
        None => 0,
    }
}

fn prefix_length(classes: &Classes, owner: Option<u32>, function: &RawFunc) -> usize
    ensures { result ≡ prefix_length classes.now owner function.now }
{
    if is_init(function) {
        return fields_made(classes, owner);
    }
    0
}

fn may_call_super(
    classes: &Classes,
    items: &[RawItem],
    owner: Option<u32>,
    function: &RawFunc,
) -> bool
    ensures { result ≡ (is_init function.now && has_init_above classes.now items.now owner) }
{
    is_init(function) && has_init_above(classes, items, owner)
}

/// Adds the faults of the statements of a function.
pub fn note_statements(
    alloc: Global,
    found: &mut Items<Fault>,
    classes: &Classes,
    items: &[RawItem],
    owner: Option<u32>,
    function: &RawFunc,
) -> Result<(), OutOfMemory>
    requires { length classes.now.list < 2 ^ 32 }
    ensures { OnOk result (found.new ≡ found.old ++ statement_faults classes.now items.now owner function.now) }
{
    let names = locals(alloc, function)?;
    note_body(
        behind_docstring(function.body.as_slice()),
        found,
        classes,
        function.params.as_slice(),
        names.as_slice(),
        is_alone(&function.ret, b"None"),
        may_call_super(classes, items, owner, function),
        prefix_length(classes, owner, function),
    )
}
