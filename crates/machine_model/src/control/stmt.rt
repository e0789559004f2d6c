// The items of statements, blocks and methods.
ghost use Rattle.std.specs.Prelude.{◌≡◌, true, false, ◌∷◌, length, OnOk, IfOk};
ghost use Rattle.py_syntax.specs.declared.StmtForm.{out-StmtForm};
ghost use Rattle.py_syntax.specs.StmtItems.{printed_items, returned_items, stmt_form_items, stmt_items, block_items, making_items, method_items};
ghost use Rattle.py_syntax.specs.ExprItems.{in_turn, expr_items};

use crate::control::expr::{count, push_all_then, push_both, push_expr, push_then};
use crate::stack::Stack;
use py_base::{OutOfMemory, Place};
use py_syntax::{Expr, FieldName, Item, Method, Operator, PrintArg, Stmt, StmtForm, Value, Way};
use sqlite_items::Items;
use std::alloc::Global;

/// Puts the items of a statement on top of a control.
pub fn push_stmt(
    alloc: Global,
    control: &mut Stack<Item<Value>>,
    s: &Stmt,
) -> Result<(), OutOfMemory>
    ensures { OnOk result (control.new ≡ stmt_items s.now control.old) }
{
    let copy = s.copy(alloc)?;
    push_form(alloc, control, copy.form, copy.place)
}

/// Puts the items of a block on top of a control.
pub fn push_block(
    alloc: Global,
    control: &mut Stack<Item<Value>>,
    block: &[Stmt],
) -> Result<(), OutOfMemory>
    ensures { OnOk result (control.new ≡ block_items block.now control.old) }
{
    let mut at = block.len();
    while 0 < at {
        at -= 1;
        push_stmt(alloc, control, &block[at])?;
    }
    Ok(())
}

/// The control of a method as it is entered.
pub fn method_control(alloc: Global, method: &Method) -> Result<Stack<Item<Value>>, OutOfMemory>
    ensures { IfOk result (λ control. control ≡ method_items method.now) }
{
    let mut control = Stack::new(alloc);
    control.push(Item::End)?;
    push_making(alloc, &mut control, method.body.as_slice(), method.makes)?;
    Ok(control)
}

// The form is a copy, so the blocks in it move into its item.
fn push_form(
    alloc: Global,
    control: &mut Stack<Item<Value>>,
    form: StmtForm,
    place: Place,
) -> Result<(), OutOfMemory>
    ensures { OnOk result (control.new ≡ stmt_form_items (out-StmtForm form) place control.old) }
{
    match form {
        StmtForm::Pass => control.push(Item::Pass),
        StmtForm::Store(local, e) => push_then(alloc, control, &e, Item::Store(local)),
        StmtForm::Write(o, field, e) => {
            push_both(alloc, control, &e, &o, Item::Write(field.place, field.name))
        }
        StmtForm::AugStore(local, operator, e) => {
            push_aug_store(alloc, control, local, operator, &e)
        }
        StmtForm::AugWrite(o, field, operator, e) => {
            push_aug_write(alloc, control, &o, field, operator, &e)
        }
        StmtForm::Drop(e) => push_then(alloc, control, &e, Item::Drop),
        StmtForm::Print(args) => push_print(alloc, control, args.as_slice()),
        StmtForm::Check(e) => push_then(alloc, control, &e, Item::Check(place)),
        StmtForm::Prove(a) => control.push(Item::Prove(place, a)),
        StmtForm::Fold(instance) => control.push(Item::Fold(place, instance)),
        StmtForm::Unfold(instance) => control.push(Item::Unfold(place, instance)),
        StmtForm::If(e, then, other) => push_then(alloc, control, &e, Item::If(then, other)),
        StmtForm::Loop(invariant, e, body) => control.push(Item::Head(place, invariant, e, body)),
        StmtForm::Break => control.push(Item::Leave(Way::Break)),
        StmtForm::Continue => control.push(Item::Leave(Way::Continue)),
        StmtForm::Try(body, handlers, other, last) => {
            control.push(Item::Try(body, handlers, other, last))
        }
        StmtForm::With(lock, body) => push_then(alloc, control, &lock, Item::With(place, body)),
        StmtForm::Raise(class) => control.push(Item::Raise(place, class)),
        StmtForm::Return(None) => control.push(Item::Return(false)),
        StmtForm::Return(Some(e)) => push_then(alloc, control, &e, Item::Return(true)),
        StmtForm::Super(call, args) => push_super(alloc, control, call, &args),
        StmtForm::Acquire(call, lock) => push_then(alloc, control, &lock, Item::Acquire(call)),
        StmtForm::Release(call, lock) => push_then(alloc, control, &lock, Item::Release(call)),
        StmtForm::Start(call, thread, function) => {
            push_then(alloc, control, &thread, Item::Start(call, function))
        }
        StmtForm::Join(call, thread, function) => {
            push_then(alloc, control, &thread, Item::Join(call, function))
        }
    }
}

fn push_aug_store(
    alloc: Global,
    control: &mut Stack<Item<Value>>,
    local: u32,
    operator: Operator,
    e: &Expr,
) -> Result<(), OutOfMemory>
    ensures { OnOk result (control.new ≡ Item.Load local ∷ expr_items e.now (Item.Bin operator.place operator.key ∷ Item.Store local ∷ control.old)) }
{
    control.push(Item::Store(local))?;
    push_then(alloc, control, e, Item::Bin(operator.place, operator.key))?;
    control.push(Item::Load(local))
}

fn push_aug_write(
    alloc: Global,
    control: &mut Stack<Item<Value>>,
    o: &Expr,
    field: FieldName,
    operator: Operator,
    e: &Expr,
) -> Result<(), OutOfMemory>
    ensures { OnOk result (control.new ≡ expr_items o.now (Item.ReadKept field.place field.name ∷ expr_items e.now (Item.Bin operator.place operator.key ∷ Item.WriteBack field.place field.name ∷ control.old))) }
{
    control.push(Item::WriteBack(field.place, field.name))?;
    push_then(alloc, control, e, Item::Bin(operator.place, operator.key))?;
    push_then(alloc, control, o, Item::ReadKept(field.place, field.name))
}

fn push_print(
    alloc: Global,
    control: &mut Stack<Item<Value>>,
    args: &[PrintArg],
) -> Result<(), OutOfMemory>
    ensures { OnOk result (control.new ≡ printed_items args.now (Item.Print args.now ∷ control.old)) }
{
    control.push(Item::Print(copy_args(alloc, args)?))?;
    push_printed(alloc, control, args)
}

fn push_printed(
    alloc: Global,
    control: &mut Stack<Item<Value>>,
    args: &[PrintArg],
) -> Result<(), OutOfMemory>
    ensures { OnOk result (control.new ≡ printed_items args.now control.old) }
{
    let mut at = args.len();
    while 0 < at {
        at -= 1;
        if let PrintArg::Value(e) = &args[at] {
            push_expr(alloc, control, e)?;
        }
    }
    Ok(())
}

fn copy_args(alloc: Global, args: &[PrintArg]) -> Result<Items<PrintArg>, OutOfMemory>
    ensures { IfOk result (λ copy. copy ≡ args.now) }
{
    let mut copy = Items::new(alloc);
    for arg in args {
        copy.push(arg.copy(alloc)?)?;
    }
    Ok(copy)
}

fn push_super(
    alloc: Global,
    control: &mut Stack<Item<Value>>,
    call: Place,
    args: &Items<Expr>,
) -> Result<(), OutOfMemory>
    ensures { OnOk result (control.new ≡ in_turn expr_items args.now (Item.Super call (length args.now) ∷ control.old)) }
{
    let item = Item::Super(call, count(args)?);
    push_all_then(alloc, control, args, item)
}

// The items of a body whose first assignments to fields, so many as `makes`, make them.
fn push_making(
    alloc: Global,
    control: &mut Stack<Item<Value>>,
    body: &[Stmt],
    makes: u32,
) -> Result<(), OutOfMemory>
    ensures { OnOk result (control.new ≡ making_items body.now makes control.old) }
{
    if makes == 0 {
        return push_block(alloc, control, body);
    }
    let [first, rest @ ..] = body else {
        return Ok(());
    };
    if let StmtForm::Write(o, field, e) = &first.form {
        push_making(alloc, control, rest, makes - 1)?;
        push_both(alloc, control, e, o, Item::Make(field.place, field.name))
    } else {
        push_making(alloc, control, rest, makes)?;
        push_stmt(alloc, control, first)
    }
}
