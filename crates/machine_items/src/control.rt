// What becomes of the control of a frame.
ghost use Rattle.std.specs.Prelude.{◌≡◌, ◌∷◌, ◌++◌, drop, slice_get, None, OnOk, IfOk};
ghost use Rattle.py_syntax.specs.declared.Item.TheVariants.{FinallyEnd};
ghost use Rattle.py_syntax.specs.ExprItems.{expr_items};
ghost use Rattle.py_syntax.specs.StmtItems.{block_items};
ghost use Rattle.py_syntax.specs.Control.{opened};
ghost use Rattle.machine_deeds.specs.Deeds.{controlled};
ghost use Rattle.machine_items.specs.Blocks.{finally_of};
ghost use Rattle.machine_items.specs.Deeds.{running};

use crate::lists::copy_block;
use crate::moment::Moment;
use machine_deeds::ControlDeed;
use machine_model::{Stack, push_block, push_expr};
use py_base::OutOfMemory;
use py_syntax::{Expr, Item, Stmt, Value};
use sqlite_items::Items;
use std::alloc::Global;

// The block of the `finally` below so many items, if one is there.
fn finally_at(
    alloc: Global,
    depth: usize,
    control: &Stack<Item<Value>>,
) -> Result<Option<Items<Stmt>>, OutOfMemory>
    ensures { IfOk result (λ block. block ≡ finally_of (slice_get control.now depth)) }
{
    match control.get(depth) {
        Some(Item::Finally(block)) => copy_block(alloc, block.as_slice()).map(Some),
        _ => Ok(None),
    }
}

// Enters a `finally` block that no way out goes through.
fn enter_finally(
    alloc: Global,
    block: &Items<Stmt>,
    control: &mut Stack<Item<Value>>,
) -> Result<(), OutOfMemory>
    ensures { OnOk result (control.new ≡ block_items block.now (FinallyEnd None ∷ control.old)) }
{
    control.push(Item::FinallyEnd(None))?;
    push_block(alloc, control, block.as_slice())
}

/// So many items are dropped. Where a `finally` block stands behind them, it is entered.
#[tactic(auto, using(crate::proofs::Openings::below_none, crate::proofs::Openings::below_block, crate::proofs::Openings::below_past))]
pub fn open_below(
    alloc: Global,
    dropped: usize,
    control: &Stack<Item<Value>>,
) -> Result<ControlDeed, OutOfMemory>
    ensures { IfOk result (λ c. controlled c control.now ≡ opened (drop dropped control.now)) }
{
    let mut items = Stack::new(alloc);
    if control.len() <= dropped {
        return Ok(ControlDeed { dropped, items });
    }
    match finally_at(alloc, dropped, control)? {
        None => Ok(ControlDeed { dropped, items }),
        Some(block) => {
            enter_finally(alloc, &block, &mut items)?;
            let dropped = dropped + 1;
            Ok(ControlDeed { dropped, items })
        }
    }
}

/// The same with items on top.
#[tactic(auto, using(crate::proofs::Openings::pushed_none, crate::proofs::Openings::pushed_block, crate::proofs::Openings::nothing_pushed))]
pub fn open(
    alloc: Global,
    dropped: usize,
    mut items: Stack<Item<Value>>,
    control: &Stack<Item<Value>>,
) -> Result<ControlDeed, OutOfMemory>
    ensures { IfOk result (λ c. controlled c control.now ≡ opened (items ++ drop dropped control.now)) }
{
    if items.len() == 0 {
        return open_below(alloc, dropped, control);
    }
    match finally_at(alloc, 0, &items)? {
        None => Ok(ControlDeed { dropped, items }),
        Some(block) => {
            items.drop_top(1);
            enter_finally(alloc, &block, &mut items)?;
            Ok(ControlDeed { dropped, items })
        }
    }
}

/// The items of an expression stand on top.
#[tactic(auto, using(crate::proofs::Laid::expr_on))]
pub fn expr_first(alloc: Global, at: Moment<'_>, e: &Expr) -> Result<ControlDeed, OutOfMemory>
    ensures { IfOk result (λ c. controlled c at.entry.frame.now.control ≡ expr_items e.now (running at.entry).control) }
{
    let mut items = Stack::new(alloc);
    push_expr(alloc, &mut items, e)?;
    Ok(ControlDeed {
        dropped: at.taken,
        items,
    })
}

/// The items of an expression stand on top, and this item behind them.
#[tactic(auto, using(crate::proofs::Laid::expr_on))]
pub fn expr_then(
    alloc: Global,
    at: Moment<'_>,
    e: &Expr,
    item: Item<Value>,
) -> Result<ControlDeed, OutOfMemory>
    ensures { IfOk result (λ c. controlled c at.entry.frame.now.control ≡ expr_items e.now (item ∷ (running at.entry).control)) }
{
    let mut items = Stack::new(alloc);
    items.push(item)?;
    push_expr(alloc, &mut items, e)?;
    Ok(ControlDeed {
        dropped: at.taken,
        items,
    })
}

/// The items of a block stand on top, and these behind them. Where none are there, a `finally` block
/// that stands behind is entered.
#[tactic(auto, using(crate::proofs::Laid::block_on))]
pub fn block_then(
    alloc: Global,
    at: Moment<'_>,
    block: &[Stmt],
    mut items: Stack<Item<Value>>,
) -> Result<ControlDeed, OutOfMemory>
    ensures { IfOk result (λ c. controlled c at.entry.frame.now.control ≡ opened (block_items block.now (items ++ (running at.entry).control))) }
{
    push_block(alloc, &mut items, block)?;
    open(alloc, at.taken, items, &at.frame.control)
}

/// The items of a block stand on top, and this item behind them.
pub fn block_then_item(
    alloc: Global,
    at: Moment<'_>,
    block: &[Stmt],
    item: Item<Value>,
) -> Result<ControlDeed, OutOfMemory>
    ensures { IfOk result (λ c. controlled c at.entry.frame.now.control ≡ opened (block_items block.now (item ∷ (running at.entry).control))) }
{
    let mut items = Stack::new(alloc);
    items.push(item)?;
    block_then(alloc, at, block, items)
}
