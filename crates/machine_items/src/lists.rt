// Lists that are read from the head, and copies of lists.
ghost use Rattle.std.specs.Prelude.{◌≡◌, [], ◌∷◌, IfOk, MatchOption};

use py_base::OutOfMemory;
use py_syntax::{Assertion, Expr, Stmt};
use sqlite_items::Items;
use std::alloc::Global;

/// The first member, and those behind it.
pub fn split<T>(xs: &[T]) -> Option<(&T, &[T])>
    ensures { MatchOption result (xs.now ≡ []) (λ x. xs.now ≡ x.0.now ∷ x.1.now) }
{
    match xs {
        [] => None,
        [first, rest @ ..] => Some((first, rest)),
    }
}

/// An equal block.
pub fn copy_block(alloc: Global, block: &[Stmt]) -> Result<Items<Stmt>, OutOfMemory>
    ensures { IfOk result (λ copy. copy ≡ block.now) }
{
    let mut copy = Items::new(alloc);
    for s in block {
        copy.push(s.copy(alloc)?)?;
    }
    Ok(copy)
}

/// Equal expressions.
pub fn copy_exprs(alloc: Global, all: &[Expr]) -> Result<Items<Expr>, OutOfMemory>
    ensures { IfOk result (λ copy. copy ≡ all.now) }
{
    let mut copy = Items::new(alloc);
    for e in all {
        copy.push(e.copy(alloc)?)?;
    }
    Ok(copy)
}

/// Equal assertions.
pub fn copy_assertions(alloc: Global, all: &[Assertion]) -> Result<Items<Assertion>, OutOfMemory>
    ensures { IfOk result (λ copy. copy ≡ all.now) }
{
    let mut copy = Items::new(alloc);
    for a in all {
        copy.push(a.copy(alloc)?)?;
    }
    Ok(copy)
}

/// Equal handlers.
pub fn copy_handlers(
    alloc: Global,
    handlers: &[(u32, Items<Stmt>)],
) -> Result<Items<(u32, Items<Stmt>)>, OutOfMemory>
    ensures { IfOk result (λ copy. copy ≡ handlers.now) }
{
    let mut copy = Items::new(alloc);
    for (class, block) in handlers {
        copy.push((*class, copy_block(alloc, block.as_slice())?))?;
    }
    Ok(copy)
}

/// Equal operators.
pub fn copy_keys(alloc: Global, keys: &[u16]) -> Result<Items<u16>, OutOfMemory>
    ensures { IfOk result (λ copy. copy ≡ keys.now) }
{
    Ok(Items::from_slice(alloc, keys)?)
}
