// Ways that reach the end of a method.
ghost use Rattle.std.specs.Prelude.{◌≡◌, ◌++◌, ◌&&◌, not, map, codes, OnOk};
ghost use Rattle.class_table.specs.Faults.{is_alone};
ghost use Rattle.class_table.specs.Values.{every};
ghost use Rattle.type_ways.specs.Ends.{some, may_end, part_may_end, handler_may_end, end_faults};

use py_base::OutOfMemory;
use raw_syntax::{RawElif, RawFunc, RawHandler, RawStmt, RawStmtForm, RawTy};
use sqlite_items::Items;
use type_base::{Fault, Rank, note_if};

/// Whether the type is this word alone.
pub fn is_alone(ty: &RawTy, word: &[u8]) -> bool
    ensures { result ≡ is_alone ty.now word.now }
{
    if ty.head.bytes() != word {
        return false;
    }
    match ty.inner {
        None => true,
        Some(_) => false,
    }
}

// Whether some way through the statement reaches what stands behind it.
#[cycle(ends)]
fn may_end(s: &RawStmt) -> bool
    ensures { result ≡ may_end s.now }
{
    match &s.form {
        RawStmtForm::Break
        | RawStmtForm::Continue
        | RawStmtForm::Return(_)
        | RawStmtForm::Raise(_, _) => false,
        RawStmtForm::If(_, body, parts, other) => {
            block_may_end(body) || some_part_may_end(parts) || block_may_end(other)
        }
        RawStmtForm::Try(body, handlers, other, last) => {
            block_may_end(last)
                && (some_handler_may_end(handlers) || (block_may_end(body) && block_may_end(other)))
        }
        RawStmtForm::With(_, body) => block_may_end(body),
        _ => true,
    }
}

#[cycle(ends)]
fn block_may_end(ss: &Items<RawStmt>) -> bool
    ensures { result ≡ every (map may_end ss.now) }
{
    'statements: for s in ss.as_slice() {
        if !may_end(s) {
            return false;
        }
    }
    true
}

#[cycle(ends)]
fn some_part_may_end(parts: &Items<RawElif>) -> bool
    ensures { result ≡ some (map part_may_end parts.now) }
{
    'parts: for part in parts.as_slice() {
        if block_may_end(&part.body) {
            return true;
        }
    }
    false
}

#[cycle(ends)]
fn some_handler_may_end(handlers: &Items<RawHandler>) -> bool
    ensures { result ≡ some (map handler_may_end handlers.now) }
{
    'handlers: for handler in handlers.as_slice() {
        if block_may_end(&handler.body) {
            return true;
        }
    }
    false
}

fn is_left_open(function: &RawFunc) -> bool
    ensures { result ≡ (not (is_alone function.now.ret (codes "None")) && every (map may_end function.now.body)) }
{
    !is_alone(&function.ret, b"None") && block_may_end(&function.body)
}

/// Adds the fault of a method that gives a value and may reach its end.
pub fn note_end(found: &mut Items<Fault>, function: &RawFunc) -> Result<(), OutOfMemory>
    ensures { OnOk result (found.new ≡ found.old ++ end_faults function.now) }
{
    note_if(
        found,
        is_left_open(function),
        function.place,
        Rank::Mistyped(11),
    )
}
