// Whether a name is settled behind a statement.
ghost use Rattle.std.specs.Prelude.{◌≡◌, map};
ghost use Rattle.type_ways.specs.Ways.{block_after, each_after, way, part_way, handler_way};

use crate::sight::is_name;
use raw_syntax::{RawElif, RawHandler, RawStmt, RawStmtForm};
use sqlite_items::Items;

/// Whether no way goes on behind the statement on which the name isn't assigned.
#[cycle(after)]
pub fn is_settled(s: &RawStmt, name: &[u8], settled: bool) -> bool
    ensures { result ≡ (way name.now s.now).after settled }
{
    match &s.form {
        RawStmtForm::Break
        | RawStmtForm::Continue
        | RawStmtForm::Return(_)
        | RawStmtForm::Raise(_, _) => true,
        RawStmtForm::Declare(target, _, _)
        | RawStmtForm::Assign(target, _)
        | RawStmtForm::Augment(target, _, _, _) => settled || is_name(target, name),
        RawStmtForm::If(_, body, parts, other) => {
            block_settles(body, name, settled)
                && parts_settle(parts, name, settled)
                && block_settles(other, name, settled)
        }
        RawStmtForm::Try(body, handlers, other, last) => {
            block_settles(last, name, settled)
                || (handlers_settle(handlers, name, settled)
                    && block_settles(other, name, block_settles(body, name, settled)))
        }
        RawStmtForm::With(_, body) => block_settles(body, name, settled),
        _ => settled,
    }
}

/// The same of a block.
#[cycle(after)]
pub fn block_settles(ss: &Items<RawStmt>, name: &[u8], settled: bool) -> bool
    ensures { result ≡ block_after (map (way name.now) ss.now) settled }
{
    let mut state = settled;
    'statements: for s in ss.as_slice() {
        state = is_settled(s, name, state);
    }
    state
}

#[cycle(after)]
fn parts_settle(parts: &Items<RawElif>, name: &[u8], settled: bool) -> bool
    ensures { result ≡ each_after (map (part_way name.now) parts.now) settled }
{
    'parts: for part in parts.as_slice() {
        if !block_settles(&part.body, name, settled) {
            return false;
        }
    }
    true
}

#[cycle(after)]
fn handlers_settle(handlers: &Items<RawHandler>, name: &[u8], settled: bool) -> bool
    ensures { result ≡ each_after (map (handler_way name.now) handlers.now) settled }
{
    'handlers: for handler in handlers.as_slice() {
        if !block_settles(&handler.body, name, settled) {
            return false;
        }
    }
    true
}
