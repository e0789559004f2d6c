// The statements and functions of a tree, counted down from a limit.
ghost use Rattle.std.specs.Prelude.{◌≡◌, ◌<◌, ◌≤◌, ◌+◌, ◌↔◌, IsTrue, MatchOption, map, sum};
ghost use Rattle.py_parser.specs.Counts.{statements_in, statements_in_part, statements_in_handler, statements_of_function, statements_of_item, statements_of, methods_of_item, methods_of};

use raw_syntax::{Raw, RawElif, RawFunc, RawHandler, RawItem, RawStmt, RawStmtForm};
use sqlite_items::Items;

/// What is left of a number once the statement and those within it are taken from it.
#[cycle(count)]
pub fn without_statement(s: &RawStmt, left: usize) -> Option<usize>
    ensures { MatchOption result (left < statements_in s.now) (λ more. more + statements_in s.now ≡ left) }
{
    let left = left.checked_sub(1)?;
    match &s.form {
        RawStmtForm::If(_, body, parts, other) => {
            let left = without_block(body, left)?;
            let left = without_parts(parts, left)?;
            without_block(other, left)
        }
        RawStmtForm::While(_, body) | RawStmtForm::With(_, body) => without_block(body, left),
        RawStmtForm::Try(body, handlers, other, last) => {
            let left = without_block(body, left)?;
            let left = without_handlers(handlers, left)?;
            let left = without_block(other, left)?;
            without_block(last, left)
        }
        _ => Some(left),
    }
}

#[cycle(count)]
fn without_block(ss: &Items<RawStmt>, left: usize) -> Option<usize>
    ensures { MatchOption result (left < sum (map statements_in ss.now)) (λ more. more + sum (map statements_in ss.now) ≡ left) }
{
    let mut more = left;
    'statements: for s in ss.as_slice() {
        more = without_statement(s, more)?;
    }
    Some(more)
}

#[cycle(count)]
fn without_parts(parts: &Items<RawElif>, left: usize) -> Option<usize>
    ensures { MatchOption result (left < sum (map statements_in_part parts.now)) (λ more. more + sum (map statements_in_part parts.now) ≡ left) }
{
    let mut more = left;
    'parts: for part in parts.as_slice() {
        more = without_block(&part.body, more)?;
    }
    Some(more)
}

#[cycle(count)]
fn without_handlers(handlers: &Items<RawHandler>, left: usize) -> Option<usize>
    ensures { MatchOption result (left < sum (map statements_in_handler handlers.now)) (λ more. more + sum (map statements_in_handler handlers.now) ≡ left) }
{
    let mut more = left;
    'handlers: for handler in handlers.as_slice() {
        more = without_block(&handler.body, more)?;
    }
    Some(more)
}

fn without_members(members: &Items<RawFunc>, left: usize) -> Option<usize>
    ensures { MatchOption result (left < sum (map statements_of_function members.now)) (λ more. more + sum (map statements_of_function members.now) ≡ left) }
{
    let mut more = left;
    'members: for member in members.as_slice() {
        more = without_block(&member.body, more)?;
    }
    Some(more)
}

fn without_item(item: &RawItem, left: usize) -> Option<usize>
    ensures { MatchOption result (left < statements_of_item item.now) (λ more. more + statements_of_item item.now ≡ left) }
{
    match item {
        RawItem::Class(class) => without_members(&class.members, left),
        RawItem::Func(function) => without_block(&function.body, left),
    }
}

/// Whether a tree has no more statements than the number.
pub fn has_statements_within(tree: &Raw, limit: usize) -> bool
    ensures { IsTrue result ↔ (statements_of tree.now ≤ limit) }
{
    let mut left = limit;
    'items: for item in tree.items.as_slice() {
        let Some(more) = without_item(item, left) else {
            return false;
        };
        left = more;
    }
    true
}

fn methods_of_item(item: &RawItem) -> usize
    ensures { result ≡ methods_of_item item.now }
{
    match item {
        RawItem::Class(class) => class.members.len(),
        RawItem::Func(_) => 1,
    }
}

/// Whether a tree has no more functions than the number, those of its classes among them.
pub fn has_methods_within(tree: &Raw, limit: usize) -> bool
    ensures { IsTrue result ↔ (methods_of tree.now ≤ limit) }
{
    let mut left = limit;
    'items: for item in tree.items.as_slice() {
        let Some(more) = left.checked_sub(methods_of_item(item)) else {
            return false;
        };
        left = more;
    }
    true
}
