// Nodes of compound statements.
ghost use Rattle.std.specs.Prelude.{◌≡◌, ◌++◌, ◌∷◌, [], MatchResult, OnOk, IfErr};
ghost use Rattle.py_grammar.specs.StmtGrammar.{statement, elif_part, handler};

use expr_parser::fault::Refused;
use expr_parser::fixed::Word;
use py_base::Place;
use raw_syntax::{RawElif, RawExpr, RawHandler, RawStmt, RawStmtForm};
use sqlite_items::Items;
use std::alloc::Global;

/// A choice.
pub fn if_node(
    place: Place,
    condition: RawExpr,
    body: Items<RawStmt>,
    elifs: Items<RawElif>,
    other: Items<RawStmt>,
) -> RawStmt
    ensures { result ≡ statement place (RawStmtForm.If condition body elifs other) }
{
    RawStmt {
        place,
        form: RawStmtForm::If(condition, body, elifs, other),
    }
}

/// A loop.
pub fn while_node(place: Place, condition: RawExpr, body: Items<RawStmt>) -> RawStmt
    ensures { result ≡ statement place (RawStmtForm.While condition body) }
{
    RawStmt {
        place,
        form: RawStmtForm::While(condition, body),
    }
}

/// A block that holds a lock.
pub fn with_node(place: Place, lock: RawExpr, body: Items<RawStmt>) -> RawStmt
    ensures { result ≡ statement place (RawStmtForm.With lock body) }
{
    RawStmt {
        place,
        form: RawStmtForm::With(lock, body),
    }
}

/// A block with its handlers, and the blocks of `else` and `finally`. An empty list stands for a block
/// that isn't there.
pub fn try_node(
    place: Place,
    body: Items<RawStmt>,
    handlers: Items<RawHandler>,
    other: Items<RawStmt>,
    last: Items<RawStmt>,
) -> RawStmt
    ensures { result ≡ statement place (RawStmtForm.Try body handlers other last) }
{
    RawStmt {
        place,
        form: RawStmtForm::Try(body, handlers, other, last),
    }
}

/// A part of a choice more.
pub fn push_elif(
    elifs: &mut Items<RawElif>,
    place: Place,
    condition: RawExpr,
    body: Items<RawStmt>,
) -> Result<(), Refused>
    ensures ok { OnOk result (elifs.new ≡ elifs.old ++ elif_part place condition body ∷ []) }
    ensures err { IfErr result (λ f. f ≡ Refused.OutOfMemory) }
{
    elifs.push(RawElif {
        place,
        condition,
        body,
    })?;
    Ok(())
}

/// A handler more, for the class of this name.
pub fn push_handler(
    handlers: &mut Items<RawHandler>,
    class: Word,
    body: Items<RawStmt>,
) -> Result<(), Refused>
    ensures ok { OnOk result (handlers.new ≡ handlers.old ++ handler class.place class.text body ∷ []) }
    ensures err { IfErr result (λ f. f ≡ Refused.OutOfMemory) }
{
    handlers.push(RawHandler {
        place: class.place,
        class: class.text,
        body,
    })?;
    Ok(())
}

/// A statement more.
pub fn push_stmt(stmts: &mut Items<RawStmt>, stmt: RawStmt) -> Result<(), Refused>
    ensures ok { OnOk result (stmts.new ≡ stmts.old ++ stmt ∷ []) }
    ensures err { IfErr result (λ f. f ≡ Refused.OutOfMemory) }
{
    stmts.push(stmt)?;
    Ok(())
}

/// A list of one statement.
pub fn one_stmt(alloc: Global, stmt: RawStmt) -> Result<Items<RawStmt>, Refused>
    ensures { MatchResult result (λ x. x ≡ stmt ∷ []) (λ f. f ≡ Refused.OutOfMemory) }
{
    let mut list: Items<RawStmt> = Items::new(alloc);
    list.push(stmt)?;
    Ok(list)
}
