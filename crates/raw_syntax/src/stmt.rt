// Statements and types, as they are written.
use crate::expr::{Arithmetic, RawExpr};
use py_base::{Place, Text};
use sqlite_items::Items;

/// A type: its name, and the name in square brackets behind it. A name in quotes is that name, and
/// `None` is the name `None`. The place is the first token.
#[derive(Debug, Drop)]
pub struct RawTy {
    pub place: Place,
    pub head: Text,
    pub inner: Option<Text>,
}

/// A statement. Its place is its first token.
#[cycle(stmt)]
#[derive(Debug, Drop)]
pub struct RawStmt {
    pub place: Place,
    pub form: RawStmtForm,
}

/// The forms of statements. A block has at least one statement, so an empty list stands for a block
/// that isn't there.
#[cycle(stmt)]
#[derive(Debug, Drop)]
pub enum RawStmtForm {
    /// `pass`
    Pass,
    /// `break`
    Break,
    /// `continue`
    Continue,
    /// `return`, with an expression or without.
    Return(Option<RawExpr>),
    /// `raise` of the class of this name, with the place of the name.
    Raise(Place, Text),
    /// `assert`
    Assert(RawExpr),
    /// An expression alone.
    Eval(RawExpr),
    /// A target with a type, and the value that it gets.
    Declare(RawExpr, RawTy, RawExpr),
    /// A target and the value that it gets.
    Assign(RawExpr, RawExpr),
    /// A target, the place and the operator of an augmented assignment, and the operand.
    Augment(RawExpr, Place, Arithmetic, RawExpr),
    /// A condition, its block, the `elif` parts, and the block of `else`.
    If(RawExpr, Items<RawStmt>, Items<RawElif>, Items<RawStmt>),
    /// A condition and the block of its loop.
    While(RawExpr, Items<RawStmt>),
    /// The block of `try`, the handlers, the block of `else`, and the block of `finally`.
    Try(Items<RawStmt>, Items<RawHandler>, Items<RawStmt>, Items<RawStmt>),
    /// A lock and the block that holds it.
    With(RawExpr, Items<RawStmt>),
}

/// A condition behind `elif`, whose place is that word, and its block.
#[cycle(stmt)]
#[derive(Debug, Drop)]
pub struct RawElif {
    pub place: Place,
    pub condition: RawExpr,
    pub body: Items<RawStmt>,
}

/// A handler: the name of its class with the name's place, and its block.
#[cycle(stmt)]
#[derive(Debug, Drop)]
pub struct RawHandler {
    pub place: Place,
    pub class: Text,
    pub body: Items<RawStmt>,
}
