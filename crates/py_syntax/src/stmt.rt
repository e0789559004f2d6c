// Statements.
use crate::assertion::Assertion;
use crate::expr::{Expr, Instance};
use py_base::{Place, Text};
use sqlite_items::Items;

/// One argument of `print`.
#[derive(Debug, Drop)]
pub enum PrintArg {
    /// A number or a truth value.
    Value(Expr),
    /// A string literal.
    Literal(Text),
}

/// The name of a field, and where it stands behind the dot.
#[derive(Clone, Copy, Debug, PartialEq, Eq)]
pub struct FieldName {
    pub place: Place,
    pub name: u32,
}

/// An operator by its key, and where its mark stands.
#[derive(Clone, Copy, Debug, PartialEq, Eq)]
pub struct Operator {
    pub place: Place,
    pub key: u16,
}

/// A statement. Its place is its first token. The place in a form that is a call is the name that is
/// called.
#[cycle(stmt)]
#[derive(Debug, Drop)]
pub struct Stmt {
    pub place: Place,
    pub form: StmtForm,
}

/// The forms of statements.
#[cycle(stmt)]
#[derive(Debug, Drop)]
pub enum StmtForm {
    /// `pass`
    Pass,
    /// An assignment to a local.
    Store(u32, Expr),
    /// An assignment to the field of an object.
    Write(Expr, FieldName, Expr),
    /// An augmented assignment to a local.
    AugStore(u32, Operator, Expr),
    /// An augmented assignment to the field of an object.
    AugWrite(Expr, FieldName, Operator, Expr),
    /// A call whose result is dropped.
    Drop(Expr),
    /// `print`
    Print(Items<PrintArg>),
    /// `assert`
    Check(Expr),
    /// `Assert`
    Prove(Assertion),
    /// `Fold`
    Fold(Instance),
    /// `Unfold`
    Unfold(Instance),
    /// A condition, and the blocks where it holds and where it doesn't.
    If(Expr, Items<Stmt>, Items<Stmt>),
    /// A loop's invariant, condition and body.
    Loop(Items<Assertion>, Expr, Items<Stmt>),
    /// `break`
    Break,
    /// `continue`
    Continue,
    /// The body, the handlers with their classes, the `else` block, and the `finally` block.
    Try(Items<Stmt>, Items<(u32, Items<Stmt>)>, Items<Stmt>, Option<Items<Stmt>>),
    /// `with` a lock.
    With(Expr, Items<Stmt>),
    /// `raise` of a class.
    Raise(u32),
    /// `return`
    Return(Option<Expr>),
    /// `super().__init__` with its arguments.
    Super(Place, Items<Expr>),
    /// `acquire` of a lock.
    Acquire(Place, Expr),
    /// `release` of a lock.
    Release(Place, Expr),
    /// `start` of a thread with its function.
    Start(Place, Expr, u32),
    /// `join` of a thread with its function.
    Join(Place, Expr, u32),
}
