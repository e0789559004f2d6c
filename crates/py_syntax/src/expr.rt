// Expressions, in code and in contracts.
use crate::ty::Ty;
use py_base::Place;
use sqlite_items::{Boxed, Items};

/// An expression with its type. The place of an operator is its mark, of a field or method its
/// name after the dot, of a call the name that is called, and else the first token.
#[cycle(expr)]
#[derive(Debug, Drop)]
pub struct Expr {
    pub place: Place,
    pub ty: Ty,
    pub form: ExprForm,
}

/// The forms of expressions. Operators go by their keys: 1 to 5 are `+ - * // %`, 6 is prefix `-`,
/// 7 to 10 are `< <= > >=`, 11 and 12 are `==` and `!=` on numbers, 13 and 14 on truth values, 15
/// and 16 are `is` and `is not`, and 17 is `not`.
#[cycle(expr)]
#[derive(Debug, Drop)]
pub enum ExprForm {
    /// A number.
    Num(i128),
    /// `True` or `False`
    Truth(bool),
    /// `None`
    Nil,
    /// A parameter or a local: the parameters first, then the locals by their first assignment.
    Local(u32),
    /// The field of this name.
    Get(Boxed<Expr>, u32),
    /// A prefix operator.
    Un(u16, Boxed<Expr>),
    /// An operator between two operands.
    Bin(u16, Boxed<Expr>, Boxed<Expr>),
    /// A chain of comparisons: its operands, and the operators between them.
    Chain(Items<Expr>, Items<u16>),
    /// `and`
    And(Boxed<Expr>, Boxed<Expr>),
    /// `or`
    Or(Boxed<Expr>, Boxed<Expr>),
    /// A call of a function, by its number.
    Call(u32, Items<Expr>),
    /// A call of the method of this name on a receiver.
    Send(Boxed<Expr>, u32, Items<Expr>),
    /// A new object of a class.
    New(u32, Items<Expr>),
    /// A new lock of a class, over an object, at a level.
    NewLock(u32, Boxed<Expr>, Boxed<Expr>),
    /// A new thread of a function, with its arguments and its level.
    NewThread(u32, Items<Expr>, Boxed<Expr>),
    /// The object of a lock.
    Locked(Boxed<Expr>),
    /// The value, which must not be None.
    NotNil(Boxed<Expr>),
    /// The value at the method's entry.
    Old(Boxed<Expr>),
    /// The method's result.
    Answer,
    /// The level of a lock or a thread.
    LevelOf(Boxed<Expr>),
    /// The value where an instance of a predicate is unfolded.
    Opened(Boxed<Instance>, Boxed<Expr>),
    /// The second where the first holds, and else true.
    Gives(Boxed<Expr>, Boxed<Expr>),
}

/// A predicate at its arguments.
#[cycle(expr)]
#[derive(Debug, Drop)]
pub struct Instance {
    pub place: Place,
    pub pred: u32,
    pub args: Items<Expr>,
}
