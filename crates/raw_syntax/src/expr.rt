// Expressions, as they are written.
use py_base::{Place, Text};
use sqlite_items::{Boxed, Items};

/// The operators on numbers.
#[derive(Clone, Copy, Debug, PartialEq, Eq)]
pub enum Arithmetic {
    /// `+`
    Plus,
    /// `-`
    Minus,
    /// `*`
    Times,
    /// `/`
    Divide,
    /// `//`
    FloorDivide,
    /// `%`
    Modulo,
}

/// The operators that compare.
#[derive(Clone, Copy, Debug, PartialEq, Eq)]
pub enum Comparison {
    /// `<`
    Less,
    /// `<=`
    LessEqual,
    /// `>`
    Greater,
    /// `>=`
    GreaterEqual,
    /// `==`
    Equal,
    /// `!=`
    NotEqual,
    /// `is`
    Is,
    /// `is not`
    IsNot,
}

/// An expression. The place of an operator is its mark, of a chain its first operator, of a field or
/// method the name after the dot, of a call the place of what is called, and else the first token.
#[cycle(expr)]
#[derive(Debug, Drop)]
pub struct RawExpr {
    pub place: Place,
    pub form: RawExprForm,
}

/// The forms of expressions. Operators of one level group to the left.
#[cycle(expr)]
#[derive(Debug, Drop)]
pub enum RawExprForm {
    /// A number.
    Number(i128),
    /// `True` or `False`
    Truth(bool),
    /// `None`
    Nil,
    /// A name.
    Name(Text),
    /// A string, by the bytes of what it stands for.
    Str(Text),
    /// An expression in brackets.
    Bracket(Boxed<RawExpr>),
    /// A tuple: `()`, `(a,)`, `(a, b)` and so on.
    Tuple(Items<RawExpr>),
    /// The field or method of this name.
    Field(Boxed<RawExpr>, Text),
    /// A call with its arguments.
    Call(Boxed<RawExpr>, Items<RawArgument>),
    /// Prefix `-`
    Negate(Boxed<RawExpr>),
    /// An operator on numbers between two operands.
    Binary(Arithmetic, Boxed<RawExpr>, Boxed<RawExpr>),
    /// A chain of at least one comparison: its first operand, and what that is compared with.
    Chain(Boxed<RawExpr>, Items<RawComparison>),
    /// `not`
    Not(Boxed<RawExpr>),
    /// `and`
    And(Boxed<RawExpr>, Boxed<RawExpr>),
    /// `or`
    Or(Boxed<RawExpr>, Boxed<RawExpr>),
}

/// An operator of a chain, the place of its mark or of its first word, and the operand behind it.
#[cycle(expr)]
#[derive(Debug, Drop)]
pub struct RawComparison {
    pub place: Place,
    pub operator: Comparison,
    pub operand: RawExpr,
}

/// An argument of a call.
#[cycle(expr)]
#[derive(Debug, Drop)]
pub enum RawArgument {
    /// An expression alone.
    Value(RawExpr),
    /// Two expressions with `=` between them.
    Named(RawExpr, RawExpr),
}
