// Terms.
use sqlite_items::{Boxed, Items};

/// A number or a reference, over symbols.
#[derive(Debug, Drop)]
pub enum Term {
    /// The number symbol of this number.
    Sym(u32),
    /// A whole number of units.
    Lit(i128),
    Add(Boxed<Term>, Boxed<Term>),
    Scale(i128, Boxed<Term>),
    /// An operator's number, its operands, and last the symbol of its result.
    App(u16, Items<Term>),
    /// The reference symbol of this number.
    RefSym(u32),
    RefLit(u32),
    /// None, which is the reference 0.
    Nil,
}
