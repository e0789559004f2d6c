//! The types of modules: what a text says once its names, types and contracts are read. Names are
//! numbers into `Module::names`, and classes, methods and predicates are named by their places in
//! the lists of the module. Contracts see each type as plain data of the same shape, with a list in
//! place of `Items` and the value in place of `Boxed`.
#![tactic(auto)]

mod assertion;
mod copy;
mod expr;
mod item;
mod module;
mod stmt;
mod ty;
mod value;

pub use assertion::{Assertion, AtomForm};
pub use expr::{Expr, ExprForm, Instance};
pub use item::{Gives, Item, Way};
pub use module::{Class, ClassSort, Field, Method, Module, Pred};
pub use stmt::{FieldName, Operator, PrintArg, Stmt, StmtForm};
pub use ty::Ty;
pub use value::Value;
