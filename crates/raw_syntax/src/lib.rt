//! The tree of a text's tokens, as the grammar reads it: names are texts, and nothing is known yet of
//! types and contracts. Contracts see each type as plain data of the same shape, with a list in place
//! of `Items` and the value in place of `Boxed`.
#![tactic(auto)]

mod expr;
mod module;
mod stmt;

pub use expr::{Arithmetic, Comparison, RawArgument, RawComparison, RawExpr, RawExprForm};
pub use module::{Raw, RawClass, RawFunc, RawItem, RawParam};
pub use stmt::{RawElif, RawHandler, RawStmt, RawStmtForm, RawTy};
