// What syntax puts on a control stack, the first item to be done on top.
mod expr;
mod stmt;

pub use expr::push_expr;
pub use stmt::{method_control, push_block, push_stmt};
