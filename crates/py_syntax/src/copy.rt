// Equal copies, a file for each type that recurs.
mod assertion;
mod expr;
mod stmt;
