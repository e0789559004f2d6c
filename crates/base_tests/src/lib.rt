//! Texts, tables, rows, terms and trees: calls that succeed, at numbers near the ends of 128 bits too.
#![tactic(auto)]

#[cfg(test)]
mod base;
#[cfg(test)]
mod forms;
#[cfg(test)]
mod rows;
#[cfg(test)]
mod tables;
#[cfg(test)]
mod trees;
