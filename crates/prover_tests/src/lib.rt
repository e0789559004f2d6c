//! Closures of literals, and solutions of rows, near the ends of 128 bits too.
#![tactic(auto)]

#[cfg(test)]
mod closures;
#[cfg(test)]
mod solutions;
