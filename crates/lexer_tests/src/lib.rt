//! Texts cut into pieces and tokens.
#![tactic(auto)]

#[cfg(test)]
mod pieces;
#[cfg(test)]
mod tokens;
