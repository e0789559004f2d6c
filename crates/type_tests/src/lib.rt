//! Types of texts, told as texts.
#![tactic(auto)]

#[cfg(test)]
mod telling;
#[cfg(test)]
mod typed;
