//! Classes of texts, told as texts.
#![tactic(auto)]

#[cfg(test)]
mod bases;
#[cfg(test)]
mod fields;
#[cfg(test)]
mod inheriting;
#[cfg(test)]
mod inits;
#[cfg(test)]
mod names;
#[cfg(test)]
mod telling;
