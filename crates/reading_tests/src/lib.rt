//! Contracts that are read over small heaps.
#![tactic(auto)]

#[cfg(test)]
mod build;
#[cfg(test)]
mod calls;
#[cfg(test)]
mod reading;
