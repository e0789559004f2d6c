//! Tables of derivations that the checker accepts, and of those that it refuses: each rule once as it should be, and once
//! for each of its conditions that fails.
#![tactic(auto)]

#[cfg(test)]
mod clash_tests;
#[cfg(test)]
mod clashes;
#[cfg(test)]
mod congruences;
#[cfg(test)]
mod deep;
#[cfg(test)]
mod figure_tests;
#[cfg(test)]
mod long_chains;
#[cfg(test)]
mod plans;
#[cfg(test)]
mod replacements;
#[cfg(test)]
mod rule_tests;
#[cfg(test)]
mod splits;
#[cfg(test)]
mod splits_apart;
#[cfg(test)]
mod sums;
#[cfg(test)]
mod wide_sums;
