//! Small modules: steps, the operators of a run, and runs under schedules.
#![tactic(auto)]

#[cfg(test)]
mod model;
#[cfg(test)]
mod schedules;
#[cfg(test)]
mod steps;
#[cfg(test)]
mod unfinished;
