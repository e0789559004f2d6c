//! What a condition compares and applies, and what is amiss at a point of the numbers in it.
#![tactic(auto)]

mod applications;
mod asked;
mod assumed;
mod comparisons;
mod gap;
mod known;
mod need;
mod plan;
mod repair;
mod sides;

pub use gap::{Gap, gap_of};
pub use need::{Need, Needed, first_need};
pub use plan::{Applied, Comparison, Plan, plan_of};
pub use repair::{Repair, first_repair};
