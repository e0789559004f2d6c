//! Conditions, derivations, and what a derivation shows.
#![tactic(auto)]

mod chain;
mod check;
mod combos;
mod condition;
mod derivation;
mod figures;
mod laws;
mod origin;
mod pairs;
mod puts;
mod replies;
mod rules;
mod side;
mod sources;
mod splits;
mod summands;
mod uses;
mod view;
mod walk;

pub use chain::{Chain, Found, are_assumed_apart, are_assumed_same, contains, find};
pub use check::check_derivation;
pub use combos::is_combination;
pub use condition::{Condition, Valuation};
pub use derivation::Derivation;
pub use figures::{figure, next_symbol};
pub use laws::{clashes_derive, derived_conditions_hold, replaced_terms_mean_the_same};
pub use origin::Origin;
pub use pairs::are_pair;
pub use puts::Puts;
pub use replies::Figure;
pub use rules::{are_equal, do_clash};
pub use side::{
    Side, is_one_more, one_more, put_in_side, reference_number, same_sides, stands_in_side, whole,
};
pub use sources::has_row;
pub use splits::{other_side, replacement};
pub use uses::{application, congruence};
pub use view::{
    Kind, View, is_false, is_opposite, put_in_view, replaced, same_views, stands_in_view, view_of,
};
pub use walk::Use;
