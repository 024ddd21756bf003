//! All candidates of a query in order, and the one that runs. There is nothing to run here; each law is the contract of an empty
//! function.
#![tactic(auto)]

mod laws;

pub use laws::{candidates_are_of_their_kinds, first_of_least_cost_is_chosen};
