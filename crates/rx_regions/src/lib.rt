//! Where a condition can be true and where false on an index, as definitions, and laws of them:
//! nothing to run.
#![tactic(auto)]

mod laws;

pub use laws::{regions_decide, truth_shows_at_the_key};
