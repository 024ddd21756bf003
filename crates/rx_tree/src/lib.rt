//! Trees of intervals as sets of tuples of positions: their canonical form, and that it is the only
//! one of its set. There is nothing to run here; each law is the contract of an empty function.
#![tactic(auto)]

mod laws;

pub use laws::{point_sets_have_trees, trees_are_unique, trees_meet, trees_unite};
