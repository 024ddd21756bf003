//! Sets of keys as tests over tuples of positions, and the one canonical tree of each. There is
//! nothing to run here; each law is the contract of an empty function.
#![tactic(auto)]

mod laws;

pub use laws::{sets_have_one_tree, trees_of_sets_meet_and_unite};
