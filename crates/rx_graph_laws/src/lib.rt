//! What any list of calls leaves of an arena. There is nothing to run here: the law is the contract of an
//! empty function.
#![tactic(auto)]

mod calls;
mod laws;

pub use laws::handles_have_the_trees_of_sets;
