//! The ranges of a condition on an index, as definitions: the signed conditions under it, the parts
//! used, the answer; that they lose no row, and that each condition has exactly one answer. There is
//! nothing to run here; each law is the contract of an empty function.
#![tactic(auto)]

mod laws;

pub use laws::{
    answers_are_unique, conditions_have_answers, conditions_have_trees, ranges_lose_no_row,
};
