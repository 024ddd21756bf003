//! Rows with equal values, brought together.
#![tactic(auto)]

mod grouping;
mod tuples;

pub use grouping::{classes, number_of};
pub use tuples::{Tuple, compare_found};
