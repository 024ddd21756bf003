//! The ranges of a condition on an index by the letter of their definition: the values of each part are cut into
//! regions at the constants, and every tuple of regions is looked at. It is slow, stands on no graph, and serves to
//! test what is computed by graphs. It is no part of the product.
#![tactic(auto)]

mod answers;
mod cans;
mod constants;
mod covers;
mod grids;
mod patterns;
mod places;
mod regions;
mod signed;
mod single;
mod trees;

pub use answers::{PlainAnswer, plain_ranges_of};
