//! What two graphs of intervals have in common.
#![tactic(auto)]

mod choosing;
mod hanging;
mod intersections;
mod meeting;
mod narrowing;

pub use intersections::and;
