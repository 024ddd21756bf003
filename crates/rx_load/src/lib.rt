//! The table that a schema and the rows of a file make, and its statistics.
#![tactic(auto)]

mod loading;

pub use loading::{load, statistics};
