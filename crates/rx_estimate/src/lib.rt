//! How many rows ranges of an index are taken to have: counted by dives into the index, or told by its statistics.
#![tactic(auto)]

mod dives;
mod taking;

pub use dives::{Dived, dive};
