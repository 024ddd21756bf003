//! The trace of a statement: its candidates, the chosen one, and what was read, as a line of JSON.
#![tactic(auto)]

mod analysis;
mod listing;
mod names;
mod ranges;
mod scans;
mod spans;
mod texts;
mod traces;

pub use traces::{Traced, trace};
