//! A reader of statistics from a file.
#![tactic(auto)]

mod faults;
mod numbers;
mod reading;
mod records;

pub use faults::StatsFault;
pub use reading::read_stats;
