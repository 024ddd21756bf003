//! Table scans, index scans and range scans: the rows that they hand out one at a time, in order, and what they read.
#![tactic(auto)]

mod laws;
mod places;
mod runs;
mod ways;

pub use laws::{
    covers_are_ranges, runs_hand_out_what_is_visited, scans_hand_out_each_row_once,
    scans_lose_no_row,
};
pub use places::Places;
pub use runs::{ScanRun, find_places, open_scan};
