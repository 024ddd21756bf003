//! A candidate of any kind that runs: the rows that it hands out one at a time, in order, and what it reads.
#![tactic(auto)]

mod laws;
mod made;
mod reads;
mod runs;

pub use laws::{entries_show_the_rows, merges_hand_out_rows_by_id, runs_hand_out_what_is_visited};
pub use reads::Reads;
pub use runs::{AccessRun, open_run};
