//! Index merges: the row ids that several scans of indexes have in common, or that one of several has, each once and rising.
#![tactic(auto)]

mod gathering;
mod ids;
mod laws;
mod merges;

pub use laws::{
    merged_ids_rise, merges_hand_out_each_row_once, merges_lose_no_row,
    runs_hand_out_what_is_merged,
};
pub use merges::{MergeRun, open_merge};
