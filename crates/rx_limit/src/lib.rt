//! Levels put together within a limit.
#![tactic(auto)]

mod limiting;

pub use limiting::{glue_three, hold_within, is_same_link, within};
