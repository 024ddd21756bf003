//! Statistics: how many records an index has per key of its first parts.
#![tactic(auto)]

mod computing;

pub use computing::{Statistics, computed};
