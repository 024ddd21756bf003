//! Graphs of intervals under handles: sets of keys as trees whose levels share what they have in common.
#![tactic(auto)]

mod arena;
mod faults;
mod handles;
mod limits;
mod parts;
mod points;
mod rising;
mod wholes;

pub use arena::Arena;
pub use faults::GraphFault;
pub use handles::{Handle, Root};
pub use limits::{second_within, within};
