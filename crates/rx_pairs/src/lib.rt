//! What was made of which pair of levels.
#![tactic(auto)]

mod memory;
mod remembering;

pub use memory::Memory;
pub use remembering::{forget, remember};
