//! Levels and items put one behind the other, so that touching neighbours with the same child are one item.
#![tactic(auto)]

mod gluing;
mod welding;

pub use gluing::{glue, is_seam};
pub use welding::weld_front;
