//! Lists of spans of one part: what rising ones cover, as spans that don't touch, and what they leave.
#![tactic(auto)]

mod remains;
mod uniting;

pub use remains::gaps;
pub use uniting::united;
