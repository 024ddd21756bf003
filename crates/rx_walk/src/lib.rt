//! Walks over the levels of an arena, that give the ranges of the cover of a tree one by one.
#![tactic(auto)]

mod collecting;
mod points;
mod range_refs;
mod ranges;
mod stretches;
mod walks;

pub use collecting::collect_ranges;
pub use range_refs::RangeRef;
pub use ranges::Ranges;
