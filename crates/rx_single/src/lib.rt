//! The spans of a part of an index at which a single test can be true, or can be false.
#![tactic(auto)]

mod comparing;
mod listing;
mod patterns;
mod regions;

pub use comparing::comparison_spans;
pub use listing::list_spans;
pub use patterns::pattern_spans;
