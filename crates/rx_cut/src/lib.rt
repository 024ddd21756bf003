//! Lent levels cut at the ends of a span.
#![tactic(auto)]

mod clipping;

pub use clipping::{ahead, bare_span, behind, clip, hold_both};
