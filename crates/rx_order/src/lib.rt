//! DISTINCT and ORDER BY of output rows.
#![tactic(auto)]

mod distinct;
mod outputs;
mod sorting;

pub use distinct::distinct_outputs;
pub use outputs::Output;
pub use sorting::sort;
