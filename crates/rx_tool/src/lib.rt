//! The top call: words and files in, text out.
#![tactic(auto)]

mod laws;
mod scripts;
mod stops;
mod tool;

pub use laws::counts_are_sums;
pub use stops::{Status, out_of_memory, refuse_words};
pub use tool::{Ran, run};
