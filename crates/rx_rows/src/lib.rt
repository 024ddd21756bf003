//! Rows on their way out: which ones a query selects, what it makes of them, and their lines of text.
#![tactic(auto)]

mod choosing;
mod finishing;
pub mod laws;
mod lines;
mod outputs;

pub use choosing::{Projected, is_selected, project};
pub use finishing::finish;
pub use lines::{print_footer, print_projected, print_row};
