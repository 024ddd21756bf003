//! The ranges of a condition on an index, on the most of its parts on which all fits a limit of items.
#![tactic(auto)]

mod answers;
mod attempts;
mod building;
mod laws;
mod shapes;
mod wholes;

pub use answers::Answer;
pub use building::ranges_of;
pub use laws::answers_are_given;
