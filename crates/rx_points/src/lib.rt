//! Two short lent levels of items without children, made into one anew.
#![tactic(auto)]

mod merging;
mod points;
mod reading;

pub use points::{are_points, unite_points};
