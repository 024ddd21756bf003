//! The store of levels: trees of items that are shared by counts and never changed.
#![tactic(auto)]

mod balance;
mod building;
mod joining;
mod levels;
mod links;
mod marking;
mod nodes;
mod reading;
mod trees;
mod uses;

pub use building::{Bounds, build, build_between};
pub use joining::{First, append, join, take_first};
pub use levels::Levels;
pub use links::{Link, Owned};
pub use nodes::Node;
pub use reading::{Found, find, same_levels, span_of};
pub use trees::{Item, Opened, Seen};
