//! The cover of a tree of intervals: the ranges that a walk over it gives, that they rise and are
//! disjoint, that they lose no key, and that they are no more than the items of the tree. There is
//! nothing to run here; each law is the contract of an empty function.
#![tactic(auto)]

mod laws;

pub use laws::{covers_are_few, covers_lose_no_key, covers_rise};
