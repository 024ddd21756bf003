//! Index merges of a condition, by what is known of its scans: the intersections of scans whose row ids rise, and the unions
//! of the members of its disjuncts.
#![tactic(auto)]

mod counts;
mod intersections;
mod laws;
mod ordered;
mod unions;

pub use intersections::intersections_among;
pub use laws::{intersections_keep_rules, unions_lose_no_row};
pub use unions::{ScanLists, union_of};
