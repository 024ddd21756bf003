//! The index merges of a query: what its condition and each of its disjuncts give on the indexes of a table, and the
//! intersections and unions that these make.
#![tactic(auto)]

mod counting;
mod disjoining;
mod finding;
mod intersecting;
mod laws;
mod planning;
mod plans;
mod uniting;

pub use counting::count_scans;
pub use finding::find_scans;
pub use laws::defined_merges_can_run;
pub use planning::merges;
pub use plans::MergePlans;
