//! Candidates: the ways to answer a query, what each costs in whole numbers, and which is chosen.
//! The ways are those of the MySQL manual; the costs are this product's own, and no call for one takes memory.
#![tactic(auto)]

mod candidates;
mod choice;
mod copies;
mod costs;

pub use candidates::{Candidate, CandidateList, Kind, Reason, ReasonList, Role, Scan, ScanList};
pub use choice::choose;
pub use copies::copy_ranges;
pub use costs::{
    group_cost, ids_cost, index_cost, intersect_cost, range_cost, skip_cost, sort_union_cost,
    table_cost, union_cost,
};
