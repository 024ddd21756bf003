use rx_cost::{CandidateList, ReasonList};

/// The candidates of a query that need no planner of their own, and what its condition says of each index.
#[derive(Drop)]
pub struct OrdinaryPlan {
    /// The table scan, and the covering scans in the order of the indexes.
    pub scans: CandidateList,
    /// The range scans in the order of the indexes.
    pub ranges: CandidateList,
    /// One reason per index, in the order of their numbers.
    pub answers: ReasonList,
}
