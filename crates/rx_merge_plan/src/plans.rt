use rx_cost::CandidateList;

/// The index merges of a query: its intersections, and its unions in the order of the disjunctions.
#[derive(Drop)]
pub struct MergePlans {
    /// The intersections, those of fewer scans first.
    pub intersections: CandidateList,
    /// The unions, those of sorted ids too, at most one for each disjunction.
    pub unions: CandidateList,
    /// The seeks that counted the ranges of disjuncts, as far as a number goes.
    pub seeks: u64,
}
