use rx_value::{List, RangeList};

/// How a candidate reads the rows.
#[derive(Clone, Copy, Drop)]
pub enum Kind {
    /// Every row, in the order of the ids (MySQL manual, "Avoiding Full Table Scans").
    Table,
    /// Every entry of an index that has all columns of the query (MySQL manual, "EXPLAIN Output Format", join type
    /// `index`).
    Index,
    /// One group of entries after the other, of each those that decide it (MySQL manual, "GROUP BY Optimization", "Loose
    /// Index Scan").
    Group,
    /// The entries in ranges of a later part, below each value of the parts before it (MySQL manual, "Range
    /// Optimization", "Skip Scan Range Access Method").
    SkipScan,
    /// The entries in ranges of an index, and their rows where the index has not all columns (MySQL manual, "Range
    /// Optimization").
    Range,
    /// The rows whose ids several scans have in common (MySQL manual, "Index Merge Optimization", "Index Merge
    /// Intersection Access Algorithm").
    Intersect,
    /// The rows whose ids one of several scans has, each of which gives its ids in order (MySQL manual, "Index Merge
    /// Optimization", "Index Merge Union Access Algorithm").
    Union,
    /// The same of scans whose ids are to be sorted first (MySQL manual, "Index Merge Optimization", "Index Merge
    /// Sort-Union Access Algorithm").
    SortUnion,
}

/// What a scan of an index is for.
#[derive(Clone, Copy, Drop)]
pub enum Role {
    /// All entries, without ranges.
    Whole,
    /// The groups of a loose scan, without ranges.
    Group,
    /// One of its constant parts.
    Constant,
    /// A part before those that a skip scan skips.
    Prefix,
    /// The part behind them.
    Skip,
    /// The entries in the ranges.
    Scan,
    /// Row ids in ranges of the primary key, which others are met with.
    Filter,
}

/// A scan of an index.
#[derive(Drop)]
pub struct Scan {
    /// The number of the index, from 0.
    pub index: u32,
    pub role: Role,
    /// Which disjunct it answers, from 1; 1 where there is one.
    pub member: u32,
    /// The part of the index that its ranges begin at, from 0: that of a constant, a prefix or a skip, and else the first.
    pub part: u32,
    /// The ranges that are read, in order. Those of a constant, a prefix and a skip are of their one part alone.
    pub ranges: RangeList,
    /// Whether each of the ranges was counted by seeks: not where statistics stood in for some, and for ranges of the roles
    /// of scan and filter alone.
    pub dives: bool,
    /// The rows that it is taken to give.
    pub rows: u64,
}

/// The scans of a candidate in order.
pub type ScanList = List<Scan>;

/// A way to answer a query, and what it costs.
#[derive(Drop)]
pub struct Candidate {
    pub kind: Kind,
    pub scans: ScanList,
    /// In the one unit of all costs.
    pub cost: u64,
    /// The rows that it is taken to give.
    pub rows: u64,
    /// Whether entries alone are read, and no row.
    pub index_only: bool,
}

/// Candidates in order. They are numbered from 1 where they are shown.
pub type CandidateList = List<Candidate>;

/// What the condition of a query says of an index: why there is a range scan of it, or none.
#[derive(Clone, Copy, Drop)]
pub enum Reason {
    /// It narrows the index to ranges.
    Ranges,
    /// It leaves the whole index.
    Whole,
    /// Its ranges on the first part alone would be too many (MySQL manual, "Limiting Memory Use for Range Optimization").
    NoParts,
    /// A hint of the query leaves the index out (MySQL manual, "Index Hints").
    Hint,
}

/// One reason per index, in the order of their numbers.
pub type ReasonList = List<Reason>;
