use rx_value::RangeList;

/// What is known of a condition on an index (MySQL manual, "Range Optimization").
#[derive(Drop)]
pub enum Answer {
    /// All keys of the index may be asked for.
    Whole,
    /// Not even on the first part alone does the condition stay within the limit of items, nor on more
    /// parts (MySQL manual, "Limiting Memory Use for Range Optimization").
    NoParts,
    /// Only keys in the ranges are asked for. They are on so many of the index's first parts, at least
    /// one, rise by the order of the parts, and don't overlap.
    Ranges { parts: u32, list: RangeList },
}
