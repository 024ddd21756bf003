ghost use Rattle.std.specs.Prelude.{◌≡◌, IfOk};

use crate::candidates::Scan;
use rx_value::{Copied, KeyRange, RangeList};
use std::alloc::{AllocError, Global};

fn copy_range(alloc: Global, range: &KeyRange) -> Result<KeyRange, AllocError>
    ensures { IfOk result (λ r. r ≡ range.now) }
{
    let points = range.points.copy(alloc)?;
    let last = match &range.last {
        None => None,
        Some(span) => Some(span.copy(alloc)?),
    };
    Ok(KeyRange { points, last })
}

/// The same ranges in memory of their own. The error is want of memory.
pub fn copy_ranges(alloc: Global, ranges: &RangeList) -> Result<RangeList, AllocError>
    ensures { IfOk result (λ list. list ≡ ranges.now) }
{
    let mut copies = RangeList::with_capacity(alloc, ranges.len())?;
    for range in ranges.as_slice() {
        copies.push(copy_range(alloc, range)?)?;
    }
    Ok(copies)
}

impl Scan {
    /// The same scan in memory of its own. The error is want of memory.
    pub fn copy(&self, alloc: Global) -> Result<Scan, AllocError>
        ensures { IfOk result (λ s. s ≡ self.now) }
    {
        let ranges = copy_ranges(alloc, &self.ranges)?;
        Ok(Scan {
            index: self.index,
            role: self.role,
            member: self.member,
            part: self.part,
            ranges,
            dives: self.dives,
            rows: self.rows,
        })
    }
}

impl Copied for Scan {
    fn copied(&self, alloc: Global) -> Result<Scan, AllocError> {
        self.copy(alloc)
    }
}
