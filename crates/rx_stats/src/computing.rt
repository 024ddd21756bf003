ghost use Rattle.std.specs.Prelude.{◌≡◌, ◌≤◌, IfOk, length};
ghost use Rattle.rx_value.specs.Limits.{most_rows};
ghost use Rattle.rx_value.specs.Shape.{IsSchema};
ghost use Rattle.rx_index.specs.Entries.{IsEntered};
ghost use Rattle.rx_index.specs.Different.{AreDifferent};
ghost use Rattle.rx_stats.specs.Computed.{per_key, AreNumbers, IsComputed};
ghost use Rattle.rx_stats.specs.Statistics.{IsStatistics};

use rx_index::Indexed;
use rx_value::{List, NumberList, Part, Row};
use std::alloc::{AllocError, Global};

/// Per index one number for each of its parts: the records per key of the first part, of the first two, and so on.
pub type Statistics = List<NumberList>;

// So many rows for each of so many keys, at least 1.
fn per_key(rows: u32, different: u32) -> u32
    ensures { result ≡ per_key rows different }
{
    match rows.checked_div(different) {
        None => 1,
        Some(number) => number.max(1),
    }
}

// The numbers of an index, which has so many different keys on its first part, on its first two, and so on.
fn numbers_of(
    alloc: Global,
    parts: &[Part],
    rows: &[Row],
    different: &[u32],
) -> Result<NumberList, AllocError>
    requires different { AreDifferent parts.now rows.now different.now }
    requires few { length rows.now ≤ most_rows }
    ensures { IfOk result (λ numbers. AreNumbers parts.now rows.now numbers) }
{
    let mut numbers = NumberList::with_capacity(alloc, parts.len())?;
    for n in 0..parts.len() {
        numbers.push(per_key(rows.len() as u32, different[n]))?;
    }
    Ok(numbers)
}

/// The statistics that the rows of a table have: for the first parts of an index the number of rows by that of their
/// different keys, without rest, and at least 1; keys are cut where a part has a prefix length (MySQL manual, "InnoDB and
/// MyISAM Index Statistics Collection"). The error is want of memory.
pub fn computed(alloc: Global, t: &Indexed) -> Result<Statistics, AllocError>
    requires limits { IsSchema t.now.schema }
    requires entered { IsEntered t.now }
    ensures exact { IfOk result (λ statistics. IsComputed t.now statistics) }
    ensures suits { IfOk result (λ statistics. IsStatistics t.now.schema statistics) }
{
    let count = t.schema.indexes.len();
    let mut statistics = Statistics::with_capacity(alloc, count)?;
    for n in 0..count {
        let index = n as u32;
        let numbers = numbers_of(alloc, t.parts(index), t.rows.as_slice(), t.different(index))?;
        statistics.push(numbers)?;
    }
    Ok(statistics)
}
