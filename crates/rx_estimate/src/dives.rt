ghost use Rattle.std.specs.Prelude.{◌≡◌, ◌≤◌, not, None, Some, IfOk, IfErr, IfSome, OnOk};
ghost use Rattle.rx_index.specs.Bounds.{count_held, index_keys};
ghost use Rattle.rx_store.specs.Tables.{IsMeaning, HasIndex, IsOfReading, Keeps};
ghost use Rattle.rx_estimate.specs.Estimates.{uses_statistics, rows_taken, parts_in, numbers_at, IsEstimate, seeks_for, dive_seeks, with_seeks};

use crate::taking::{is_equality, records_per_key, uses_statistics};
use rx_index::{begin_of, end_of};
use rx_store::{Table, TableFault};
use rx_value::{KeyRange, Part, RangeList};

/// What is known of ranges of an index before their rows are read.
#[derive(Clone, Copy, Drop)]
pub struct Dived {
    /// The rows that they are taken to have.
    pub rows: u64,
    /// Whether all ranges were counted; else statistics stood in for the equality ranges.
    pub dives: bool,
}

// The parts of an index by its number.
fn parts_in<T: Table>(table: &T, index: u32) -> &[Part]
    requires { HasIndex (T.means table.now) index }
    ensures value { result.now ≡ parts_in (T.means table.now).schema index }
    ensures sound { IsMeaning (T.means table.now) }
{
    table.shape().indexes.as_slice()[index as usize]
        .parts
        .as_slice()
}

// The records per key of an index by its number.
fn numbers_at<T: Table>(table: &T, index: u32) -> &[u32]
    requires { HasIndex (T.means table.now) index }
    ensures { result.now ≡ numbers_at (T.means table.now).statistics index }
{
    table.stats().as_slice()[index as usize].as_slice()
}

// How many entries of an index a range holds, by two seeks.
fn count_held<T: Table>(table: &mut T, index: u32, range: &KeyRange) -> Result<u64, TableFault>
    requires { HasIndex (T.means table.old) index }
    ensures told { IfOk result (λ rows. IfSome (T.means table.old).told (λ t. rows ≡ count_held range.now (index_keys t index))) }
    ensures counts { OnOk result ((T.tally table.new).counts ≡ with_seeks 2 (T.tally table.old).counts) }
    ensures keeps { OnOk result (Keeps T.means T.tally T.kept T.spent None table.old table.new) }
    ensures cause { IfErr result (λ f. Keeps T.means T.tally T.kept T.spent (Some f) table.old table.new) }
    ensures memory { IfErr result IsOfReading }
{
    let parts = parts_in(table, index);
    let begin = begin_of(range, parts);
    let end = end_of(range, parts);
    let before = match table.seek(index, begin) {
        Ok(place) => place,
        Err(fault) => return Err(fault),
    };
    match table.seek(index, end) {
        Ok(place) => Ok(place.saturating_sub(before)),
        Err(fault) => Err(fault),
    }
}

// How many rows a range is taken to have: as many as it holds, or by statistics as many as one key has.
fn rows_taken<T: Table>(
    table: &mut T,
    index: u32,
    range: &KeyRange,
    by_statistics: bool,
) -> Result<u64, TableFault>
    requires { HasIndex (T.means table.old) index }
    ensures told { IfOk result (λ rows. IfSome (T.means table.old).told (λ t. rows ≡ rows_taken by_statistics (T.means table.old).count (numbers_at (T.means table.old).statistics index) (index_keys t index) range.now)) }
    ensures counts { OnOk result ((T.tally table.new).counts ≡ with_seeks (seeks_for by_statistics range.now) (T.tally table.old).counts) }
    ensures keeps { OnOk result (Keeps T.means T.tally T.kept T.spent None table.old table.new) }
    ensures cause { IfErr result (λ f. Keeps T.means T.tally T.kept T.spent (Some f) table.old table.new) }
    ensures memory { IfErr result IsOfReading }
{
    if by_statistics && is_equality(range) {
        return Ok(records_per_key(table.rows(), numbers_at(table, index), range.points.len()));
    }
    count_held(table, index, range)
}

/// How many rows ranges of an index, by its number from 0, are taken to have: no more than the table has. Where the limit
/// isn't 0 and there are at least so many equality ranges, each of these counts as many rows as the statistics tell for one
/// key of its points; all other ranges are counted, by two seeks each (MySQL manual, "Range Optimization", "Equality Range
/// Optimization of Many-Valued Comparisons"). It may fail to be read or be damaged; it takes no memory.
pub fn dive<T: Table>(
    table: &mut T,
    index: u32,
    ranges: &RangeList,
    limit: u64,
) -> Result<Dived, TableFault>
    requires { HasIndex (T.means table.old) index }
    ensures rows { IfOk result (λ d. IsEstimate (T.means table.old) index limit ranges.now d.rows) }
    ensures within { IfOk result (λ d. d.rows ≤ (T.means table.old).count) }
    ensures dives { IfOk result (λ d. d.dives ≡ not (uses_statistics limit ranges.now)) }
    ensures counts { OnOk result ((T.tally table.new).counts ≡ with_seeks (dive_seeks limit ranges.now) (T.tally table.old).counts) }
    ensures keeps { OnOk result (Keeps T.means T.tally T.kept T.spent None table.old table.new) }
    ensures cause { IfErr result (λ f. Keeps T.means T.tally T.kept T.spent (Some f) table.old table.new) }
    ensures memory { IfErr result IsOfReading }
{
    let by_statistics = uses_statistics(limit, ranges.as_slice());
    let most = table.rows();
    let mut rows: u64 = 0;
    for range in ranges.as_slice() {
        match rows_taken(table, index, range, by_statistics) {
            Ok(taken) => rows = rows.saturating_add(taken).min(most),
            Err(fault) => return Err(fault),
        }
    }
    Ok(Dived {
        rows,
        dives: !by_statistics,
    })
}
