//! Intersections: the rows whose ids several scans have in common.

ghost use Rattle.std.specs.Prelude.{◌≡◌, ◌<◌, ◌≤◌, ◌++◌, ◌*◌, IfOk, length, take, All};
ghost use Rattle.std.specs.List.{list_any, list_all};
ghost use Rattle.rx_cost.specs.Costs.{most_counted};
ghost use Rattle.rx_merges.specs.Fitting.{IsCounted, AreScans, most_scans};
ghost use Rattle.rx_merges.specs.Intersections.{is_whole_part, have_column, are_enough, intersection, do_meet, intersection_of, intersections_with, intersections_among};

use crate::counts::{ids_in, ranges_in, rows_met};
use crate::ordered::{filters_in, row_ordered};
use rx_cost::{Candidate, CandidateList, Kind, Scan, ScanList, intersect_cost};
use rx_plan::parts_in;
use rx_value::{Part, Schema};
use std::alloc::{AllocError, Global};

// Whether a column is a part of an index, one without a prefix length.
fn is_whole_part(parts: &[Part], column: u32) -> bool
    ensures { result ≡ is_whole_part parts.now column }
{
    parts
        .iter()
        .any(|part| part.column == column && part.chars.is_none())
}

// Whether a column is such a part of one of the indexes of scans.
fn have_column(schema: &Schema, scans: &[Scan], column: u32) -> bool
    requires { All (λ scan. scan.index < length schema.now.indexes) scans.now }
    ensures { result ≡ have_column schema.now scans.now column }
{
    for scan in scans {
        if is_whole_part(parts_in(schema, scan.index), column) {
            return true;
        }
    }
    false
}

// Whether scans have all of these columns.
fn have_columns(schema: &Schema, scans: &[Scan], columns: &[u32]) -> bool
    requires { All (λ scan. scan.index < length schema.now.indexes) scans.now }
    ensures { result ≡ list_all (have_column schema.now scans.now) columns.now }
{
    for column in columns {
        if !have_column(schema, scans, *column) {
            return false;
        }
    }
    true
}

// Whether entries alone may be read, and scans have all of these columns.
fn are_enough(entries: bool, columns: &[u32], schema: &Schema, scans: &[Scan]) -> bool
    requires { All (λ scan. scan.index < length schema.now.indexes) scans.now }
    ensures { result ≡ are_enough entries columns.now schema.now scans.now }
{
    entries && have_columns(schema, scans, columns)
}

// Scans and behind them others, in memory of their own. The error is want of memory.
fn joined(alloc: Global, scans: &[Scan], others: &[Scan]) -> Result<ScanList, AllocError>
    ensures { IfOk result (λ list. list ≡ scans.now ++ others.now) }
{
    let mut list = ScanList::new(alloc);
    for scan in scans {
        list.push(scan.copy(alloc)?)?;
    }
    for scan in others {
        list.push(scan.copy(alloc)?)?;
    }
    Ok(list)
}

// The intersection of scans and filters over a table of so many rows, whether entries alone are read. The error is want of
// memory.
fn intersection(
    alloc: Global,
    count: u64,
    entries: bool,
    scans: &[Scan],
    filters: &[Scan],
) -> Result<Candidate, AllocError>
    requires count { count ≤ most_counted }
    requires few_scans { length scans.now ≤ most_scans }
    requires few_filters { length filters.now ≤ most_scans }
    requires scans { All (IsCounted count) scans.now }
    requires filters { All (IsCounted count) filters.now }
    ensures { IfOk result (λ candidate. candidate ≡ intersection count entries scans.now filters.now) }
{
    let all = joined(alloc, scans, filters)?;
    let rows = rows_met(count, all.as_slice());
    let cost = intersect_cost(ids_in(scans), ranges_in(filters), rows, entries);
    Ok(Candidate {
        kind: Kind::Intersect,
        scans: all,
        cost,
        rows,
        index_only: entries,
    })
}

// Whether so many first scans meet: there is at least one, and with so many filters there are at least two.
fn do_meet(filters: &[Scan], n: usize) -> bool
    requires few { length filters.now ≤ most_scans }
    requires within { n ≤ most_scans }
    ensures { result ≡ do_meet filters.now n }
{
    1 <= n && 2 <= n + filters.len()
}

// The intersection of so many first scans with the filters. The error is want of memory.
fn intersection_of(
    alloc: Global,
    entries: bool,
    columns: &[u32],
    schema: &Schema,
    count: u64,
    ordered: &[Scan],
    filters: &[Scan],
    n: usize,
) -> Result<Candidate, AllocError>
    requires count { count ≤ most_counted }
    requires within { n ≤ length ordered.now }
    requires ordered { AreScans schema.now count ordered.now }
    requires filters { AreScans schema.now count filters.now }
    ensures { IfOk result (λ candidate. candidate ≡ intersection_of entries columns.now schema.now count ordered.now filters.now n) }
{
    let scans = &ordered[..n];
    let enough = are_enough(entries, columns, schema, scans);
    intersection(alloc, count, enough, scans, filters)
}

// The intersections of each front of scans with the filters, the shortest front first. The error is want of memory.
fn intersections_with(
    alloc: Global,
    entries: bool,
    columns: &[u32],
    schema: &Schema,
    count: u64,
    ordered: &[Scan],
    filters: &[Scan],
) -> Result<CandidateList, AllocError>
    requires count { count ≤ most_counted }
    requires ordered { AreScans schema.now count ordered.now }
    requires filters { AreScans schema.now count filters.now }
    ensures { IfOk result (λ list. list ≡ intersections_with entries columns.now schema.now count ordered.now filters.now) }
{
    let mut list = CandidateList::new(alloc);
    for n in 0..ordered.len() + 1 {
        if do_meet(filters, n) {
            list.push(intersection_of(
                alloc, entries, columns, schema, count, ordered, filters, n,
            )?)?;
        }
    }
    Ok(list)
}

/// The intersections of the scans of a condition over a table of so many rows: of the scans that give row ids in rising order
/// the first one, two and so on by their rows, with the scan of the primary key as filter where there is one, where these are
/// at least two. Where entries alone may be read, an intersection that has all of these columns reads no row (MySQL manual,
/// "Index Merge Optimization", "Index Merge Intersection Access Algorithm").
///
/// # Errors
///
/// The error is want of memory.
pub fn intersections_among(
    alloc: Global,
    entries: bool,
    columns: &[u32],
    schema: &Schema,
    count: u64,
    scans: &[Scan],
) -> Result<CandidateList, AllocError>
    requires count { count ≤ most_counted }
    requires scans { AreScans schema.now count scans.now }
    ensures { IfOk result (λ list. list ≡ intersections_among entries columns.now schema.now count scans.now) }
{
    let ordered = row_ordered(alloc, schema, scans)?;
    let filters = filters_in(alloc, schema, scans)?;
    intersections_with(
        alloc,
        entries,
        columns,
        schema,
        count,
        ordered.as_slice(),
        filters.as_slice(),
    )
}
