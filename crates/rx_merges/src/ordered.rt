//! The scans of a condition that give row ids in rising order, and the one that filters them.

ghost use Rattle.std.specs.Prelude.{◌≡◌, ◌<◌, ◌≤◌, ◌++◌, ◌∷◌, [], IfOk, OnOk, length, All};
ghost use Rattle.std.specs.List.{position, position_or_len};
ghost use Rattle.rx_merges.specs.Ordered.{is_key, are_one_key, is_row_ordered, goes_first, placed, row_ordered, as_filter, filters_in};

use rx_cost::{Role, Scan, ScanList};
use rx_plan::{is_primary, parts_in};
use rx_value::{KeyRange, Schema};
use std::alloc::{AllocError, Global};

// Whether a range is one key of an index of so many parts.
fn is_key(range: &KeyRange, count: usize) -> bool
    ensures { result ≡ is_key count range.now }
{
    range.last.is_none() && range.points.len() == count
}

// Whether ranges of an index of so many parts hold entries of one key at most.
fn are_one_key(ranges: &[KeyRange], count: usize) -> bool
    ensures { result ≡ are_one_key count ranges.now }
{
    match ranges {
        [] => true,
        [range] => is_key(range, count),
        _ => false,
    }
}

// Whether a scan gives row ids in rising order.
fn is_row_ordered(schema: &Schema, scan: &Scan) -> bool
    requires { scan.now.index < length schema.now.indexes }
    ensures { result ≡ is_row_ordered schema.now scan.now }
{
    !is_primary(schema, scan.index)
        && are_one_key(scan.ranges.as_slice(), parts_in(schema, scan.index).len())
}

// Whether a scan goes before another: it has fewer rows, or as many and the lower index.
fn goes_first(a: &Scan, b: &Scan) -> bool
    ensures { result ≡ goes_first a.now b.now }
{
    a.rows < b.rows || (a.rows == b.rows && a.index < b.index)
}

// The place of the first scan that a scan goes before, where there is one.
fn find_place(scans: &[Scan], scan: &Scan) -> Option<usize>
    ensures { result ≡ position (goes_first scan.now) scans.now }
{
    scans.iter().position(|other| goes_first(scan, other))
}

// The same, or their number where it goes before none.
fn place_for(scans: &[Scan], scan: &Scan) -> usize
    ensures value { result ≡ position_or_len (goes_first scan.now) scans.now }
    ensures within { result ≤ length scans.now }
{
    match find_place(scans, scan) {
        Some(at) => at,
        None => scans.len(),
    }
}

// Puts a scan before the first that it goes before, or at the end. The error is want of memory.
fn place(scans: &mut Vec<Scan>, scan: Scan) -> Result<(), AllocError>
    ensures { OnOk result (scans.new.items ≡ placed scans.old.items scan) }
{
    let at = place_for(scans.as_slice(), &scan);
    scans.insert(at, scan)?;
    Ok(())
}

/// The scans that give row ids in rising order, by their rows and index. The error is want of memory.
pub(crate) fn row_ordered(
    alloc: Global,
    schema: &Schema,
    scans: &[Scan],
) -> Result<ScanList, AllocError>
    requires { All (λ scan. scan.index < length schema.now.indexes) scans.now }
    ensures { IfOk result (λ list. list ≡ row_ordered schema.now scans.now) }
{
    let mut sorted = Vec::new(alloc);
    for scan in scans {
        if is_row_ordered(schema, scan) {
            place(&mut sorted, scan.copy(alloc)?)?;
        }
    }
    Ok(ScanList::from_vec(sorted))
}

// A scan in the role of a filter.
fn as_filter(scan: Scan) -> Scan
    ensures { result ≡ as_filter scan }
{
    let mut filter = scan;
    filter.role = Role::Filter;
    filter
}

/// The scan of the primary key, which filters others, where there is one. The error is want of memory.
pub(crate) fn filters_in(
    alloc: Global,
    schema: &Schema,
    scans: &[Scan],
) -> Result<ScanList, AllocError>
    requires { All (λ scan. scan.index < length schema.now.indexes) scans.now }
    ensures { IfOk result (λ list. list ≡ filters_in schema.now scans.now) }
{
    let mut filters = ScanList::new(alloc);
    for scan in scans {
        if is_primary(schema, scan.index) {
            filters.push(as_filter(scan.copy(alloc)?))?;
        }
    }
    Ok(filters)
}
