//! The candidates by what they are made of.

ghost use Rattle.std.specs.Prelude.{◌≡◌, ◌≤◌, [], ◌∷◌, IfOk, length};
ghost use Rattle.rx_cost.specs.Costs.{most_counted};
ghost use Rattle.rx_plan.specs.Candidates.{table_scan, index_scan, range_candidate};

use rx_cost::{Candidate, Kind, Role, Scan, ScanList, index_cost, range_cost, table_cost};
use rx_estimate::Dived;
use rx_value::RangeList;
use std::alloc::{AllocError, Global};

/// The scan of a table of so many rows. Takes no memory.
pub(crate) fn table_scan(alloc: Global, rows: u64) -> Candidate
    requires { rows ≤ most_counted }
    ensures { result ≡ table_scan rows }
{
    Candidate {
        kind: Kind::Table,
        scans: ScanList::new(alloc),
        cost: table_cost(rows),
        rows,
        index_only: false,
    }
}

// One scan in a list. The error is want of memory.
fn only(alloc: Global, scan: Scan) -> Result<ScanList, AllocError>
    ensures { IfOk result (λ list. list ≡ scan ∷ []) }
{
    let mut scans = ScanList::new(alloc);
    scans.push(scan)?;
    Ok(scans)
}

/// The scan of all entries of an index by its number, over a table of so many rows. The error is want of memory.
pub(crate) fn index_scan(alloc: Global, rows: u64, index: u32) -> Result<Candidate, AllocError>
    requires { rows ≤ most_counted }
    ensures { IfOk result (λ candidate. candidate ≡ index_scan rows index) }
{
    let scan = Scan {
        index,
        role: Role::Whole,
        member: 1,
        part: 0,
        ranges: RangeList::new(alloc),
        dives: false,
        rows,
    };
    let scans = only(alloc, scan)?;
    Ok(Candidate {
        kind: Kind::Index,
        scans,
        cost: index_cost(rows),
        rows,
        index_only: true,
    })
}

/// The scan of ranges of an index by its number, whether it is the primary key, and whether entries alone are read. The
/// error is want of memory.
pub(crate) fn range_candidate(
    alloc: Global,
    index: u32,
    ranges: RangeList,
    dived: Dived,
    primary: bool,
    index_only: bool,
) -> Result<Candidate, AllocError>
    requires ranges { length ranges ≤ most_counted }
    requires rows { dived.rows ≤ most_counted }
    ensures { IfOk result (λ candidate. candidate ≡ range_candidate index ranges dived.dives dived.rows primary index_only) }
{
    let cost = range_cost(ranges.len() as u64, dived.rows, primary, index_only);
    let scan = Scan {
        index,
        role: Role::Scan,
        member: 1,
        part: 0,
        ranges,
        dives: dived.dives,
        rows: dived.rows,
    };
    let scans = only(alloc, scan)?;
    Ok(Candidate {
        kind: Kind::Range,
        scans,
        cost,
        rows: dived.rows,
        index_only,
    })
}
