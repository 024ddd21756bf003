//! What scans have in all.

ghost use Rattle.std.specs.Prelude.{◌≡◌, ◌≤◌, ◌*◌, length, All};
ghost use Rattle.rx_cost.specs.Costs.{most_counted};
ghost use Rattle.rx_merges.specs.Fitting.{IsCounted, most_scans, most_ids};
ghost use Rattle.rx_merges.specs.Intersections.{ids_of, ids_in, ranges_in, rows_left, rows_met};

use rx_cost::{Scan, ids_cost};

/// What the ids of a scan cost.
pub(crate) fn ids_of(scan: &Scan) -> u64
    requires { IsCounted most_counted scan.now }
    ensures value { result ≡ ids_of scan.now }
    ensures within { result ≤ most_ids }
{
    ids_cost(scan.ranges.len() as u64, scan.rows)
}

/// What the ids of scans cost.
pub(crate) fn ids_in(scans: &[Scan]) -> u64
    requires few { length scans.now ≤ most_scans }
    requires each { All (IsCounted most_counted) scans.now }
    ensures value { result ≡ ids_in scans.now }
    ensures within { result ≤ most_scans * most_ids }
{
    let mut ids = 0;
    for scan in scans {
        ids += ids_of(scan);
    }
    ids
}

/// How many ranges scans have.
pub(crate) fn ranges_in(scans: &[Scan]) -> u64
    requires few { length scans.now ≤ most_scans }
    requires each { All (IsCounted most_counted) scans.now }
    ensures value { result ≡ ranges_in scans.now }
    ensures within { result ≤ most_scans * most_counted }
{
    let mut ranges = 0;
    for scan in scans {
        ranges += scan.ranges.len() as u64;
    }
    ranges
}

// Of so many rows, those that a scan is taken to leave, over a table of so many.
fn rows_left(count: u64, rows: u64, scan: &Scan) -> u64
    requires count { count ≤ most_counted }
    requires rows { rows ≤ count }
    requires scan { IsCounted count scan.now }
    ensures value { result ≡ rows_left count rows scan.now }
    ensures within { result ≤ count }
{
    rows * scan.rows / count.max(1)
}

/// How many rows scans are taken to have in common, over a table of so many.
pub(crate) fn rows_met(count: u64, scans: &[Scan]) -> u64
    requires count { count ≤ most_counted }
    requires each { All (IsCounted count) scans.now }
    ensures value { result ≡ rows_met count scans.now }
    ensures within { result ≤ count }
{
    let Some((first, others)) = scans.split_first() else {
        return 0;
    };
    let mut rows = first.rows;
    for scan in others {
        rows = rows_left(count, rows, scan);
    }
    rows
}
