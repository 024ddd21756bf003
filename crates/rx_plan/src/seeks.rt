//! How many seeks were made to estimate ranges, by what their scans tell.

ghost use Rattle.std.specs.Prelude.{◌≡◌, min, not};
ghost use Rattle.std.specs.List.{sum_by};
ghost use Rattle.rx_estimate.specs.Estimates.{is_dived};
ghost use Rattle.rx_plan.specs.Seeks.{most_told, seeks_of_scan, seeks_of_candidate};

use rx_cost::{Candidate, Scan};
use rx_value::KeyRange;

// Whether the entries of a range were counted.
fn is_dived(dives: bool, range: &KeyRange) -> bool
    ensures { result ≡ is_dived (not dives) range.now }
{
    dives || range.last.is_some()
}

// How many seeks counted the entries of a scan's ranges.
fn seeks_of_scan(scan: &Scan) -> u64
    ensures { result ≡ min most_told (seeks_of_scan scan.now) }
{
    let mut seeks: u64 = 0;
    for range in scan.ranges.as_slice() {
        if is_dived(scan.dives, range) {
            seeks = seeks.saturating_add(2);
        }
    }
    seeks
}

/// How many seeks counted the entries of the ranges of scans, as far as a number goes.
pub fn seeks_of_scans(scans: &[Scan]) -> u64
    ensures { result ≡ min most_told (sum_by seeks_of_scan scans.now) }
{
    let mut seeks: u64 = 0;
    for scan in scans {
        seeks = seeks.saturating_add(seeks_of_scan(scan));
    }
    seeks
}

/// How many seeks counted the entries of the ranges of candidates, as far as a number goes.
pub fn seeks_of(candidates: &[Candidate]) -> u64
    ensures { result ≡ min most_told (sum_by seeks_of_candidate candidates.now) }
{
    let mut seeks: u64 = 0;
    for candidate in candidates {
        seeks = seeks.saturating_add(seeks_of_scans(candidate.scans.as_slice()));
    }
    seeks
}
