//! What a run reads, in counts that stay at their last value.

ghost use Rattle.std.specs.Prelude.{◌≡◌, ◌+◌, ◌*◌};
ghost use Rattle.rx_merge.specs.Merged.{count_ranges};
ghost use Rattle.rx_run.specs.Reads.{times, counted_number};

use rx_cost::Scan;
use rx_store::Counts;

/// What the opening of a run read, and what is read for each row that it hands out.
#[derive(Clone, Copy, Drop)]
pub struct Reads {
    pub opened: Counts,
    pub each: Counts,
}

fn add(count: u64, each: u64, rows: u64) -> u64
    ensures { result ≡ counted_number (count + each * rows) }
{
    count.saturating_add(each.saturating_mul(rows))
}

impl Reads {
    /// What is read in all for so many rows; each count stays at its last value.
    pub fn of(&self, rows: u64) -> Counts
        ensures { result ≡ times self.now rows }
    {
        Counts {
            seeks: add(self.opened.seeks, self.each.seeks, rows),
            entries: add(self.opened.entries, self.each.entries, rows),
            rows: add(self.opened.rows, self.each.rows, rows),
        }
    }
}

/// How many seeks the ranges of scans take, two for each; the count stays at its last value.
pub(crate) fn count_seeks(scans: &[Scan]) -> u64
    ensures { result ≡ counted_number (2 * count_ranges scans.now) }
{
    let mut seeks: u64 = 0;
    for scan in scans {
        seeks = seeks.saturating_add((scan.ranges.len() as u64).saturating_mul(2));
    }
    seeks
}
