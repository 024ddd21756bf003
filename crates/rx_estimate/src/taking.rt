ghost use Rattle.std.specs.Prelude.{◌≡◌};
ghost use Rattle.rx_estimate.specs.Estimates.{is_equality, equalities_in, uses_statistics, records_per_key};

use rx_value::KeyRange;

/// Whether a range has points alone, and no span.
pub(crate) fn is_equality(range: &KeyRange) -> bool
    ensures { result ≡ is_equality range.now }
{
    range.last.is_none()
}

fn equalities_in(ranges: &[KeyRange]) -> usize
    ensures { result ≡ equalities_in ranges.now }
{
    let mut count = 0;
    for range in ranges {
        if is_equality(range) {
            count += 1;
        }
    }
    count
}

/// Whether statistics stand in for dives into equality ranges: from so many on as the limit says, where that isn't 0.
pub(crate) fn uses_statistics(limit: u64, ranges: &[KeyRange]) -> bool
    ensures { result ≡ uses_statistics limit ranges.now }
{
    limit != 0 && limit <= equalities_in(ranges) as u64
}

/// How many rows have one key on so many first parts of an index with these records per key: all rows on no part, and none
/// on more parts than it has.
pub(crate) fn records_per_key(rows: u64, numbers: &[u32], points: usize) -> u64
    ensures { result ≡ records_per_key rows numbers.now points }
{
    match points.checked_sub(1) {
        None => rows,
        Some(last) => numbers.get(last).map_or(0, |number| u64::from(*number)),
    }
}
