ghost use Rattle.std.specs.Prelude.{◌≡◌, ◌<◌, length};
ghost use Rattle.rx_index.specs.Entries.{IsEntered, IsOrder, parts_at, ids_at};
ghost use Rattle.rx_index.specs.Bounds.{keys_of, index_keys, count_before, count_held};
ghost use Rattle.rx_index.specs.Steps.{stands_before};

use crate::bounds::{begin_of, end_of};
use crate::indexed::Indexed;
use rx_value::{Bound, KeyRange, Part, Row};

// Whether there is a row with the id, and its key stands before a bound.
fn stands_before(parts: &[Part], rows: &[Row], id: u32, bound: Bound<'_>) -> bool
    ensures { result ≡ stands_before bound.entry.points.now bound.entry.rest parts.now rows.now id }
{
    match rows.get(id as usize) {
        Some(row) => bound.is_behind(parts, row),
        None => false,
    }
}

fn count_before(parts: &[Part], rows: &[Row], ids: &[u32], bound: Bound<'_>) -> usize
    requires { IsOrder parts.now rows.now ids.now }
    ensures { result ≡ count_before bound.entry.points.now bound.entry.rest parts.now (keys_of parts.now rows.now ids.now) }
{
    ids.partition_point(|id| stands_before(parts, rows, *id, bound))
}

/// How many entries of an index stand before a bound. Takes no memory, and time in the logarithm of their number.
pub fn seek(t: &Indexed, index: u32, bound: Bound<'_>) -> u64
    requires entered { IsEntered t.now }
    requires there { index < length t.now.schema.indexes }
    ensures { result ≡ count_before bound.entry.points.now bound.entry.rest (parts_at t.now index) (index_keys t.now index) }
{
    count_before(t.parts(index), t.rows.as_slice(), t.ids(index), bound) as u64
}

/// How many entries of an index a range holds. Takes no memory, and time in the logarithm of their number.
pub fn count_in(t: &Indexed, index: u32, range: &KeyRange) -> u64
    requires entered { IsEntered t.now }
    requires there { index < length t.now.schema.indexes }
    ensures { result ≡ count_held range.now (index_keys t.now index) }
{
    let parts = t.parts(index);
    let before = seek(t, index, begin_of(range, parts));
    seek(t, index, end_of(range, parts)).saturating_sub(before)
}
