//! Rows that stand by their keys already.

ghost use Rattle.std.specs.Prelude.{◌≡◌, true};
ghost use Rattle.std.specs.Ordering.{is_lt};
ghost use Rattle.rx_value.specs.Keys.{key_of, key_cmp};
ghost use Rattle.rx_index.specs.Marks.{DoRise};

use rx_value::{Part, Row, compare_keys};
use std::cmp::Ordering;

fn is_before(parts: &[Part], a: &Row, b: &Row) -> bool
    ensures { result ≡ is_lt (key_cmp parts.now (key_of parts.now a.now) (key_of parts.now b.now)) }
{
    match compare_keys(parts, a, b) {
        Ordering::Less => true,
        _ => false,
    }
}

/// Whether each row is before the next one by its key on these parts.
pub(crate) fn do_rise(parts: &[Part], rows: &[Row]) -> bool
    ensures { result ≡ true → DoRise parts.now rows.now }
{
    for place in 1..rows.len() {
        if !is_before(parts, &rows[place - 1], &rows[place]) {
            return false;
        }
    }
    true
}
