ghost use Rattle.std.specs.Prelude.{◌≡◌};
ghost use Rattle.rx_value.specs.Keys.{key_of, key_cmp, goes_before, is_before};

use crate::list::Row;
use crate::ranges::{Bound, Rest};
use crate::shapes::Part;
use crate::values::Value;
use std::cmp::Ordering;

/// The order of the keys that two rows have on an index of these parts. Takes no memory.
pub fn compare_keys(parts: &[Part], a: &Row, b: &Row) -> Ordering
    ensures { result ≡ key_cmp parts.now (key_of parts.now a.now) (key_of parts.now b.now) }
{
    let Some((part, parts)) = parts.split_first() else {
        return Ordering::Equal;
    };
    match part.value(a).compare(part.value(b), part.descending) {
        Ordering::Equal => compare_keys(parts, a, b),
        other => other,
    }
}

// Whether a row's key, of which the points of a bound are passed, stands before the rest of the bound.
fn goes_before(parts: &[Part], row: &Row, rest: Rest<'_>) -> bool
    ensures { result ≡ goes_before rest.entry parts.now (key_of parts.now row.now) }
{
    match (rest, parts) {
        (Rest::Start, _) => false,
        (Rest::Finish, _) => true,
        (Rest::Part(_), []) => false,
        (Rest::Part(end), [part, ..]) => part.value(row).is_before(end, part.descending),
    }
}

fn is_before(parts: &[Part], row: &Row, points: &[Value], rest: Rest<'_>) -> bool
    ensures { result ≡ is_before points.now rest.entry parts.now (key_of parts.now row.now) }
{
    let Some((point, points)) = points.split_first() else {
        return goes_before(parts, row, rest);
    };
    let Some((part, parts)) = parts.split_first() else {
        return false;
    };
    let compared = part.value(row).compare(point.cut(None), part.descending);
    match compared {
        Ordering::Less => true,
        Ordering::Equal => is_before(parts, row, points, rest),
        Ordering::Greater => false,
    }
}

impl<'a> Bound<'a> {
    /// Whether the key that a row has on an index of these parts stands before the bound. Takes no memory.
    pub fn is_behind(self, parts: &[Part], row: &Row) -> bool
        ensures { result ≡ is_before self.entry.points.now self.entry.rest parts.now (key_of parts.now row.now) }
    {
        is_before(parts, row, self.points.as_slice(), self.rest)
    }
}
