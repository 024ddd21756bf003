ghost use Rattle.std.specs.Prelude.{◌≡◌, drop};
ghost use Rattle.rx_index.specs.Bounds.{cut_of, first_falls, begin_of, end_of};

use rx_value::{Bound, KeyRange, Part, Rest};

// The parts from a place on.
pub(crate) fn parts_from(parts: &[Part], place: usize) -> &[Part]
    ensures { result.now ≡ drop place parts.now }
{
    &parts[place.min(parts.len())..]
}

// Whether the part at a place is there and falls.
fn falls_at(parts: &[Part], place: usize) -> bool
    ensures { result ≡ first_falls (drop place parts.now) }
{
    match parts_from(parts, place) {
        [part, ..] => part.descending,
        [] => false,
    }
}

/// Where the keys of a range begin in the order of an index of these parts: on a falling part at the span's upper end.
/// Takes no memory.
pub fn begin_of<'a>(range: &'a KeyRange, parts: &[Part]) -> Bound<'a>
    ensures points { result.points.now ≡ range.now.points }
    ensures rest { cut_of result.rest ≡ begin_of parts.now range.now }
{
    let rest = match &range.last {
        None => Rest::Start,
        Some(span) if falls_at(parts, range.points.len()) => Rest::Part(&span.hi),
        Some(span) => Rest::Part(&span.lo),
    };
    Bound {
        points: &range.points,
        rest,
    }
}

/// Where the keys of a range end in the order of an index of these parts: on a falling part at the span's lower end.
/// Takes no memory.
pub fn end_of<'a>(range: &'a KeyRange, parts: &[Part]) -> Bound<'a>
    ensures points { result.points.now ≡ range.now.points }
    ensures rest { cut_of result.rest ≡ end_of parts.now range.now }
{
    let rest = match &range.last {
        None => Rest::Finish,
        Some(span) if falls_at(parts, range.points.len()) => Rest::Part(&span.lo),
        Some(span) => Rest::Part(&span.hi),
    };
    Bound {
        points: &range.points,
        rest,
    }
}
