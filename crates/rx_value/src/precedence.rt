ghost use Rattle.std.specs.Prelude.{◌≡◌, option_map};
ghost use Rattle.rx_value.specs.Order.{end_cmp, is_at_most};
ghost use Rattle.rx_value.specs.Keys.{point_span, spans_in, same_span, comes_first, differ_so, is_range_before};
ghost use Rattle.rx_value.specs.Parts.{edge_end, place_span, spans_from, split_span};

use crate::order::{End, Side, Span, compare_sides};
use crate::ranges::KeyRange;
use crate::values::{Value, compare};
use std::cmp::Ordering;

// An end whose value is borrowed.
#[derive(Clone, Copy)]
enum Edge<'a> {
    Cut { at: &'a Value, side: Side },
    Last,
}

// What a range has on one part: a span, or a point as one.
#[derive(Clone, Copy)]
struct Place<'a> {
    lo: Edge<'a>,
    hi: Edge<'a>,
}

// What a range has from a part on.
#[derive(Clone, Copy)]
struct Rest<'a> {
    points: &'a [Value],
    last: Option<&'a Span>,
}

fn edge_of(end: &End) -> Edge<'_>
    ensures { edge_end result ≡ end.now }
{
    match end {
        End::Cut { at, side } => Edge::Cut { at, side: *side },
        End::Last => Edge::Last,
    }
}

fn place_of_span(span: &Span) -> Place<'_>
    ensures { place_span result ≡ span.now }
{
    Place {
        lo: edge_of(&span.lo),
        hi: edge_of(&span.hi),
    }
}

fn place_of_point(point: &Value) -> Place<'_>
    ensures { place_span result ≡ point_span point.now }
{
    Place {
        lo: Edge::Cut {
            at: point,
            side: Side::Below,
        },
        hi: Edge::Cut {
            at: point,
            side: Side::Above,
        },
    }
}

// What a range has on the first of its parts, and what it has from the next one on.
fn split_first(rest: Rest<'_>) -> Option<(Place<'_>, Rest<'_>)>
    ensures { option_map (λ p. (place_span p.0, spans_from p.1)) result ≡ split_span (spans_from rest.entry) }
{
    match (rest.points, rest.last) {
        ([point, points @ ..], last) => Some((place_of_point(point), Rest { points, last })),
        ([], Some(span)) => Some((
            place_of_span(span),
            Rest {
                points: &[],
                last: None,
            },
        )),
        ([], None) => None,
    }
}

fn compare_edges(a: Edge<'_>, b: Edge<'_>) -> Ordering
    ensures { result ≡ end_cmp (edge_end a.entry) (edge_end b.entry) }
{
    match (a, b) {
        (Edge::Last, Edge::Last) => Ordering::Equal,
        (Edge::Last, _) => Ordering::Greater,
        (_, Edge::Last) => Ordering::Less,
        (Edge::Cut { at: u, side: low }, Edge::Cut { at: v, side: high }) => compare(u, v).then(
            compare_sides(low, high),
        ),
    }
}

fn is_edge_at_most(a: Edge<'_>, b: Edge<'_>) -> bool
    ensures { result ≡ is_at_most (edge_end a.entry) (edge_end b.entry) }
{
    match compare_edges(a, b) {
        Ordering::Greater => false,
        _ => true,
    }
}

fn same_place(a: Place<'_>, b: Place<'_>) -> bool
    ensures { result ≡ same_span (place_span a.entry) (place_span b.entry) }
{
    match (compare_edges(a.lo, b.lo), compare_edges(a.hi, b.hi)) {
        (Ordering::Equal, Ordering::Equal) => true,
        _ => false,
    }
}

fn comes_first(falls: bool, a: Place<'_>, b: Place<'_>) -> bool
    ensures { result ≡ comes_first falls (place_span a.entry) (place_span b.entry) }
{
    if falls {
        is_edge_at_most(b.hi, a.lo)
    } else {
        is_edge_at_most(a.hi, b.lo)
    }
}

// Whether, at the first of these parts at which two ranges differ, both name it, and the first comes before the second.
fn differ_so(a: Rest<'_>, b: Rest<'_>, falling: &[bool]) -> bool
    ensures { result ≡ differ_so falling.now (spans_from a.entry) (spans_from b.entry) }
{
    let Some((falls, falling)) = falling.split_first() else {
        return false;
    };
    let Some((place, a)) = split_first(a) else {
        return false;
    };
    let Some((other, b)) = split_first(b) else {
        return false;
    };
    if same_place(place, other) {
        differ_so(a, b, falling)
    } else {
        comes_first(*falls, place, other)
    }
}

fn rest_of(range: &KeyRange) -> Rest<'_>
    ensures { spans_from result ≡ spans_in range.now }
{
    Rest {
        points: range.points.as_slice(),
        last: range.last.as_ref(),
    }
}

/// Whether a range comes before another in the order of an index, on parts of which each falls or rises: at the first
/// part at which they differ, both name it, and the first ends where the second begins, or earlier. `falling` has a
/// member for each part that the ranges name. Takes no memory.
pub fn before(a: &KeyRange, b: &KeyRange, falling: &[bool]) -> bool
    ensures { result ≡ is_range_before falling.now a.now b.now }
{
    differ_so(rest_of(a), rest_of(b), falling)
}
