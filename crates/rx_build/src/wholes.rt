//! Whether ranges are one that is the whole first part.

ghost use Rattle.std.specs.Prelude.{◌≡◌, ◌↔◌, [], Some, IsTrue};
ghost use Rattle.rx_value.specs.Spans.{whole_span};
ghost use Rattle.rx_ranges.specs.Answers.{whole_list};

use crate::shapes::may_be_null;
use rx_value::{Column, End, KeyRange, Part, Span, compare_ends, first_end};

fn is_whole_part(nullable: bool, span: &Span) -> bool
    ensures { IsTrue result ↔ (span.now ≡ whole_span nullable) }
{
    matches!(span.hi, End::Last) && compare_ends(&span.lo, &first_end(nullable)).is_eq()
}

fn is_whole_range(nullable: bool, range: &KeyRange) -> bool
    ensures { IsTrue result ↔ (range.now ≡ record { points = []; last = Some (whole_span nullable) }) }
{
    match &range.last {
        Some(span) => range.points.len() == 0 && is_whole_part(nullable, span),
        None => false,
    }
}

/// Whether ranges are the one range that is the whole first part.
pub(crate) fn is_whole(columns: &[Column], parts: &[Part], list: &[KeyRange]) -> bool
    ensures { IsTrue result ↔ (list.now ≡ whole_list columns.now parts.now) }
{
    match (parts, list) {
        ([], []) => true,
        ([part, ..], [range]) => is_whole_range(may_be_null(columns, part.column), range),
        _ => false,
    }
}
