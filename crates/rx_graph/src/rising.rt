//! Lists of spans that a point set takes.

ghost use Rattle.std.specs.Prelude.{◌≡◌, ◌↔◌, Bool, IsTrue};
ghost use Rattle.rx_value.specs.Spans.{IsAtMost, IsBelow, IsSpan, first_end};
ghost use Rattle.rx_tree.specs.Points.{AreApart, AreSpans, AreSpansAt};

use rx_value::{End, Span, first_end, is_at_most};

/// Whether these are spans of a part, which is one of the parts, that rise and don't touch, none below
/// the first position of the part.
pub fn are_spans_at(nullable: &[bool], part: u32, spans: &[Span]) -> bool
    ensures { IsTrue result ↔ AreSpansAt nullable.now part spans.now }
{
    let [first, rest @ ..] = nullable else {
        return false;
    };
    if part == 0 {
        return are_spans(*first, spans);
    }
    are_spans_at(rest, part - 1, spans)
}

// Whether these are spans of one part that rise and don't touch.
fn are_spans(nullable: bool, spans: &[Span]) -> bool
    ensures { IsTrue result ↔ AreSpans nullable spans.now }
{
    let [span, rest @ ..] = spans else {
        return true;
    };
    let first = first_end(nullable);
    is_at_most(&first, &span.lo) && is_below(&span.lo, &span.hi) && are_apart(&span.hi, rest)
}

// Whether spans rise and don't touch, all above an end.
fn are_apart(end: &End, spans: &[Span]) -> bool
    ensures { IsTrue result ↔ AreApart end.now spans.now }
{
    let (mut end, mut rest) = (end, spans);
    'spans: while let [span, after @ ..] = rest {
        if !is_below(end, &span.lo) || !is_below(&span.lo, &span.hi) {
            return false;
        }
        end = &span.hi;
        rest = after;
    }
    true
}

fn is_below(a: &End, b: &End) -> bool
    ensures { IsTrue result ↔ IsBelow a.now b.now }
{
    !is_at_most(b, a)
}
