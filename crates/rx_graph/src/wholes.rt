//! Lists of spans that are a whole part.

ghost use Rattle.std.specs.Prelude.{◌≡◌, Bool};
ghost use Rattle.rx_tree.specs.Points.{is_whole_list, is_whole_at};

use rx_value::{Span, is_whole_span};

// Whether there is one span alone, and it is whole.
fn is_whole_list(nullable: bool, spans: &[Span]) -> bool
    ensures { result ≡ is_whole_list nullable spans.now }
{
    match spans {
        [span] => is_whole_span(nullable, span),
        _ => false,
    }
}

/// Whether the spans of a part are the whole of it as one.
pub fn is_whole_at(nullable: &[bool], part: u32, spans: &[Span]) -> bool
    ensures { result ≡ is_whole_at nullable.now part spans.now }
{
    let [first, rest @ ..] = nullable else {
        return false;
    };
    if part == 0 {
        return is_whole_list(*first, spans);
    }
    is_whole_at(rest, part - 1, spans)
}
