//! LIKE patterns on a part.

ghost use Rattle.std.specs.Prelude.{◌≡◌, ◌<◌, ◌-◌, [], ◌∷◌, false, length, slice_index, vec_len, IfOk};
ghost use Rattle.std.specs.Str.{chars, IsUtf8};
ghost use Rattle.rx_value.specs.declared.values.Value.TheVariants.{Text};
ghost use Rattle.rx_value.specs.Order.{below};
ghost use Rattle.rx_value.specs.Keys.{cut_value, point_span};
ghost use Rattle.rx_regions.specs.Places.{raised};
ghost use Rattle.rx_regions.specs.Cans.{fills, begins};
ghost use Rattle.rx_single.specs.Single.{AreSpansOf};

use crate::listing::point_of;
use crate::regions::{alone, below};
use rx_like::prefix_of;
use rx_value::{Bytes, Span, SpanList, Value, whole_span};
use std::alloc::{AllocError, Global};
use std::str::from_utf8;

// How many characters a text has.
fn char_count(text: &str) -> usize
    ensures { result ≡ length (chars text.now) }
{
    text.chars().count()
}

// Whether a text has as many characters as the part, or more.
fn fills(chars: Option<u32>, text: &[u8]) -> bool
    requires { IsUtf8 text.now }
    ensures { result ≡ fills chars text.now }
{
    match (chars, from_utf8(text)) {
        (Some(count), Ok(text)) => count as usize <= char_count(text),
        _ => false,
    }
}

// Bytes with the last one raised by one.
fn raised(bytes: Vec<u8>) -> Vec<u8>
    requires { slice_index bytes.items (vec_len bytes - 1) < 255 }
    ensures { result.items ≡ raised bytes.items }
{
    let mut raised = bytes;
    if let Some(last) = raised.last_mut() {
        *last += 1;
    }
    raised
}

// The point of a text on a part.
fn text_point(alloc: Global, chars: Option<u32>, text: Vec<u8>) -> Result<SpanList, AllocError>
    ensures { IfOk result (λ spans. spans ≡ point_span (cut_value chars (Text text.items)) ∷ []) }
{
    let value = Value::Text(Bytes::from_vec(text));
    let point = point_of(alloc, value.cut(chars))?;
    let spans = alone(alloc, point)?;
    Ok(spans)
}

// From a text on, up to the text with its last byte raised.
fn text_range(alloc: Global, text: Vec<u8>) -> Result<SpanList, AllocError>
    requires { slice_index text.items (vec_len text - 1) < 255 }
    ensures { IfOk result (λ spans. spans ≡ record { lo = below (Text text.items); hi = below (Text (raised text.items)) } ∷ []) }
{
    let first = Value::Text(Bytes::of(alloc, &text)?);
    let lo = below(alloc, &first)?;
    let behind = Value::Text(Bytes::from_vec(raised(text)));
    let hi = below(alloc, &behind)?;
    alone(alloc, Span { lo, hi })
}

/// The spans of a part at which it can be true that its column is LIKE a pattern. The part may be NULL or not,
/// and has so many characters of its column's texts where there is a number. The error is want of memory.
pub fn pattern_spans(
    alloc: Global,
    nullable: bool,
    chars: Option<u32>,
    pattern: &[u8],
) -> Result<SpanList, AllocError>
    ensures { IfOk result (λ spans. AreSpansOf nullable spans (begins pattern.now chars)) }
{
    let (prefix, is_whole) = prefix_of(alloc, pattern)?;
    if is_whole || fills(chars, &prefix) {
        let point = text_point(alloc, chars, prefix)?;
        return Ok(point);
    }
    if prefix.is_empty() {
        return alone(alloc, whole_span(nullable));
    }
    let range = text_range(alloc, prefix)?;
    Ok(range)
}
