//! Tests of a part against a list of values.

ghost use Rattle.std.specs.Prelude.{◌≡◌, false, map, None, IfOk};
ghost use Rattle.std.specs.List.{list_any};
ghost use Rattle.rx_value.specs.Keys.{point_span};
ghost use Rattle.rx_value.specs.Parts.{borrowed};
ghost use Rattle.rx_cond.specs.Test.{is_null_value};
ghost use Rattle.rx_regions.specs.Cans.{lists};
ghost use Rattle.rx_single.specs.Single.{AreSpansOf};
ghost use Rattle.rx_single.specs.Listing.{cut_values, points_of, IsByValue, ArePointsOf};

use crate::comparing::owned;
use crate::regions::{above, but_null};
use rx_spans::{gaps, united};
use rx_value::{End, PartValue, Side, Span, SpanList, Value};
use std::alloc::{AllocError, Global};

fn is_null(value: &Value) -> bool
    ensures { result ≡ is_null_value value.now }
{
    matches!(value, Value::Null)
}

fn has_null(list: &[Value]) -> bool
    ensures { result ≡ list_any is_null_value list.now }
{
    for value in list {
        if is_null(value) {
            return true;
        }
    }
    false
}

// What a part has of the values that aren't NULL.
fn cut_values<'a>(
    alloc: Global,
    chars: Option<u32>,
    list: &'a [Value],
) -> Result<Vec<PartValue<'a>>, AllocError>
    ensures { IfOk result (λ values. map borrowed values.items ≡ cut_values chars list.now) }
{
    let mut values = Vec::with_capacity(alloc, list.len())?;
    for value in list {
        if !is_null(value) {
            values.push(value.cut(chars))?;
        }
    }
    Ok(values)
}

// The same values, the lowest first.
fn by_value(values: Vec<PartValue<'_>>) -> Result<Vec<PartValue<'_>>, AllocError>
    ensures { IfOk result (λ sorted. IsByValue values.entry.items sorted.items) }
{
    let mut sorted = values;
    sorted.sort_by(|a, b| a.compare(*b, false))?;
    Ok(sorted)
}

/// A borrowed value as a span. The error is want of memory.
pub(crate) fn point_of(alloc: Global, value: PartValue<'_>) -> Result<Span, AllocError>
    ensures { IfOk result (λ s. s ≡ point_span (borrowed value.entry)) }
{
    let lo = End::Cut {
        at: owned(alloc, value)?,
        side: Side::Below,
    };
    let hi = End::Cut {
        at: owned(alloc, value)?,
        side: Side::Above,
    };
    Ok(Span { lo, hi })
}

fn points_of(alloc: Global, values: &[PartValue<'_>]) -> Result<SpanList, AllocError>
    ensures { IfOk result (λ spans. spans ≡ points_of values.now) }
{
    let mut spans = SpanList::with_capacity(alloc, values.len())?;
    for value in values {
        spans.push(point_of(alloc, *value)?)?;
    }
    Ok(spans)
}

// The points of the values that aren't NULL, as spans that don't touch.
fn list_points(alloc: Global, chars: Option<u32>, list: &[Value]) -> Result<SpanList, AllocError>
    ensures { IfOk result (λ spans. ArePointsOf chars list.now spans) }
{
    let values = cut_values(alloc, chars, list)?;
    let sorted = by_value(values)?;
    let rising = points_of(alloc, &sorted)?;
    let points = united(alloc, rising.as_slice(), &[])?;
    Ok(points)
}

// The spans of a whole part that hold none of the values, of which none is NULL.
fn spans_without(alloc: Global, nullable: bool, list: &[Value]) -> Result<SpanList, AllocError>
    requires { list_any is_null_value list.now ≡ false }
    ensures { IfOk result (λ spans. AreSpansOf nullable spans (lists false list.now None)) }
{
    let points = list_points(alloc, None, list)?;
    let from = above(alloc, &Value::Null)?;
    let spans = gaps(alloc, from, points.as_slice())?;
    Ok(spans)
}

/// The spans of a part at which it can be true that its column is in a list or, without the sign, at which that
/// can be false. The part may be NULL or not, and has so many characters of its column's texts where there is a
/// number. The error is want of memory.
pub fn list_spans(
    alloc: Global,
    nullable: bool,
    chars: Option<u32>,
    sign: bool,
    list: &[Value],
) -> Result<SpanList, AllocError>
    ensures { IfOk result (λ spans. AreSpansOf nullable spans (lists sign list.now chars)) }
{
    if sign {
        let points = list_points(alloc, chars, list)?;
        return Ok(points);
    }
    if has_null(list) {
        return Ok(SpanList::new(alloc));
    }
    match chars {
        None => spans_without(alloc, nullable, list),
        Some(_) => but_null(alloc),
    }
}
