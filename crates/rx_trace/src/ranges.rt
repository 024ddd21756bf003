ghost use Rattle.std.specs.Prelude.{◌≡◌, ◌++◌, map, IfOk, OnOk, string_bytes, option_map, option_copied, option_to_list};
ghost use Rattle.std.specs.List.{enumerate_from};
ghost use Rattle.rx_trace.specs.Ranges.{column_at, column_name, is_nullable, falls_at, point_at, span_at, points_of, last_of, range_text};

use crate::spans::span_text;
use crate::texts::point_text;
use rx_value::{Column, KeyRange, Part, Schema, Span, Value};
use std::alloc::{AllocError, Global};

// The column of the part at a place, where both are there.
fn column_at<'a>(schema: &'a Schema, parts: &[Part], place: usize) -> Option<&'a Column>
    ensures { option_map (λ c. c.now) result ≡ column_at schema.now parts.now place }
{
    let part = parts.get(place)?;
    schema.columns.as_slice().get(part.column as usize)
}

// Its name, empty where the column isn't there.
fn column_name(alloc: Global, column: Option<&Column>) -> Result<String, AllocError>
    ensures { IfOk result (λ name. string_bytes name ≡ column_name (option_map (λ c. c.now) column.entry)) }
{
    match column {
        Some(column) => String::from_utf8_lossy(alloc, column.name.as_slice()),
        None => Ok(String::new(alloc)),
    }
}

// Whether the column is there and may be NULL.
fn is_nullable(column: Option<&Column>) -> bool
    ensures { result ≡ is_nullable (option_map (λ c. c.now) column.entry) }
{
    match column {
        Some(column) => column.nullable,
        None => false,
    }
}

// Whether the part at a place is there and falls.
fn falls_at(parts: &[Part], place: usize) -> bool
    ensures { result ≡ falls_at parts.now place }
{
    match parts.get(place) {
        Some(part) => part.descending,
        None => false,
    }
}

// A point on the part at its place.
fn point_at(
    alloc: Global,
    schema: &Schema,
    parts: &[Part],
    place: usize,
    value: &Value,
) -> Result<String, AllocError>
    ensures { IfOk result (λ text. string_bytes text ≡ point_at schema.now parts.now (place, value.now)) }
{
    let name = column_name(alloc, column_at(schema, parts, place))?;
    point_text(alloc, name.as_str(), value)
}

// A span on the part at a place.
fn span_at(
    alloc: Global,
    schema: &Schema,
    parts: &[Part],
    place: usize,
    span: &Span,
) -> Result<String, AllocError>
    ensures { IfOk result (λ text. string_bytes text ≡ span_at schema.now parts.now place span.now) }
{
    let column = column_at(schema, parts, place);
    let name = column_name(alloc, column)?;
    span_text(
        alloc,
        name.as_str(),
        is_nullable(column),
        falls_at(parts, place),
        span,
    )
}

// The points of a range that begins at the part at a place.
fn points_of(
    alloc: Global,
    schema: &Schema,
    parts: &[Part],
    from: u32,
    points: &[Value],
) -> Result<Vec<String>, AllocError>
    ensures { IfOk result (λ texts. map string_bytes texts.items ≡ map (point_at schema.now parts.now) (enumerate_from from points.now)) }
{
    let mut texts = Vec::with_capacity(alloc, points.len())?;
    for i in 0..points.len() {
        let place = from as usize + i;
        texts.push(point_at(alloc, schema, parts, place, &points[i])?)?;
    }
    Ok(texts)
}

// Adds its span, where it has one, on the part at a place.
fn add_last(
    alloc: Global,
    schema: &Schema,
    parts: &[Part],
    place: usize,
    last: Option<&Span>,
    into: &mut Vec<String>,
) -> Result<(), AllocError>
    ensures { OnOk result (map string_bytes into.new.items ≡ map string_bytes into.old.items ++ map (span_at schema.now parts.now place) (option_to_list (option_copied last.entry))) }
{
    if let Some(span) = last {
        into.push(span_at(alloc, schema, parts, place, span)?)?;
    }
    Ok(())
}

/// A range of parts from the one at a place on. The error is want of memory.
pub(crate) fn range_text(
    alloc: Global,
    schema: &Schema,
    parts: &[Part],
    from: u32,
    range: &KeyRange,
) -> Result<String, AllocError>
    ensures { IfOk result (λ text. string_bytes text ≡ range_text schema.now parts.now from range.now) }
{
    let points = range.points.as_slice();
    let mut texts = points_of(alloc, schema, parts, from, points)?;
    let place = from as usize + points.len();
    add_last(alloc, schema, parts, place, range.last.as_ref(), &mut texts)?;
    texts.as_slice().join(alloc, " AND ")
}
