//! Ranges as they are told.

use rx_value::{Bytes, End, KeyRange, Part, Schema, Side, Span, Value};
use std::alloc::{AllocError, Global};

/// The parts of an index of a table.
#[derive(Clone, Copy)]
pub struct Indexed<'a> {
    pub schema: &'a Schema,
    pub parts: &'a [Part],
}

// A part as its spans are told.
#[derive(Clone, Copy)]
struct Named<'a> {
    name: &'a [u8],
    nullable: bool,
    falls: bool,
}

fn shape_of<'a>(schema: &'a Schema, part: Part) -> Named<'a> {
    let (name, nullable): (&[u8], bool) = match schema
        .columns
        .as_slice()
        .get(part.column as usize)
    {
        Some(column) => (column.name.as_slice(), column.nullable),
        None => (b"?", false),
    };
    Named {
        name,
        nullable,
        falls: part.descending,
    }
}

fn add_byte(alloc: Global, byte: u8, into: &mut Bytes) -> Result<(), AllocError> {
    match byte {
        b'\'' => into.append(b"''"),
        b'\\' => into.append(b"\\\\"),
        32..=126 => into.push(byte),
        _ => into.append(format!(in alloc; "\\x{byte:02x}")?.as_bytes()),
    }
}

fn add_text(alloc: Global, text: &[u8], into: &mut Bytes) -> Result<(), AllocError> {
    into.push(b'\'')?;
    for byte in text {
        add_byte(alloc, *byte, into)?;
    }
    into.push(b'\'')
}

fn add_value(alloc: Global, value: &Value, into: &mut Bytes) -> Result<(), AllocError> {
    match value {
        Value::Null => into.append(b"NULL"),
        Value::Int(n) => into.append(format!(in alloc; "{n}")?.as_bytes()),
        Value::Text(text) => add_text(alloc, text.as_slice(), into),
    }
}

fn add_point(
    alloc: Global,
    part: Named<'_>,
    value: &Value,
    into: &mut Bytes,
) -> Result<(), AllocError> {
    into.append(part.name)?;
    match value {
        Value::Null => into.append(b" IS NULL"),
        value => {
            into.append(b" = ")?;
            add_value(alloc, value, into)
        }
    }
}

// The value of a lower end that is told: none where it is the first of a part that can't be NULL.
fn lower<'a>(part: Named<'_>, end: &'a End) -> Option<(&'a Value, Side)> {
    match end {
        End::Cut {
            at: Value::Null,
            side: Side::Above,
        } if !part.nullable => None,
        End::Cut { at, side } => Some((at, *side)),
        End::Last => None,
    }
}

fn upper(end: &End) -> Option<(&Value, Side)> {
    match end {
        End::Cut { at, side } => Some((at, *side)),
        End::Last => None,
    }
}

// A span of a rising part: its lower end, the name, its upper end.
fn add_rising(
    alloc: Global,
    part: Named<'_>,
    span: &Span,
    into: &mut Bytes,
) -> Result<(), AllocError> {
    if let Some((value, side)) = lower(part, &span.lo) {
        add_value(alloc, value, into)?;
        into.append(match side {
            Side::Below => b" <= ",
            Side::Above => b" < ",
        })?;
    }
    into.append(part.name)?;
    if let Some((value, side)) = upper(&span.hi) {
        into.append(match side {
            Side::Below => b" < ",
            Side::Above => b" <= ",
        })?;
        add_value(alloc, value, into)?;
    }
    Ok(())
}

// A span of a falling part: its upper end, the name, its lower end.
fn add_falling(
    alloc: Global,
    part: Named<'_>,
    span: &Span,
    into: &mut Bytes,
) -> Result<(), AllocError> {
    if let Some((value, side)) = upper(&span.hi) {
        add_value(alloc, value, into)?;
        into.append(match side {
            Side::Below => b" > ",
            Side::Above => b" >= ",
        })?;
    }
    into.append(part.name)?;
    if let Some((value, side)) = lower(part, &span.lo) {
        into.append(match side {
            Side::Below => b" >= ",
            Side::Above => b" > ",
        })?;
        add_value(alloc, value, into)?;
    }
    Ok(())
}

fn add_span(
    alloc: Global,
    part: Named<'_>,
    span: &Span,
    into: &mut Bytes,
) -> Result<(), AllocError> {
    if part.falls {
        add_falling(alloc, part, span, into)
    } else {
        add_rising(alloc, part, span, into)
    }
}

/// Adds a range: its points, and the span on the next part where there is one.
pub fn add_range(
    alloc: Global,
    on: Indexed<'_>,
    range: &KeyRange,
    into: &mut Bytes,
) -> Result<(), AllocError> {
    let points = range.points.as_slice();
    for (place, (part, value)) in on.parts.iter().zip(points).enumerate() {
        if place > 0 {
            into.append(b" AND ")?;
        }
        add_point(alloc, shape_of(on.schema, *part), value, into)?;
    }
    let (Some(span), Some(part)) = (&range.last, on.parts.get(points.len())) else {
        return Ok(());
    };
    if !points.is_empty() {
        into.append(b" AND ")?;
    }
    add_span(alloc, shape_of(on.schema, *part), span, into)
}
