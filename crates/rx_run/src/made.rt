//! The row of an intersection that reads no row: what the points of its scans tell.

ghost use Rattle.std.specs.Prelude.{◌≡◌, option_map, IfOk};
ghost use Rattle.rx_estimate.specs.Estimates.{parts_in};
ghost use Rattle.rx_run.specs.Made.{has_whole, point_on, points_of, scan_point, first_point, is_small, small_value, made_value, made_row};

use rx_cost::{Role, Scan};
use rx_value::{KeyRange, Part, Row, Schema, Value};
use std::alloc::{AllocError, Global};

// Whether a part is on a column, and has no prefix length.
fn has_whole(column: usize, part: &Part) -> bool
    ensures { result ≡ has_whole column part.now }
{
    part.column as usize == column && part.chars.is_none()
}

// The point at the place of the first part that has the whole column.
fn point_on<'a>(parts: &[Part], points: &'a [Value], column: usize) -> Option<&'a Value>
    ensures { option_map (λ v. v.now) result ≡ point_on parts.now points.now column }
{
    let (Some((part, parts)), Some((point, points))) = (parts.split_first(), points.split_first())
    else {
        return None;
    };
    if has_whole(column, part) {
        Some(point)
    } else {
        point_on(parts, points, column)
    }
}

// The points of ranges of which there is one.
fn points_of(ranges: &[KeyRange]) -> &[Value]
    ensures { result.now ≡ points_of ranges.now }
{
    match ranges {
        [range] => range.points.as_slice(),
        _ => &[],
    }
}

// The parts of an index by its number, none where it isn't there.
fn parts_in(schema: &Schema, index: u32) -> &[Part]
    ensures { result.now ≡ parts_in schema.now index }
{
    match schema.indexes.as_slice().get(index as usize) {
        Some(index) => index.parts.as_slice(),
        None => &[],
    }
}

// What a scan tells of a column.
fn scan_point<'a>(schema: &Schema, column: usize, scan: &'a Scan) -> Option<&'a Value>
    ensures { option_map (λ v. v.now) result ≡ scan_point schema.now column scan.now }
{
    match scan.role {
        Role::Scan => {
            let parts = parts_in(schema, scan.index);
            point_on(parts, points_of(scan.ranges.as_slice()), column)
        }
        _ => None,
    }
}

// What the first scan that tells something of a column tells of it.
fn first_point<'a>(schema: &Schema, column: usize, scans: &'a [Scan]) -> Option<&'a Value>
    ensures { option_map (λ v. v.now) result ≡ first_point schema.now column scans.now }
{
    let (scan, scans) = scans.split_first()?;
    match scan_point(schema, column, scan) {
        Some(point) => Some(point),
        None => first_point(schema, column, scans),
    }
}

// Whether a value is no integer that no column can have.
fn is_small(value: &Value) -> bool
    ensures { result ≡ is_small value.now }
{
    match value {
        Value::Int(n) => -9_223_372_036_854_775_808 <= *n && *n <= 18_446_744_073_709_551_615,
        _ => true,
    }
}

// What scans tell of a column. The error is want of memory.
fn made_value(
    alloc: Global,
    schema: &Schema,
    scans: &[Scan],
    column: usize,
) -> Result<Value, AllocError>
    ensures { IfOk result (λ v. v ≡ made_value schema.now scans.now column) }
{
    match first_point(schema, column, scans) {
        Some(value) if is_small(value) => value.copy(alloc),
        _ => Ok(Value::Null),
    }
}

/// The row of what scans tell of each column. The error is want of memory.
pub(crate) fn made_row(alloc: Global, schema: &Schema, scans: &[Scan]) -> Result<Row, AllocError>
    ensures { IfOk result (λ row. row ≡ made_row schema.now scans.now) }
{
    let count = schema.columns.len();
    let mut row = Row::with_capacity(alloc, count)?;
    for column in 0..count {
        row.push(made_value(alloc, schema, scans, column)?)?;
    }
    Ok(row)
}
