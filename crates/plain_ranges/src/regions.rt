//! The regions of a part: what lies between the constants that a condition compares it with, and these.

use crate::constants::constants_of;
use rx_cond::Cond;
use rx_value::{Bytes, End, Part, PartValue, Schema, Side, Span, Value};
use std::alloc::{AllocError, Global};

/// Values of a part that a condition can't tell apart by its comparisons.
#[derive(Drop)]
pub struct Region {
    pub span: Span,
    /// Whether the region is one value.
    pub is_point: bool,
}

impl Region {
    /// The value of a region that is a point.
    pub fn point(&self) -> Option<&Value> {
        match &self.span.lo {
            End::Cut { at, side: _ } if self.is_point => Some(at),
            _ => None,
        }
    }

    /// Whether the region is NULL.
    pub fn is_null(&self) -> bool {
        matches!(self.point(), Some(Value::Null))
    }
}

/// A part of an index with its regions in order.
#[derive(Drop)]
pub struct PartRegions {
    pub part: Part,
    pub nullable: bool,
    pub regions: Vec<Region>,
}

/// The value as a part has it: a text is cut to so many characters, where there is a number.
pub fn cut(alloc: Global, value: &Value, chars: Option<u32>) -> Result<Value, AllocError> {
    match value.cut(chars) {
        PartValue::Null => Ok(Value::Null),
        PartValue::Int(n) => Ok(Value::Int(n)),
        PartValue::Text(text) => Ok(Value::Text(Bytes::of(alloc, text)?)),
    }
}

/// The end on a side of a value.
pub fn end_at(alloc: Global, value: &Value, side: Side) -> Result<End, AllocError> {
    Ok(End::Cut {
        at: value.copy(alloc)?,
        side,
    })
}

fn point_at(alloc: Global, value: &Value) -> Result<Region, AllocError> {
    let lo = end_at(alloc, value, Side::Below)?;
    let hi = end_at(alloc, value, Side::Above)?;
    Ok(Region {
        span: Span { lo, hi },
        is_point: true,
    })
}

fn gap(lo: End, hi: End) -> Region {
    Region {
        span: Span { lo, hi },
        is_point: false,
    }
}

// The regions of a part that is cut at constants: NULL where the part may be NULL, the gap below, and behind each
// constant as a point the gap above it.
fn regions_at(
    alloc: Global,
    nullable: bool,
    constants: &[Value],
) -> Result<Vec<Region>, AllocError> {
    let mut regions = Vec::new(alloc);
    if nullable {
        regions.push(point_at(alloc, &Value::Null)?)?;
    }
    let mut lo = end_at(alloc, &Value::Null, Side::Above)?;
    for constant in constants {
        let hi = end_at(alloc, constant, Side::Below)?;
        regions.push(gap(lo, hi))?;
        regions.push(point_at(alloc, constant)?)?;
        lo = end_at(alloc, constant, Side::Above)?;
    }
    regions.push(gap(lo, End::Last))?;
    Ok(regions)
}

fn may_be_null(schema: &Schema, part: Part) -> bool {
    match schema.columns.as_slice().get(part.column as usize) {
        Some(column) => column.nullable,
        None => false,
    }
}

/// The regions of each part for a condition.
pub fn regions_of(
    alloc: Global,
    cond: &Cond,
    schema: &Schema,
    parts: &[Part],
) -> Result<Vec<PartRegions>, AllocError> {
    let mut all = Vec::new(alloc);
    for part in parts {
        let nullable = may_be_null(schema, *part);
        let constants = constants_of(alloc, cond, *part)?;
        let regions = regions_at(alloc, nullable, constants.as_slice())?;
        all.push(PartRegions {
            part: *part,
            nullable,
            regions,
        })?;
    }
    Ok(all)
}
