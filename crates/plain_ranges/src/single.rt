//! Where a single test can be true, and where false, at a tuple of regions.

use crate::cans::Possible;
use crate::patterns::{Reach, reach_of};
use crate::places::{Place, place_of};
use crate::regions::cut;
use rx_cond::{Cond, Op, Operand, Tri, truth};
use rx_value::{Key, Row, Value};
use std::alloc::{AllocError, Global};
use std::cmp::Ordering;

/// What a test that names no column can be.
pub fn constant_can(alloc: Global, cond: &Cond) -> Possible {
    match truth(cond, &Row::new(alloc)) {
        Tri::T => Possible::only_true(),
        Tri::F => Possible::only_false(),
        Tri::N => Possible::neither(),
    }
}

fn turned(op: Op) -> Op {
    match op {
        Op::Lt => Op::Gt,
        Op::Le => Op::Ge,
        Op::Gt => Op::Lt,
        Op::Ge => Op::Le,
        same => same,
    }
}

fn meets(op: Op, order: Ordering) -> bool {
    match op {
        Op::Eq | Op::SafeEq => order.is_eq(),
        Op::Ne => order.is_ne(),
        Op::Lt => order.is_lt(),
        Op::Le => order.is_le(),
        Op::Gt => order.is_gt(),
        Op::Ge => order.is_ge(),
    }
}

// A comparison of a part with NULL.
fn null_can(place: Place<'_>, op: Op) -> Possible {
    match op {
        Op::SafeEq => Possible::of(place.is_null()),
        _ => Possible::neither(),
    }
}

// A comparison of a whole part with a value that isn't NULL.
fn whole_can(place: Place<'_>, op: Op, value: &Value) -> Possible {
    if !place.is_null() {
        return Possible::of(meets(op, place.stands_to(value)));
    }
    match op {
        Op::SafeEq => Possible::only_false(),
        _ => Possible::neither(),
    }
}

// A comparison of a part with a prefix length with a value that isn't NULL, of which the cut value is given.
fn prefix_can(place: Place<'_>, op: Op, cut: &Value) -> Possible {
    let some = !place.is_null();
    let order = place.stands_to(cut);
    let at = some && order.is_eq();
    let up_to = some && order.is_le();
    let from = some && order.is_ge();
    let (is_true, is_false) = match op {
        Op::Eq => (at, some),
        Op::SafeEq => (at, true),
        Op::Ne => (some, at),
        Op::Lt | Op::Le => (up_to, from),
        Op::Gt | Op::Ge => (from, up_to),
    };
    Possible { is_true, is_false }
}

fn column_can(
    alloc: Global,
    tuple: &[Place<'_>],
    op: Op,
    column: u32,
    value: &Value,
) -> Result<Possible, AllocError> {
    let Some(place) = place_of(tuple, column) else {
        return Ok(Possible::both());
    };
    match (value, place.part.chars) {
        (Value::Null, _) => Ok(null_can(place, op)),
        (value, None) => Ok(whole_can(place, op, value)),
        (value, chars) => Ok(prefix_can(place, op, &cut(alloc, value, chars)?)),
    }
}

/// A comparison of two operands of which one is a column.
pub fn comparison_can(
    alloc: Global,
    tuple: &[Place<'_>],
    op: Op,
    left: &Operand,
    right: &Operand,
) -> Result<Possible, AllocError> {
    match (left, right) {
        (Operand::Column(column), Operand::Constant(value)) => {
            column_can(alloc, tuple, op, *column, value)
        }
        (Operand::Constant(value), Operand::Column(column)) => {
            column_can(alloc, tuple, turned(op), *column, value)
        }
        _ => Ok(Possible::both()),
    }
}

/// IS NULL of a column.
pub fn null_test_can(tuple: &[Place<'_>], column: u32) -> Possible {
    match place_of(tuple, column) {
        Some(place) => Possible::of(place.is_null()),
        None => Possible::both(),
    }
}

// Whether the region is the point of a value of the list, as the part cuts it.
fn is_at_any(alloc: Global, place: Place<'_>, list: &[Value]) -> Result<bool, AllocError> {
    for value in list {
        if is_at_constant(alloc, place, value)? {
            return Ok(true);
        }
    }
    Ok(false)
}

// Whether the region is the point of a value that isn't NULL, as the part cuts it.
fn is_at_constant(alloc: Global, place: Place<'_>, value: &Value) -> Result<bool, AllocError> {
    match value {
        Value::Null => Ok(false),
        value => Ok(place.is_at(&cut(alloc, value, place.part.chars)?)),
    }
}

fn has_null(list: &[Value]) -> bool {
    for value in list {
        if matches!(value, Value::Null) {
            return true;
        }
    }
    false
}

/// IN of a column over a list.
pub fn list_can(
    alloc: Global,
    tuple: &[Place<'_>],
    column: u32,
    list: &[Value],
) -> Result<Possible, AllocError> {
    let Some(place) = place_of(tuple, column) else {
        return Ok(Possible::both());
    };
    let is_true = is_at_any(alloc, place, list)?;
    let is_whole = place.part.chars.is_none();
    let is_false = !place.is_null() && !has_null(list) && !(is_whole && is_true);
    Ok(Possible { is_true, is_false })
}

/// LIKE of a column.
pub fn pattern_can(
    alloc: Global,
    tuple: &[Place<'_>],
    column: u32,
    pattern: &[u8],
) -> Result<Possible, AllocError> {
    let Some(place) = place_of(tuple, column) else {
        return Ok(Possible::both());
    };
    let is_true = match reach_of(alloc, pattern, place.part.chars)? {
        Reach::Point(value) => place.is_at(&value),
        Reach::Span { from, to } => place.is_between(&from, &to),
        Reach::All => true,
    };
    Ok(Possible {
        is_true,
        is_false: true,
    })
}

// Whether a row of values agrees with the regions on each of its columns that is a part.
fn agrees(
    alloc: Global,
    tuple: &[Place<'_>],
    columns: &[u32],
    row: &[Value],
) -> Result<bool, AllocError> {
    for (column, value) in columns.iter().zip(row) {
        if let Some(place) = place_of(tuple, *column) {
            if !is_at_constant(alloc, place, value)? {
                return Ok(false);
            }
        }
    }
    Ok(true)
}

fn any_agrees(
    alloc: Global,
    tuple: &[Place<'_>],
    columns: &[u32],
    list: &[Key],
) -> Result<bool, AllocError> {
    for row in list {
        if agrees(alloc, tuple, columns, row.as_slice())? {
            return Ok(true);
        }
    }
    Ok(false)
}

fn names_part(tuple: &[Place<'_>], columns: &[u32]) -> bool {
    for column in columns {
        if place_of(tuple, *column).is_some() {
            return true;
        }
    }
    false
}

/// IN of a row of columns over a list of rows.
pub fn rows_can(
    alloc: Global,
    tuple: &[Place<'_>],
    columns: &[u32],
    list: &[Key],
) -> Result<Possible, AllocError> {
    if !names_part(tuple, columns) {
        return Ok(Possible::both());
    }
    Ok(Possible {
        is_true: any_agrees(alloc, tuple, columns, list)?,
        is_false: true,
    })
}
