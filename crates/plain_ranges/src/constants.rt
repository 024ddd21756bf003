//! The constants that a condition compares a part with, cut as the part cuts its values.

ghost use Rattle.std.specs.Prelude.{◌≤◌, length, IfSome};

use crate::patterns::{Reach, reach_of};
use crate::regions::cut;
use rx_cond::{Cond, Operand};
use rx_value::{Bytes, Key, Part, Value, compare};
use std::alloc::{AllocError, Global};
use std::cmp::Ordering;

/// The constants of a condition for a part, in order, each once, without NULL.
pub fn constants_of(alloc: Global, cond: &Cond, part: Part) -> Result<Vec<Value>, AllocError> {
    let mut constants = Vec::new(alloc);
    add_constants(alloc, cond, part, &mut constants)?;
    Ok(constants)
}

#[cycle(constants)]
fn add_constants(
    alloc: Global,
    cond: &Cond,
    part: Part,
    into: &mut Vec<Value>,
) -> Result<(), AllocError> {
    match cond {
        Cond::Truth(_) | Cond::IsNull(_) => Ok(()),
        Cond::Compare { op: _, left, right } => add_compared(alloc, left, right, part, into),
        Cond::Member { left, list } => add_list(alloc, left, list.as_slice(), part, into),
        Cond::RowMember { columns, list } => {
            add_rows(alloc, columns.as_slice(), list.as_slice(), part, into)
        }
        Cond::Like { column, pattern } => {
            add_pattern(alloc, *column, pattern.as_slice(), part, into)
        }
        Cond::Neg(inner) => add_constants(alloc, inner, part, into),
        Cond::Conj(items) => add_all(alloc, items, part, into),
        Cond::Disj(items) => add_all(alloc, items, part, into),
    }
}

#[cycle(constants)]
fn add_all(
    alloc: Global,
    items: &[Cond],
    part: Part,
    into: &mut Vec<Value>,
) -> Result<(), AllocError> {
    for item in items {
        add_constants(alloc, item, part, into)?;
    }
    Ok(())
}

// How many of the constants stand before a value, none where it is one of them.
fn place_of(constants: &[Value], value: &Value) -> Option<usize>
    ensures { IfSome result (λ place. place ≤ length constants.now) }
{
    for (place, other) in constants.iter().enumerate() {
        match compare(other, value) {
            Ordering::Less => {}
            Ordering::Equal => return None,
            Ordering::Greater => return Some(place),
        }
    }
    Some(constants.len())
}

// Adds a constant at its place, unless it is NULL or stands there already.
fn add(alloc: Global, value: &Value, part: Part, into: &mut Vec<Value>) -> Result<(), AllocError> {
    if matches!(value, Value::Null) {
        return Ok(());
    }
    let value = cut(alloc, value, part.chars)?;
    if let Some(place) = place_of(into.as_slice(), &value) {
        into.insert(place, value)?;
    }
    Ok(())
}

fn add_compared(
    alloc: Global,
    left: &Operand,
    right: &Operand,
    part: Part,
    into: &mut Vec<Value>,
) -> Result<(), AllocError> {
    match (left, right) {
        (Operand::Column(column), Operand::Constant(value))
        | (Operand::Constant(value), Operand::Column(column)) => {
            if *column == part.column {
                add(alloc, value, part, into)?;
            }
            Ok(())
        }
        _ => Ok(()),
    }
}

fn add_list(
    alloc: Global,
    left: &Operand,
    list: &[Value],
    part: Part,
    into: &mut Vec<Value>,
) -> Result<(), AllocError> {
    let Operand::Column(column) = left else {
        return Ok(());
    };
    if *column != part.column {
        return Ok(());
    }
    for value in list {
        add(alloc, value, part, into)?;
    }
    Ok(())
}

fn add_row(
    alloc: Global,
    columns: &[u32],
    row: &[Value],
    part: Part,
    into: &mut Vec<Value>,
) -> Result<(), AllocError> {
    for (column, value) in columns.iter().zip(row) {
        if *column == part.column {
            add(alloc, value, part, into)?;
        }
    }
    Ok(())
}

fn add_rows(
    alloc: Global,
    columns: &[u32],
    list: &[Key],
    part: Part,
    into: &mut Vec<Value>,
) -> Result<(), AllocError> {
    for row in list {
        add_row(alloc, columns, row.as_slice(), part, into)?;
    }
    Ok(())
}

fn add_pattern(
    alloc: Global,
    column: u32,
    pattern: &[u8],
    part: Part,
    into: &mut Vec<Value>,
) -> Result<(), AllocError> {
    if column != part.column {
        return Ok(());
    }
    match reach_of(alloc, pattern, part.chars)? {
        Reach::Point(value) => add(alloc, &value, part, into),
        Reach::Span { from, to } => {
            add(alloc, &from, part, into)?;
            add(alloc, &to, part, into)
        }
        Reach::All => add(alloc, &Value::Text(Bytes::new(alloc)), part, into),
    }
}
