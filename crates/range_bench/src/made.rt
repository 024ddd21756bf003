//! The table and the conditions that are timed.

use rx_cond::{Cond, Op, Operand};
use rx_value::{
    Bytes, ColType, Column, ColumnList, Index, IndexList, Key, Part, PartList, Schema, Value,
};
use std::alloc::{AllocError, Global};

// The names of the columns.
const NAMES: [&str; 6] = ["a", "b", "c", "d", "e", "f"];

// How many values a list has.
const LISTED: u32 = 200;

fn columns(alloc: Global) -> Result<ColumnList, AllocError> {
    let mut columns = ColumnList::new(alloc);
    for name in NAMES {
        columns.push(Column {
            name: Bytes::of(alloc, name.as_bytes())?,
            kind: ColType::Whole {
                bits: 32,
                signed: true,
            },
            nullable: false,
        })?;
    }
    Ok(columns)
}

/// The first columns as the parts of an index, so many of them.
pub fn parts_of(alloc: Global, count: u32) -> Result<PartList, AllocError> {
    let mut parts = PartList::new(alloc);
    for column in 0..count {
        parts.push(Part {
            column,
            descending: false,
            chars: None,
        })?;
    }
    Ok(parts)
}

/// A table of six integers that can't be NULL, with an index of the first of them.
pub fn table(alloc: Global, parts: u32) -> Result<Schema, AllocError> {
    let mut indexes = IndexList::new(alloc);
    indexes.push(Index {
        name: Bytes::of(alloc, b"k")?,
        primary: false,
        unique: false,
        parts: parts_of(alloc, parts)?,
    })?;
    Ok(Schema {
        table: Bytes::of(alloc, b"t")?,
        columns: columns(alloc)?,
        indexes,
    })
}

// The numbers from 1 on.
fn listed(alloc: Global) -> Result<Key, AllocError> {
    let mut list = Key::new(alloc);
    for number in 1..=LISTED {
        list.push(Value::Int(i128::from(number)))?;
    }
    Ok(list)
}

/// That each of the first columns, so many of them, is one of 200 numbers.
pub fn lists(alloc: Global, count: u32) -> Result<Cond, AllocError> {
    let mut tests = Vec::new(alloc);
    for column in 0..count {
        tests.push(Cond::Member {
            left: Operand::Column(column),
            list: listed(alloc)?,
        })?;
    }
    Ok(Cond::Conj(tests))
}

// The value of a number: neighbours by number lie far apart, and no two below 1,000,003 are the same.
fn value_of(number: u64) -> i128 {
    (number as u128 * 618_034 % 1_000_003) as i128
}

/// That the first column equals one of so many numbers, each by a comparison of its own.
pub fn equalities(alloc: Global, count: u64) -> Result<Cond, AllocError> {
    let mut tests = Vec::new(alloc);
    for number in 0..count {
        tests.push(Cond::Compare {
            op: Op::Eq,
            left: Operand::Column(0),
            right: Operand::Constant(Value::Int(value_of(number))),
        })?;
    }
    Ok(Cond::Disj(tests))
}
