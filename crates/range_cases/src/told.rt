//! Answers as they are told.

use crate::texts::{Indexed, add_range};
use rx_value::{Bytes, KeyRange};
use std::alloc::{AllocError, Global};

// How many ranges are told one by one.
const FEW: usize = 16;

/// An answer whose ranges are borrowed.
#[derive(Clone, Copy)]
pub enum Answered<'a> {
    NoParts,
    Whole,
    Ranges { parts: u64, list: &'a [KeyRange] },
}

fn add_each(
    alloc: Global,
    on: Indexed<'_>,
    list: &[KeyRange],
    into: &mut Bytes,
) -> Result<(), AllocError> {
    for (place, range) in list.iter().enumerate() {
        if place > 0 {
            into.append(b" | ")?;
        }
        add_range(alloc, on, range, into)?;
    }
    Ok(())
}

// Many ranges by their number, the first and the last.
fn add_many(
    alloc: Global,
    on: Indexed<'_>,
    list: &[KeyRange],
    into: &mut Bytes,
) -> Result<(), AllocError> {
    let count = list.len();
    into.append(format!(in alloc; "{count} ranges from ")?.as_bytes())?;
    if let Some(first) = list.first() {
        add_range(alloc, on, first, into)?;
    }
    into.append(b" to ")?;
    match list.last() {
        Some(last) => add_range(alloc, on, last, into),
        None => Ok(()),
    }
}

fn add_list(
    alloc: Global,
    on: Indexed<'_>,
    list: &[KeyRange],
    into: &mut Bytes,
) -> Result<(), AllocError> {
    if list.is_empty() {
        return into.append(b"no range");
    }
    if list.len() > FEW {
        return add_many(alloc, on, list, into);
    }
    add_each(alloc, on, list, into)
}

/// What is told of an answer: `none`, `whole`, or the number of parts and the ranges.
pub fn answer_told(
    alloc: Global,
    on: Indexed<'_>,
    answer: Answered<'_>,
) -> Result<Bytes, AllocError> {
    let mut told = Bytes::new(alloc);
    match answer {
        Answered::NoParts => told.append(b"none")?,
        Answered::Whole => told.append(b"whole")?,
        Answered::Ranges { parts, list } => {
            told.append(format!(in alloc; "{parts}: ")?.as_bytes())?;
            add_list(alloc, on, list, &mut told)?;
        }
    }
    Ok(told)
}
