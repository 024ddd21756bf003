//! Cases as they are written: a name by what the case shows, an index, a limit of items and a condition.

use crate::asked::{condition_of, index_of};
use crate::spelling::text_of;
use crate::texts::Indexed;
use crate::told::{Answered, answer_told};
use case_lines::Fault;
use plain_ranges::{PlainAnswer, plain_ranges_of};
use rx_build::{Answer, ranges_of};
use rx_cond::Cond;
use rx_value::{Bytes, MOST_PARTS, Schema};
use std::alloc::Global;

// How many tuples of regions the plain program looks at.
const MOST_TUPLES: usize = 2_000;

// What is told of the ranges of a condition.
fn computed_told(alloc: Global, on: Indexed<'_>, cond: &Cond, limit: u64) -> Result<Bytes, Fault> {
    if on.parts.is_empty() || on.parts.len() > MOST_PARTS {
        return Err(Fault::Unreadable);
    }
    let answer = ranges_of(alloc, cond, on.schema, on.parts, limit)?;
    let answered = match &answer {
        Answer::NoParts => Answered::NoParts,
        Answer::Whole => Answered::Whole,
        Answer::Ranges { parts, list } => Answered::Ranges {
            parts: u64::from(*parts),
            list: list.as_slice(),
        },
    };
    Ok(answer_told(alloc, on, answered)?)
}

// What is told of the plain answer, none where the case is too large for it.
fn plain_told(
    alloc: Global,
    on: Indexed<'_>,
    cond: &Cond,
    limit: u64,
) -> Result<Option<Bytes>, Fault> {
    let Some(answer) = plain_ranges_of(alloc, cond, on.schema, on.parts, limit, MOST_TUPLES)? else {
        return Ok(None);
    };
    let answered = match &answer {
        PlainAnswer::NoParts => Answered::NoParts,
        PlainAnswer::Whole => Answered::Whole,
        PlainAnswer::Ranges { parts, list } => Answered::Ranges {
            parts: *parts as u64,
            list: list.as_slice(),
        },
    };
    Ok(Some(answer_told(alloc, on, answered)?))
}

// Adds what is told of the ranges of a condition, and of the plain answer where that differs.
fn add_answers(
    alloc: Global,
    on: Indexed<'_>,
    cond: &Cond,
    limit: u64,
    into: &mut Bytes,
) -> Result<(), Fault> {
    let told = computed_told(alloc, on, cond, limit)?;
    into.append(told.as_slice())?;
    if let Some(plain) = plain_told(alloc, on, cond, limit)? {
        if plain.as_slice() != told.as_slice() {
            into.append(b"\n    differs: ")?;
            into.append(plain.as_slice())?;
        }
    }
    Ok(())
}

/// Adds what is told of a case: an index, a limit of items, and a condition.
pub fn add_case(
    alloc: Global,
    schema: &Schema,
    written: &str,
    into: &mut Bytes,
) -> Result<(), Fault> {
    let Some((name, rest)) = written.split_once(' ') else {
        return Err(Fault::Unreadable);
    };
    let Some((limit, text)) = rest.split_once(' ') else {
        return Err(Fault::Unreadable);
    };
    let Ok(limit) = limit.parse::<u64>() else {
        return Err(Fault::Unreadable);
    };
    let index = index_of(schema, name)?;
    let text = text_of(alloc, text)?;
    let cond = condition_of(alloc, schema, text.as_slice())?;
    let on = Indexed {
        schema,
        parts: index.parts.as_slice(),
    };
    add_answers(alloc, on, &cond, limit, into)
}
