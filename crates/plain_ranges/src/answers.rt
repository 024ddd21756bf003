//! What is known of a condition on an index.

use crate::covers::cover_of;
use crate::grids::{set_of, tuple_count};
use crate::regions::{PartRegions, regions_of};
use crate::signed::{Signed, signed_under};
use crate::trees::{Tree, tree_of};
use rx_cond::Cond;
use rx_value::{KeyRange, Part, RangeList, Schema, is_whole_span};
use std::alloc::{AllocError, Global};

/// What is known of a condition on an index.
#[derive(Drop)]
pub enum PlainAnswer {
    /// No number of parts has trees within the limit.
    NoParts,
    /// All keys of the index may be asked for.
    Whole,
    /// Only keys in the ranges are asked for, over so many of the first parts.
    Ranges { parts: usize, list: RangeList },
}

fn tree_over(alloc: Global, signed: Signed<'_>, parts: &[PartRegions]) -> Result<Tree, AllocError> {
    let set = set_of(alloc, signed, parts)?;
    tree_of(alloc, parts, set.as_slice())
}

// Whether the trees of a condition and of all under it are within the limit on these parts.
fn fits(alloc: Global, cond: &Cond, parts: &[PartRegions], limit: u64) -> Result<bool, AllocError> {
    for signed in signed_under(alloc, cond)?.as_slice() {
        if tree_over(alloc, *signed, parts)?.size() > limit {
            return Ok(false);
        }
    }
    Ok(true)
}

// Whether a range is the whole first part.
fn is_whole(range: &KeyRange, parts: &[PartRegions]) -> bool {
    match (&range.last, parts) {
        (Some(span), [first, ..]) => {
            range.points.len() == 0 && is_whole_span(first.nullable, span)
        }
        _ => false,
    }
}

fn answer_over(
    alloc: Global,
    cond: &Cond,
    parts: &[PartRegions],
) -> Result<PlainAnswer, AllocError> {
    let tree = tree_over(alloc, Signed::positive(cond), parts)?;
    let list = cover_of(alloc, parts, &tree)?;
    match list.as_slice() {
        [range] if is_whole(range, parts) => Ok(PlainAnswer::Whole),
        _ => Ok(PlainAnswer::Ranges {
            parts: parts.len(),
            list,
        }),
    }
}

/// What is known of a condition on the parts of an index under a limit of items; None where more tuples of regions
/// would have to be looked at than `most`. The error is want of memory.
pub fn plain_ranges_of(
    alloc: Global,
    cond: &Cond,
    schema: &Schema,
    parts: &[Part],
    limit: u64,
    most: usize,
) -> Result<Option<PlainAnswer>, AllocError> {
    let all = regions_of(alloc, cond, schema, parts)?;
    if tuple_count(all.as_slice()) > most {
        return Ok(None);
    }
    for count in (1..=parts.len()).rev() {
        let Some(front) = all.as_slice().get(..count) else {
            continue;
        };
        if fits(alloc, cond, front, limit)? {
            return Ok(Some(answer_over(alloc, cond, front)?));
        }
    }
    Ok(Some(PlainAnswer::NoParts))
}
