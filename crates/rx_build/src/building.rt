//! The ranges of a condition on an index.

ghost use Rattle.std.specs.Prelude.{◌≤◌, length, IfOk};
ghost use Rattle.rx_value.specs.Limits.{most_parts};
ghost use Rattle.rx_cond.specs.Tree.{tree_of};
ghost use Rattle.rx_ranges.specs.Answers.{IsAnswer};
ghost use Rattle.rx_build.specs.Building.{answer_of, IsMost, DoRise, DoKeep, AreFew};

use crate::answers::Answer;
use crate::attempts::ranges_on;
use crate::wholes::is_whole;
use rx_cond::Cond;
use rx_value::{Column, Part, RangeList, Schema};
use std::alloc::{AllocError, Global};

// The ranges on the most parts that fit, and the number of these, or none where no number of parts fits.
fn most_ranges(
    alloc: Global,
    cond: &Cond,
    columns: &[Column],
    parts: &[Part],
    items: u64,
) -> Result<Option<(u32, RangeList)>, AllocError>
    requires { length parts.now ≤ most_parts }
    ensures { IfOk result (IsMost columns.now parts.now items (tree_of cond.now)) }
{
    for before in (0..parts.len()).rev() {
        if let Some(list) = ranges_on(alloc, cond, columns, &parts[..before + 1], items)? {
            return Ok(Some((before as u32 + 1, list)));
        }
    }
    Ok(None)
}

/// What is known of a condition on an index of at most 16 parts: the ranges of the keys at which it can be
/// true (MySQL manual, "Range Optimization"), on as many of the first parts as keep within the limit of
/// items (MySQL manual, "Limiting Memory Use for Range Optimization"). On these the graph of the
/// condition, and that of each one under it, has no more items than the limit, so the ranges are no
/// more than the limit either, or one where it is 0.
///
/// The ranges hold the key of each row that fits the schema and makes the condition true, where the
/// texts that the condition compares by an operator are UTF-8 if a part has a prefix length.
///
/// # Errors
///
/// The error is want of memory. Where there are more items than the limit, fewer parts are used.
pub fn ranges_of(
    alloc: Global,
    cond: &Cond,
    schema: &Schema,
    parts: &[Part],
    items: u64,
) -> Result<Answer, AllocError>
    requires { length parts.now ≤ most_parts }
    ensures answer { IfOk result (λ a. IsAnswer schema.now.columns parts.now items (tree_of cond.now) (answer_of a)) }
    ensures rise { IfOk result (λ a. DoRise parts.now (answer_of a)) }
    ensures few { IfOk result (λ a. AreFew items (answer_of a)) }
    ensures keep { IfOk result (λ a. DoKeep schema.now parts.now (tree_of cond.now) (answer_of a)) }
{
    let columns = schema.columns.as_slice();
    let Some((count, list)) = most_ranges(alloc, cond, columns, parts, items)? else {
        return Ok(Answer::NoParts);
    };
    if is_whole(columns, parts, list.as_slice()) {
        return Ok(Answer::Whole);
    }
    Ok(Answer::Ranges { parts: count, list })
}
