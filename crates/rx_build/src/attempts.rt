//! The ranges of a condition on given parts.

ghost use Rattle.std.specs.Prelude.{◌≡◌, ◌≤◌, length, IfOk};
ghost use Rattle.rx_value.specs.Limits.{most_parts};
ghost use Rattle.rx_cond.specs.Tree.{tree_of};
ghost use Rattle.rx_build.specs.Building.{IsAttempt};

use crate::shapes::{fallings, nullables};
use rx_cond::Cond;
use rx_cond_graph::graph_of;
use rx_graph::{Arena, GraphFault};
use rx_value::{Column, Part, RangeList};
use rx_walk::collect_ranges;
use std::alloc::{AllocError, Global};

/// The ranges of a condition on these parts, which are at least one. There are none exactly where the graph
/// of the condition, or that of one under it, has more items than the limit. The error is want of memory.
pub(crate) fn ranges_on(
    alloc: Global,
    cond: &Cond,
    columns: &[Column],
    parts: &[Part],
    items: u64,
) -> Result<Option<RangeList>, AllocError>
    requires some { 1 ≤ length parts.now }
    requires few { length parts.now ≤ most_parts }
    ensures { IfOk result (IsAttempt columns.now parts.now items (tree_of cond.now)) }
{
    let nullable = nullables(alloc, columns, parts)?;
    let falling = fallings(alloc, parts)?;
    let mut arena = Arena::new(alloc, nullable.as_slice())?;
    match graph_of(alloc, &mut arena, parts, true, cond, items) {
        Ok(graph) => {
            let list = collect_ranges(alloc, &arena, &graph, falling.as_slice());
            arena.release(graph);
            Ok(Some(list?))
        }
        Err(GraphFault::OverLimit) => Ok(None),
        Err(GraphFault::NoMemory) => Err(AllocError),
    }
}
