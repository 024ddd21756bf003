//! The ranges of the cover of a tree in memory of their own.

ghost use Rattle.std.specs.Prelude.{◌≡◌, ◌∷◌, [], length, IfOk};
ghost use Rattle.rx_graph.specs.Graph.{IsHeld, tree_in};
ghost use Rattle.rx_cover.specs.Cover.{cover};

use crate::ranges::Ranges;
use rx_graph::{Arena, Handle};
use rx_value::RangeList;
use std::alloc::{AllocError, Global};

/// The ranges of the cover of the tree of a handle, on parts of which each falls or rises. The error is
/// want of memory.
pub fn collect_ranges(
    alloc: Global,
    arena: &Arena,
    h: &Handle,
    falling: &[bool],
) -> Result<RangeList, AllocError>
    requires held { IsHeld arena.now (h.now ∷ []) }
    requires falling { length falling.now ≡ length arena.now.nullable }
    ensures { IfOk result (λ list. list ≡ cover arena.now.nullable falling.now (tree_in arena.now h.now)) }
{
    let mut list = RangeList::new(alloc);
    'cover: for range in Ranges::new(arena, h, falling) {
        list.push(range.copy(alloc)?)?;
    }
    Ok(list)
}
