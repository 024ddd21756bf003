//! The ranges of the cover of a tree, one by one.

ghost use Rattle.std.specs.Prelude.{◌≡◌, ◌∷◌, [], length, IfOk, IfSome, IfNone};
ghost use Rattle.rx_graph.specs.Graph.{IsHeld, tree_in};
ghost use Rattle.rx_cover.specs.Cover.{cover};
ghost use Rattle.rx_walk.specs.Left.{IsWalk, rest};
ghost use Rattle.rx_walk.specs.Ranges.{is_all, whole_first};

use crate::points::Points;
use crate::range_refs::RangeRef;
use crate::walks::{Walk, next_below};
use rx_graph::{Arena, Handle, Root};
use rx_level::Link;
use rx_value::MOST_PARTS;

/// The ranges of the cover of a tree, in the order of the index's parts. It takes no memory: it
/// keeps how many items it has passed of the level of each part, and goes down to them anew for each range.
#[derive(Drop)]
pub struct Ranges<'a> {
    walk: Walk<'a>,
    root: Link,
    whole: bool,
    places: [u64; MOST_PARTS],
}

impl<'a> Ranges<'a> {
    /// The ranges of the tree of a handle, on parts of which each falls or rises.
    pub fn new(arena: &'a Arena, h: &Handle, falling: &'a [bool]) -> Ranges<'a>
        requires held { IsHeld arena.now (h.now ∷ []) }
        requires falling { length falling.now ≡ length arena.now.nullable }
        ensures walk { IsWalk result }
        ensures rest { rest result ≡ cover arena.now.nullable falling.now (tree_in arena.now h.now) }
    {
        arena.sound();
        Ranges {
            walk: Walk {
                levels: arena.levels(),
                parts: arena.parts(),
                falling,
            },
            root: h.link(),
            whole: is_everything(h.root()),
            places: [0; MOST_PARTS],
        }
    }
}

impl<'a> Iterator for Ranges<'a> {
    ghost use Rattle.std.specs.Iterator.{YieldsFirst, item_count};
    ghost use Rattle.rx_walk.specs.Left.{IsWalk, rest};

    type Item = RangeRef<'a>;

    ghost can_next = { IsWalk };

    ghost next_gives = { YieldsFirst rest };

    ghost remaining = { item_count rest };

    fn next(&mut self) -> Option<RangeRef<'a>> {
        if self.whole {
            self.whole = false;
            return whole_range(self.walk);
        }
        next_below(self.walk, self.root, &Points::none(), &mut self.places)
    }
}

// Whether a root is that of the tree that holds all keys.
fn is_everything(root: Root) -> bool
    ensures { result ≡ is_all root }
{
    matches!(root, Root::Everything)
}

// The range of the whole first part, where there is one.
fn whole_range<'a>(walk: Walk<'a>) -> Option<RangeRef<'a>>
    ensures some { IfSome result (λ r. whole_first walk.entry.parts.now ≡ r ∷ []) }
    ensures none { IfNone result (whole_first walk.entry.parts.now ≡ []) }
{
    let [nullable, ..] = walk.parts else {
        return None;
    };
    Some(RangeRef::whole(*nullable))
}
