//! The part of a level's tree that lies on one side of an end.

ghost use Rattle.std.specs.Prelude.{◌≡◌, List, [], Option, None};
ghost use Rattle.rx_tree.specs.Tree.{Level};
ghost use Rattle.rx_level.specs.Step.{Lent, level_of};
ghost use Rattle.rx_tree.specs.Cuts.{AreInOrder};
ghost use Rattle.rx_and.specs.Narrow.{IsFront, IsBack};

use rx_level::{Levels, Link};
use rx_value::{End, is_at_most};

/// A part of a lent level's tree, with all items of the level that begin before an end.
pub fn items_before(levels: &Levels, root: Link, edge: &End) -> Link
    requires root { Lent levels.now [] root }
    ensures lent { Lent levels.now [] result }
    ensures front { IsFront edge.now (level_of levels.now result) (level_of levels.now root) }
{
    let Some(seen) = levels.look(root) else {
        return None;
    };
    if is_at_most(edge, &seen.span.lo) {
        return items_before(levels, seen.left, edge);
    }
    root
}

/// A part of a lent level's tree, with all items of the level that end behind an end.
pub fn items_behind(levels: &Levels, root: Link, edge: &End) -> Link
    requires root { Lent levels.now [] root }
    requires order { AreInOrder (level_of levels.now root) }
    ensures lent { Lent levels.now [] result }
    ensures back { IsBack edge.now (level_of levels.now result) (level_of levels.now root) }
{
    let Some(seen) = levels.look(root) else {
        return None;
    };
    if is_at_most(&seen.span.hi, edge) {
        return items_behind(levels, seen.right, edge);
    }
    root
}
