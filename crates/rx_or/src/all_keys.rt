//! Levels that are one whole item.

ghost use Rattle.std.specs.Prelude.{◌≡◌, Bool, [], Option};
ghost use Rattle.rx_tree.specs.Union.{is_all};
ghost use Rattle.rx_level.specs.Step.{Lent, level_of};

use rx_level::{Levels, Link};
use rx_value::is_whole_span;

/// Whether a lent level is one whole item without a child.
pub fn is_all(levels: &Levels, nullable: bool, root: Link) -> bool
    requires { Lent levels.now [] root }
    ensures { result ≡ is_all nullable (level_of levels.now root) }
{
    let Some(top) = levels.look(root) else {
        return false;
    };
    if levels.count(top.left) != 0 || levels.count(top.right) != 0 || levels.count(top.child) != 0 {
        return false;
    }
    is_whole_span(nullable, top.span)
}
