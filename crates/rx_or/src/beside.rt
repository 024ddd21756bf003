//! Levels that lie one behind the other.

ghost use Rattle.std.specs.Prelude.{◌≡◌, Bool, true, List, []};
ghost use Rattle.rx_tree.specs.Cuts.{AreInOrder};
ghost use Rattle.rx_level.specs.Step.{Lent, level_of};
ghost use Rattle.rx_or.specs.Beside.{LiesBefore};

use rx_level::{Levels, Link, find};
use rx_value::is_at_most;

/// Whether a lent level that has items ends where another that has some begins, or before.
pub fn lies_before(levels: &Levels, g: Link, h: Link) -> bool
    requires g { Lent levels.now [] g }
    requires h { Lent levels.now [] h }
    requires order { AreInOrder (level_of levels.now g) }
    ensures { result ≡ true → LiesBefore (level_of levels.now g) (level_of levels.now h) }
{
    let count = levels.count(g);
    if count == 0 {
        return false;
    }
    let Some(last) = find(levels, g, count - 1) else {
        return false;
    };
    let Some(first) = find(levels, h, 0) else {
        return false;
    };
    is_at_most(&last.span.hi, &first.span.lo)
}
