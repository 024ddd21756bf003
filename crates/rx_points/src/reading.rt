//! The keys of the items of lent levels.

ghost use Rattle.std.specs.Prelude.{◌≡◌, ◌++◌, List, [], OnOk};
ghost use Rattle.rx_level.specs.Step.{Lent, level_of};
ghost use Rattle.rx_points.specs.Spans.{spans_of};
ghost use Rattle.rx_points.specs.Keys.{spans_at, AreLentKeys};

use rx_level::{Levels, Link};
use rx_value::List;
use std::alloc::AllocError;

/// Adds the keys of a lent level's items to a list, in order. The error is want of memory.
pub(crate) fn add_keys(
    levels: &Levels,
    root: Link,
    keys: &mut List<usize>,
) -> Result<(), AllocError>
    requires root { Lent levels.now [] root }
    requires keys { AreLentKeys levels.now keys.old }
    ensures spans { OnOk result (spans_at levels.now keys.new ≡ spans_at levels.now keys.old ++ spans_of (level_of levels.now root)) }
    ensures lent { OnOk result (AreLentKeys levels.now keys.new) }
{
    let Some(key) = root else {
        return Ok(());
    };
    let Some(seen) = levels.look(Some(key)) else {
        return Ok(());
    };
    add_keys(levels, seen.left, keys)?;
    keys.push(key)?;
    add_keys(levels, seen.right, keys)?;
    Ok(())
}
