//! The levels of point sets.

ghost use Rattle.std.specs.Prelude.{◌≡◌, ℕ, Bool, List, [], ◌∷◌, Option, IfOk, OnErr};
ghost use Rattle.rx_tree.specs.Tree.{Level};
ghost use Rattle.rx_tree.specs.Points.{items_at};
ghost use Rattle.rx_level.specs.Store.{IsSound};
ghost use Rattle.rx_level.specs.Step.{Step, level_of};

use rx_level::{Item, Levels, Owned, build};
use rx_value::{SpanList, whole_span};
use std::alloc::AllocError;

/// The items of some spans at a part, under one whole item of each part before it. The parts are counted
/// from the first of the list, which is this part of the tree. The error is want of memory.
pub fn level_at(
    levels: &mut Levels,
    nullable: &[bool],
    at: u32,
    part: u32,
    spans: SpanList,
) -> Result<Owned, AllocError>
    requires { IsSound levels.old [] }
    ensures ok { IfOk result (λ r. Step levels.old levels.new [] (r ∷ [])) }
    ensures level { IfOk result (λ r. level_of levels.new r ≡ items_at nullable.now part spans) }
    ensures err { OnErr result (Step levels.old levels.new [] []) }
{
    let [first, rest @ ..] = nullable else {
        return Ok(None);
    };
    if part == 0 {
        return build(levels, at, spans);
    }
    let Some(next) = at.checked_add(1) else {
        return Err(AllocError);
    };
    let child = level_at(levels, rest, next, part - 1, spans)?;
    let item = Item {
        part: at,
        span: whole_span(*first),
        child,
    };
    levels.branch(item, None, None)
}
