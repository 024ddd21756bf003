//! Levels put one behind the other, as one item where two touch and have the same child.

ghost use Rattle.std.specs.Prelude.{◌≡◌, ◌↔◌, List, [], ◌∷◌, Option, Some, None, IfOk, OnErr, IsTrue};
ghost use Rattle.rx_tree.specs.Tree.{Level};
ghost use Rattle.rx_tree.specs.Tree.Level.{end, item as one_item};
ghost use Rattle.rx_tree.specs.Join.{join_level};
ghost use Rattle.rx_tree.specs.Weld.{glue};
ghost use Rattle.rx_level.specs.Step.{Owns, Step, Lent, level_of};
ghost use Rattle.rx_weld.specs.Seamless.{IsSeamless};
ghost use Rattle.rx_weld.specs.Seam.{IsSeam};

use crate::welding::{is_one, join_as_one};
use rx_level::{Item, Levels, Link, Owned, append, find, join, take_first};
use std::alloc::AllocError;

/// The last item of a level, and the items before it.
#[derive(Drop)]
struct Last {
    before: Owned,
    item: Item,
}

// Takes the last item off a level, whose handle is spent in every case.
fn take_last(levels: &mut Levels, key: usize) -> Result<Last, AllocError>
    requires { Owns levels.old (Some key ∷ []) }
    ensures ok { IfOk result (λ l. Step levels.old levels.new (Some key ∷ []) (l.before ∷ l.item.child ∷ [])) }
    ensures level { IfOk result (λ l. level_of levels.old (Some key) ≡ join_level (level_of levels.new l.before) (one_item l.item.span (level_of levels.new l.item.child) end)) }
    ensures err { OnErr result (Step levels.old levels.new (Some key ∷ []) []) }
{
    let top = levels.open(key)?;
    let Some(next) = top.right else {
        return Ok(Last {
            before: top.left,
            item: top.item,
        });
    };
    match take_last(levels, next) {
        Ok(last) => match join(levels, top.left, top.item, last.before) {
            Ok(before) => Ok(Last {
                before,
                item: last.item,
            }),
            Err(error) => {
                levels.free(last.item.child);
                Err(error)
            }
        },
        Err(error) => {
            levels.free(top.item.child);
            levels.free(top.left);
            Err(error)
        }
    }
}

/// Whether the last item of one lent level ends where the first of another begins, and has the same child.
/// Takes no memory.
pub fn is_seam(levels: &Levels, left: Link, right: Link) -> bool
    requires left { Lent levels.now [] left }
    requires right { Lent levels.now [] right }
    ensures { IsTrue result ↔ IsSeam (level_of levels.now left) (level_of levels.now right) }
{
    let count = levels.count(left);
    if count == 0 {
        return false;
    }
    let Some(last) = find(levels, left, count - 1) else {
        return false;
    };
    let Some(first) = find(levels, right, 0) else {
        return false;
    };
    is_one(levels, last, first)
}

/// The items of one level before those of another, as one item where two touch and have the same child.
/// Both handles are spent in every case. The error is want of memory.
pub fn glue(levels: &mut Levels, left: Owned, right: Owned) -> Result<Owned, AllocError>
    requires owns { Owns levels.old (left ∷ right ∷ []) }
    requires apart { IsSeamless (level_of levels.old left) }
    ensures ok { IfOk result (λ r. Step levels.old levels.new (left ∷ right ∷ []) (r ∷ [])) }
    ensures level { IfOk result (λ r. level_of levels.new r ≡ glue (level_of levels.old left) (level_of levels.old right)) }
    ensures err { OnErr result (Step levels.old levels.new (left ∷ right ∷ []) []) }
{
    let Some(front) = left else {
        return Ok(right);
    };
    let Some(back) = right else {
        return Ok(left);
    };
    if !is_seam(levels, left, right) {
        let whole = append(levels, left, right)?;
        return Ok(whole);
    }
    match take_last(levels, front) {
        Ok(last) => match take_first(levels, back) {
            Ok(first) => {
                let whole = join_as_one(levels, last.before, last.item, first.item, first.rest)?;
                Ok(whole)
            }
            Err(error) => {
                levels.free(last.before);
                levels.free(last.item.child);
                Err(error)
            }
        },
        Err(error) => {
            levels.free(right);
            Err(error)
        }
    }
}
