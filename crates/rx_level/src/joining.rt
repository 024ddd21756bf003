//! Levels that are put together.

ghost use Rattle.std.specs.Prelude.{◌≡◌, ◌≤◌, ◌+◌, ◌-◌, ◌*◌, ℕ, true, List, [], ◌∷◌, Option, Some, None, IfOk, OnErr};
ghost use Rattle.slab.specs.Slab.{slab_len};
ghost use Rattle.rx_tree.specs.Tree.{Level};
ghost use Rattle.rx_tree.specs.Join.{join_level};
ghost use Rattle.rx_tree.specs.Tree.Level.{item as one_item};
ghost use Rattle.rx_level.specs.Tree.{IsHeight, IsNear};
ghost use Rattle.rx_level.specs.Step.{Owns, Step, level_of, tall_of, between};

use crate::balance::{raise_left, raise_right};
use crate::levels::Levels;
use crate::links::{Link, Owned};
use crate::trees::Item;
use std::alloc::AllocError;

/// Whether neither of two levels is more than one higher than the other.
pub(crate) fn are_near(levels: &Levels, left: Link, right: Link) -> bool
    ensures { result ≡ true → IsNear (tall_of levels.now left) (tall_of levels.now right) }
{
    let (before, after) = (levels.height(left), levels.height(right));
    before.saturating_sub(after) <= 1 && after.saturating_sub(before) <= 1
}

/// An item between two levels of any heights. The three handles are spent in every case. The error is
/// want of memory.
pub fn join(levels: &mut Levels, left: Owned, item: Item, right: Owned) -> Result<Owned, AllocError>
    requires { Owns levels.old (item.child ∷ left ∷ right ∷ []) }
    ensures ok { IfOk result (λ r. Step levels.old levels.new (item.child ∷ left ∷ right ∷ []) (r ∷ [])) }
    ensures level { IfOk result (λ r. level_of levels.new r ≡ between levels.old left item right) }
    ensures height { IfOk result (λ r. IsHeight (tall_of levels.old left) (tall_of levels.old right) (tall_of levels.new r)) }
    ensures live { slab_len levels.new ≤ slab_len levels.old + 3 * ((tall_of levels.old left - tall_of levels.old right) + (tall_of levels.old right - tall_of levels.old left)) + 1 }
    ensures err { OnErr result (Step levels.old levels.new (item.child ∷ left ∷ right ∷ []) []) }
{
    if are_near(levels, left, right) {
        let whole = levels.branch(item, left, right)?;
        return Ok(whole);
    }
    if levels.height(left) <= levels.height(right) {
        sink_left(levels, left, item, right)
    } else {
        sink_right(levels, left, item, right)
    }
}

// An item between a level and a higher one, which is taken apart as far as it is higher.
fn sink_left(
    levels: &mut Levels,
    left: Owned,
    item: Item,
    right: Owned,
) -> Result<Owned, AllocError>
    requires owns { Owns levels.old (item.child ∷ left ∷ right ∷ []) }
    requires low { tall_of levels.old left ≤ tall_of levels.old right + 1 }
    ensures ok { IfOk result (λ r. Step levels.old levels.new (item.child ∷ left ∷ right ∷ []) (r ∷ [])) }
    ensures level { IfOk result (λ r. level_of levels.new r ≡ between levels.old left item right) }
    ensures height { IfOk result (λ r. IsHeight (tall_of levels.old left) (tall_of levels.old right) (tall_of levels.new r)) }
    ensures live { slab_len levels.new ≤ slab_len levels.old + 3 * (tall_of levels.old right - tall_of levels.old left) + 1 }
    ensures err { OnErr result (Step levels.old levels.new (item.child ∷ left ∷ right ∷ []) []) }
{
    let Some(key) = right else {
        let whole = levels.branch(item, left, right)?;
        return Ok(whole);
    };
    if levels.height(right).saturating_sub(levels.height(left)) <= 1 {
        let whole = levels.branch(item, left, right)?;
        return Ok(whole);
    }
    match levels.open(key) {
        Ok(top) => match sink_left(levels, left, item, top.left) {
            Ok(front) => {
                let whole = raise_right(levels, front, top.item, top.right)?;
                Ok(whole)
            }
            Err(error) => {
                levels.free(top.item.child);
                levels.free(top.right);
                Err(error)
            }
        },
        Err(error) => {
            levels.free(left);
            levels.free(item.child);
            Err(error)
        }
    }
}

// An item between a level, which is taken apart as far as it is higher, and a lower one.
fn sink_right(
    levels: &mut Levels,
    left: Owned,
    item: Item,
    right: Owned,
) -> Result<Owned, AllocError>
    requires owns { Owns levels.old (item.child ∷ left ∷ right ∷ []) }
    requires low { tall_of levels.old right ≤ tall_of levels.old left + 1 }
    ensures ok { IfOk result (λ r. Step levels.old levels.new (item.child ∷ left ∷ right ∷ []) (r ∷ [])) }
    ensures level { IfOk result (λ r. level_of levels.new r ≡ between levels.old left item right) }
    ensures height { IfOk result (λ r. IsHeight (tall_of levels.old left) (tall_of levels.old right) (tall_of levels.new r)) }
    ensures live { slab_len levels.new ≤ slab_len levels.old + 3 * (tall_of levels.old left - tall_of levels.old right) + 1 }
    ensures err { OnErr result (Step levels.old levels.new (item.child ∷ left ∷ right ∷ []) []) }
{
    let Some(key) = left else {
        let whole = levels.branch(item, left, right)?;
        return Ok(whole);
    };
    if levels.height(left).saturating_sub(levels.height(right)) <= 1 {
        let whole = levels.branch(item, left, right)?;
        return Ok(whole);
    }
    match levels.open(key) {
        Ok(top) => match sink_right(levels, top.right, item, right) {
            Ok(back) => {
                let whole = raise_left(levels, top.left, top.item, back)?;
                Ok(whole)
            }
            Err(error) => {
                levels.free(top.item.child);
                levels.free(top.left);
                Err(error)
            }
        },
        Err(error) => {
            levels.free(right);
            levels.free(item.child);
            Err(error)
        }
    }
}

/// The first item of a level, and the items after it.
#[derive(Drop)]
pub struct First {
    pub item: Item,
    pub rest: Owned,
}

/// Takes the first item off a level, whose handle is spent in every case. The error is want of memory.
pub fn take_first(levels: &mut Levels, key: usize) -> Result<First, AllocError>
    requires { Owns levels.old (Some key ∷ []) }
    ensures ok { IfOk result (λ f. Step levels.old levels.new (Some key ∷ []) (f.item.child ∷ f.rest ∷ [])) }
    ensures level { IfOk result (λ f. level_of levels.old (Some key) ≡ one_item f.item.span (level_of levels.new f.item.child) (level_of levels.new f.rest)) }
    ensures low { IfOk result (λ f. tall_of levels.new f.rest ≤ tall_of levels.old (Some key)) }
    ensures high { IfOk result (λ f. tall_of levels.old (Some key) ≤ tall_of levels.new f.rest + 1) }
    ensures live { slab_len levels.new ≤ slab_len levels.old + 3 * tall_of levels.old (Some key) }
    ensures err { OnErr result (Step levels.old levels.new (Some key ∷ []) []) }
{
    let top = levels.open(key)?;
    let Some(next) = top.left else {
        return Ok(First {
            item: top.item,
            rest: top.right,
        });
    };
    match take_first(levels, next) {
        Ok(first) => match raise_left(levels, first.rest, top.item, top.right) {
            Ok(rest) => Ok(First {
                item: first.item,
                rest,
            }),
            Err(error) => {
                levels.free(first.item.child);
                Err(error)
            }
        },
        Err(error) => {
            levels.free(top.item.child);
            levels.free(top.right);
            Err(error)
        }
    }
}

/// The items of one level, then those of the other. Both handles are spent in every case. The error is
/// want of memory.
pub fn append(levels: &mut Levels, left: Owned, right: Owned) -> Result<Owned, AllocError>
    requires { Owns levels.old (left ∷ right ∷ []) }
    ensures ok { IfOk result (λ r. Step levels.old levels.new (left ∷ right ∷ []) (r ∷ [])) }
    ensures level { IfOk result (λ r. level_of levels.new r ≡ join_level (level_of levels.old left) (level_of levels.old right)) }
    ensures err { OnErr result (Step levels.old levels.new (left ∷ right ∷ []) []) }
{
    let Some(key) = right else {
        return Ok(left);
    };
    match take_first(levels, key) {
        Ok(first) => {
            let whole = join(levels, left, first.item, first.rest)?;
            Ok(whole)
        }
        Err(error) => {
            levels.free(left);
            Err(error)
        }
    }
}
