//! Levels whose sides are made even in height again.

ghost use Rattle.std.specs.Prelude.{◌≡◌, ◌≤◌, ◌+◌, ℕ, List, [], ◌∷◌, Option, Some, None, IfOk, OnErr, max};
ghost use Rattle.slab.specs.Slab.{slab_len};
ghost use Rattle.rx_tree.specs.Tree.{Level};
ghost use Rattle.rx_tree.specs.Join.{join_level};
ghost use Rattle.rx_tree.specs.Tree.Level.{item as one_item};
ghost use Rattle.rx_level.specs.Tree.{IsNear, IsHeight};
ghost use Rattle.rx_level.specs.Step.{Owns, Step, level_of, tall_of, between};

use crate::levels::Levels;
use crate::links::Owned;
use crate::trees::{Item, Opened};
use std::alloc::AllocError;

// The first item under the second. All handles are spent in every case.
fn lean_left(
    levels: &mut Levels,
    left: Owned,
    first: Item,
    middle: Owned,
    second: Item,
    right: Owned,
) -> Result<Owned, AllocError>
    requires owns { Owns levels.old (left ∷ first.child ∷ middle ∷ second.child ∷ right ∷ []) }
    requires inner { IsNear (tall_of levels.old left) (tall_of levels.old middle) }
    requires outer { IsNear (1 + max (tall_of levels.old left) (tall_of levels.old middle)) (tall_of levels.old right) }
    ensures ok { IfOk result (λ r. Step levels.old levels.new (left ∷ first.child ∷ middle ∷ second.child ∷ right ∷ []) (r ∷ [])) }
    ensures level { IfOk result (λ r. level_of levels.new r ≡ join_level (level_of levels.old left) (one_item first.span (level_of levels.old first.child) (between levels.old middle second right))) }
    ensures height { IfOk result (λ r. tall_of levels.new r ≡ 1 + max (1 + max (tall_of levels.old left) (tall_of levels.old middle)) (tall_of levels.old right)) }
    ensures live { slab_len levels.new ≤ slab_len levels.old + 2 }
    ensures err { OnErr result (Step levels.old levels.new (left ∷ first.child ∷ middle ∷ second.child ∷ right ∷ []) []) }
{
    match levels.branch(first, left, middle) {
        Ok(inner) => {
            let whole = levels.branch(second, inner, right)?;
            Ok(whole)
        }
        Err(error) => {
            levels.free(second.child);
            levels.free(right);
            Err(error)
        }
    }
}

// The second item under the first. All handles are spent in every case.
fn lean_right(
    levels: &mut Levels,
    left: Owned,
    first: Item,
    middle: Owned,
    second: Item,
    right: Owned,
) -> Result<Owned, AllocError>
    requires owns { Owns levels.old (left ∷ first.child ∷ middle ∷ second.child ∷ right ∷ []) }
    requires inner { IsNear (tall_of levels.old middle) (tall_of levels.old right) }
    requires outer { IsNear (tall_of levels.old left) (1 + max (tall_of levels.old middle) (tall_of levels.old right)) }
    ensures ok { IfOk result (λ r. Step levels.old levels.new (left ∷ first.child ∷ middle ∷ second.child ∷ right ∷ []) (r ∷ [])) }
    ensures level { IfOk result (λ r. level_of levels.new r ≡ join_level (level_of levels.old left) (one_item first.span (level_of levels.old first.child) (between levels.old middle second right))) }
    ensures height { IfOk result (λ r. tall_of levels.new r ≡ 1 + max (tall_of levels.old left) (1 + max (tall_of levels.old middle) (tall_of levels.old right))) }
    ensures live { slab_len levels.new ≤ slab_len levels.old + 2 }
    ensures err { OnErr result (Step levels.old levels.new (left ∷ first.child ∷ middle ∷ second.child ∷ right ∷ []) []) }
{
    match levels.branch(second, middle, right) {
        Ok(inner) => {
            let whole = levels.branch(first, left, inner)?;
            Ok(whole)
        }
        Err(error) => {
            levels.free(left);
            levels.free(first.child);
            Err(error)
        }
    }
}

// The first and the third item under the second, which is the topmost of a level. All handles are spent
// in every case.
fn lean_both(
    levels: &mut Levels,
    left: Owned,
    first: Item,
    second: Opened,
    third: Item,
    right: Owned,
) -> Result<Owned, AllocError>
    requires owns { Owns levels.old (left ∷ first.child ∷ second.item.child ∷ second.left ∷ second.right ∷ third.child ∷ right ∷ []) }
    requires before { IsNear (tall_of levels.old left) (tall_of levels.old second.left) }
    requires after { IsNear (tall_of levels.old second.right) (tall_of levels.old right) }
    requires outer { IsNear (max (tall_of levels.old left) (tall_of levels.old second.left)) (max (tall_of levels.old second.right) (tall_of levels.old right)) }
    ensures ok { IfOk result (λ r. Step levels.old levels.new (left ∷ first.child ∷ second.item.child ∷ second.left ∷ second.right ∷ third.child ∷ right ∷ []) (r ∷ [])) }
    ensures level { IfOk result (λ r. level_of levels.new r ≡ join_level (level_of levels.old left) (one_item first.span (level_of levels.old first.child) (join_level (between levels.old second.left second.item second.right) (one_item third.span (level_of levels.old third.child) (level_of levels.old right))))) }
    ensures height { IfOk result (λ r. tall_of levels.new r ≡ 2 + max (max (tall_of levels.old left) (tall_of levels.old second.left)) (max (tall_of levels.old second.right) (tall_of levels.old right))) }
    ensures live { slab_len levels.new ≤ slab_len levels.old + 3 }
    ensures err { OnErr result (Step levels.old levels.new (left ∷ first.child ∷ second.item.child ∷ second.left ∷ second.right ∷ third.child ∷ right ∷ []) []) }
{
    match levels.branch(first, left, second.left) {
        Ok(front) => {
            let whole = lean_right(levels, front, second.item, second.right, third, right)?;
            Ok(whole)
        }
        Err(error) => {
            levels.free(second.item.child);
            levels.free(second.right);
            levels.free(third.child);
            levels.free(right);
            Err(error)
        }
    }
}

/// An item between two levels, the right one at most two higher. The three handles are spent in every
/// case. The error is want of memory.
pub fn raise_left(
    levels: &mut Levels,
    left: Owned,
    item: Item,
    right: Owned,
) -> Result<Owned, AllocError>
    requires owns { Owns levels.old (item.child ∷ left ∷ right ∷ []) }
    requires low { tall_of levels.old left ≤ tall_of levels.old right + 1 }
    requires high { tall_of levels.old right ≤ tall_of levels.old left + 2 }
    ensures ok { IfOk result (λ r. Step levels.old levels.new (item.child ∷ left ∷ right ∷ []) (r ∷ [])) }
    ensures level { IfOk result (λ r. level_of levels.new r ≡ between levels.old left item right) }
    ensures height { IfOk result (λ r. IsHeight (tall_of levels.old left) (tall_of levels.old right) (tall_of levels.new r)) }
    ensures live { slab_len levels.new ≤ slab_len levels.old + 3 }
    ensures err { OnErr result (Step levels.old levels.new (item.child ∷ left ∷ right ∷ []) []) }
{
    let Some(key) = right else {
        let whole = levels.branch(item, left, right)?;
        return Ok(whole);
    };
    if levels.height(right).saturating_sub(levels.height(left)) <= 1 {
        let whole = levels.branch(item, left, right)?;
        return Ok(whole);
    }
    match levels.open(key) {
        Ok(top) => {
            let whole = turn_left(levels, left, item, top)?;
            Ok(whole)
        }
        Err(error) => {
            levels.free(left);
            levels.free(item.child);
            Err(error)
        }
    }
}

// An item before a level, one side of which is one higher than what stands before. All handles are spent
// in every case.
fn turn_left(levels: &mut Levels, left: Owned, item: Item, top: Opened) -> Result<Owned, AllocError>
    requires owns { Owns levels.old (left ∷ item.child ∷ top.item.child ∷ top.left ∷ top.right ∷ []) }
    requires near { IsNear (tall_of levels.old top.left) (tall_of levels.old top.right) }
    requires height { max (tall_of levels.old top.left) (tall_of levels.old top.right) ≡ tall_of levels.old left + 1 }
    ensures ok { IfOk result (λ r. Step levels.old levels.new (left ∷ item.child ∷ top.item.child ∷ top.left ∷ top.right ∷ []) (r ∷ [])) }
    ensures level { IfOk result (λ r. level_of levels.new r ≡ join_level (level_of levels.old left) (one_item item.span (level_of levels.old item.child) (between levels.old top.left top.item top.right))) }
    ensures low { IfOk result (λ r. tall_of levels.old left + 2 ≤ tall_of levels.new r) }
    ensures high { IfOk result (λ r. tall_of levels.new r ≤ tall_of levels.old left + 3) }
    ensures live { slab_len levels.new ≤ slab_len levels.old + 3 }
    ensures err { OnErr result (Step levels.old levels.new (left ∷ item.child ∷ top.item.child ∷ top.left ∷ top.right ∷ []) []) }
{
    let Some(key) = top.left else {
        let whole = lean_left(levels, left, item, top.left, top.item, top.right)?;
        return Ok(whole);
    };
    if levels.height(top.left) <= levels.height(top.right) {
        let whole = lean_left(levels, left, item, top.left, top.item, top.right)?;
        return Ok(whole);
    }
    match levels.open(key) {
        Ok(middle) => {
            let whole = lean_both(levels, left, item, middle, top.item, top.right)?;
            Ok(whole)
        }
        Err(error) => {
            levels.free(left);
            levels.free(item.child);
            levels.free(top.item.child);
            levels.free(top.right);
            Err(error)
        }
    }
}

/// An item between two levels, the left one at most two higher. The three handles are spent in every
/// case. The error is want of memory.
pub fn raise_right(
    levels: &mut Levels,
    left: Owned,
    item: Item,
    right: Owned,
) -> Result<Owned, AllocError>
    requires owns { Owns levels.old (item.child ∷ left ∷ right ∷ []) }
    requires low { tall_of levels.old right ≤ tall_of levels.old left + 1 }
    requires high { tall_of levels.old left ≤ tall_of levels.old right + 2 }
    ensures ok { IfOk result (λ r. Step levels.old levels.new (item.child ∷ left ∷ right ∷ []) (r ∷ [])) }
    ensures level { IfOk result (λ r. level_of levels.new r ≡ between levels.old left item right) }
    ensures height { IfOk result (λ r. IsHeight (tall_of levels.old left) (tall_of levels.old right) (tall_of levels.new r)) }
    ensures live { slab_len levels.new ≤ slab_len levels.old + 3 }
    ensures err { OnErr result (Step levels.old levels.new (item.child ∷ left ∷ right ∷ []) []) }
{
    let Some(key) = left else {
        let whole = levels.branch(item, left, right)?;
        return Ok(whole);
    };
    if levels.height(left).saturating_sub(levels.height(right)) <= 1 {
        let whole = levels.branch(item, left, right)?;
        return Ok(whole);
    }
    match levels.open(key) {
        Ok(top) => {
            let whole = turn_right(levels, top, item, right)?;
            Ok(whole)
        }
        Err(error) => {
            levels.free(right);
            levels.free(item.child);
            Err(error)
        }
    }
}

// An item after a level, one side of which is one higher than what stands after. All handles are spent
// in every case.
fn turn_right(
    levels: &mut Levels,
    top: Opened,
    item: Item,
    right: Owned,
) -> Result<Owned, AllocError>
    requires owns { Owns levels.old (right ∷ item.child ∷ top.item.child ∷ top.left ∷ top.right ∷ []) }
    requires near { IsNear (tall_of levels.old top.left) (tall_of levels.old top.right) }
    requires height { max (tall_of levels.old top.left) (tall_of levels.old top.right) ≡ tall_of levels.old right + 1 }
    ensures ok { IfOk result (λ r. Step levels.old levels.new (right ∷ item.child ∷ top.item.child ∷ top.left ∷ top.right ∷ []) (r ∷ [])) }
    ensures level { IfOk result (λ r. level_of levels.new r ≡ join_level (between levels.old top.left top.item top.right) (one_item item.span (level_of levels.old item.child) (level_of levels.old right))) }
    ensures low { IfOk result (λ r. tall_of levels.old right + 2 ≤ tall_of levels.new r) }
    ensures high { IfOk result (λ r. tall_of levels.new r ≤ tall_of levels.old right + 3) }
    ensures live { slab_len levels.new ≤ slab_len levels.old + 3 }
    ensures err { OnErr result (Step levels.old levels.new (right ∷ item.child ∷ top.item.child ∷ top.left ∷ top.right ∷ []) []) }
{
    let Some(key) = top.right else {
        let whole = lean_right(levels, top.left, top.item, top.right, item, right)?;
        return Ok(whole);
    };
    if levels.height(top.right) <= levels.height(top.left) {
        let whole = lean_right(levels, top.left, top.item, top.right, item, right)?;
        return Ok(whole);
    }
    match levels.open(key) {
        Ok(middle) => {
            let whole = lean_both(levels, top.left, top.item, middle, item, right)?;
            Ok(whole)
        }
        Err(error) => {
            levels.free(right);
            levels.free(item.child);
            levels.free(top.item.child);
            levels.free(top.left);
            Err(error)
        }
    }
}
