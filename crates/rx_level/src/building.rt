//! Levels from lists.

ghost use Rattle.std.specs.Prelude.{◌≡◌, ◌≤◌, ◌-◌, ℕ, List, [], ◌∷◌, Option, Some, None, IfOk, OnErr, length, take, drop};
ghost use Rattle.rx_tree.specs.Tree.{Level};
ghost use Rattle.rx_tree.specs.Tree.Level.{item as one_item, end as no_items};
ghost use Rattle.rx_tree.specs.Join.{join_level};
ghost use Rattle.rx_tree.specs.Points.{items_of};
ghost use Rattle.rx_level.specs.Store.{IsSound};
ghost use Rattle.rx_level.specs.Step.{Owns, Step, Lent, level_of};
ghost use Rattle.rx_level.specs.Between.{AreLent, span_between, spans_between};

use crate::joining::{are_near, join};
use crate::levels::Levels;
use crate::links::Owned;
use crate::reading::span_of;
use crate::trees::Item;
use rx_value::{Span, SpanList};
use std::alloc::{AllocError, Global};

/// A level with an item of this part for each span, without children. The error is want of memory.
pub fn build(levels: &mut Levels, part: u32, spans: SpanList) -> Result<Owned, AllocError>
    requires { IsSound levels.old [] }
    ensures ok { IfOk result (λ r. Step levels.old levels.new [] (r ∷ [])) }
    ensures level { IfOk result (λ r. level_of levels.new r ≡ items_of spans) }
    ensures err { OnErr result (Step levels.old levels.new [] []) }
{
    let mut spans = spans;
    let count = spans.len();
    build_last(levels, part, &mut spans, count)
}

// The level of the last so many spans, which are taken out of the list.
fn build_last(
    levels: &mut Levels,
    part: u32,
    spans: &mut SpanList,
    count: usize,
) -> Result<Owned, AllocError>
    requires sound { IsSound levels.old [] }
    requires enough { count ≤ length spans.old }
    ensures ok { IfOk result (λ r. Step levels.old levels.new [] (r ∷ [])) }
    ensures level { IfOk result (λ r. level_of levels.new r ≡ items_of (drop (length spans.old - count) spans.old)) }
    ensures rest { IfOk result (λ r. spans.new ≡ take (length spans.old - count) spans.old) }
    ensures err { OnErr result (Step levels.old levels.new [] []) }
{
    if count == 0 {
        return Ok(None);
    }
    let half = count / 2;
    let right = build_last(levels, part, spans, half)?;
    let Some(span) = spans.pop() else {
        unreachable!();
    };
    match build_last(levels, part, spans, count - half - 1) {
        Ok(left) => {
            let item = Item {
                part,
                span,
                child: None,
            };
            let whole = join(levels, left, item, right)?;
            Ok(whole)
        }
        Err(error) => {
            levels.free(right);
            Err(error)
        }
    }
}

/// Where a new item begins and ends: at ends of items that stand in the store, named by their keys.
#[derive(Clone, Copy, Drop)]
pub struct Bounds {
    /// The item whose lower end is taken.
    pub first: usize,
    /// The item whose upper end is taken.
    pub last: usize,
}

// A new item without a child.
fn item_between(
    levels: &Levels,
    alloc: Global,
    part: u32,
    bounds: Bounds,
) -> Result<Item, AllocError>
    requires first { Lent levels.now [] (Some bounds.first) }
    requires last { Lent levels.now [] (Some bounds.last) }
    ensures span { IfOk result (λ i. i.span ≡ span_between levels.now bounds) }
    ensures child { IfOk result (λ i. i.child ≡ None) }
{
    let lo = span_of(levels, bounds.first).lo.copy(alloc)?;
    let hi = span_of(levels, bounds.last).hi.copy(alloc)?;
    Ok(Item {
        part,
        span: Span { lo, hi },
        child: None,
    })
}

// A new item without a child between two levels. Both handles are spent in every case.
fn set_between(
    levels: &mut Levels,
    alloc: Global,
    part: u32,
    bounds: Bounds,
    left: Owned,
    right: Owned,
) -> Result<Owned, AllocError>
    requires owns { Owns levels.old (left ∷ right ∷ []) }
    requires first { Lent levels.old [] (Some bounds.first) }
    requires last { Lent levels.old [] (Some bounds.last) }
    ensures ok { IfOk result (λ r. Step levels.old levels.new (left ∷ right ∷ []) (r ∷ [])) }
    ensures level { IfOk result (λ r. level_of levels.new r ≡ join_level (level_of levels.old left) (one_item (span_between levels.old bounds) no_items (level_of levels.old right))) }
    ensures err { OnErr result (Step levels.old levels.new (left ∷ right ∷ []) []) }
{
    let Ok(item) = item_between(levels, alloc, part, bounds) else {
        levels.free(left);
        levels.free(right);
        return Err(AllocError);
    };
    if are_near(levels, left, right) {
        let whole = levels.branch(item, left, right)?;
        return Ok(whole);
    }
    let whole = join(levels, left, item, right)?;
    Ok(whole)
}

/// A level with an item of this part for each of these bounds, without children. The error is want of memory.
pub fn build_between(
    levels: &mut Levels,
    alloc: Global,
    part: u32,
    bounds: &[Bounds],
) -> Result<Owned, AllocError>
    requires sound { IsSound levels.old [] }
    requires lent { AreLent levels.old bounds.now }
    ensures ok { IfOk result (λ r. Step levels.old levels.new [] (r ∷ [])) }
    ensures level { IfOk result (λ r. level_of levels.new r ≡ items_of (spans_between levels.old bounds.now)) }
    ensures err { OnErr result (Step levels.old levels.new [] []) }
{
    let (front, rest) = bounds.split_at(bounds.len() / 2);
    let Some((own, back)) = rest.split_first() else {
        return Ok(None);
    };
    let right = build_between(levels, alloc, part, back)?;
    match build_between(levels, alloc, part, front) {
        Ok(left) => {
            let whole = set_between(levels, alloc, part, *own, left, right)?;
            Ok(whole)
        }
        Err(error) => {
            levels.free(right);
            Err(error)
        }
    }
}
