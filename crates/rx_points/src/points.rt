//! Two levels of items without children as one.

ghost use Rattle.std.specs.Prelude.{◌≡◌, ◌<◌, ◌≤◌, true, List, [], ◌∷◌, IfOk, IfErr, OnErr};
ghost use Rattle.rx_tree.specs.Tree.{level_size};
ghost use Rattle.rx_tree.specs.Join.{length_of};
ghost use Rattle.rx_tree.specs.Canonical.{ArePlaced};
ghost use Rattle.rx_tree.specs.Union.{either};
ghost use Rattle.rx_level.specs.Store.{IsSound};
ghost use Rattle.rx_level.specs.Step.{Step, Lent, level_of};
ghost use Rattle.rx_value.specs.Order.{below};
ghost use Rattle.rx_value.specs.declared.values.Value.TheVariants.{Null};
ghost use Rattle.rx_level.specs.Between.{AreLent, spans_between};
ghost use Rattle.rx_points.specs.Keys.{spans_at, AreLentKeys};
ghost use Rattle.rx_points.specs.Spans.{ArePoints, AreRising, AreUnited, HaveNoChild, spans_of};

use crate::merging::united;
use crate::reading::add_keys;
use rx_graph::GraphFault;
use rx_level::{Bounds, Levels, Link, Owned, build_between};
use rx_value::List;
use std::alloc::{AllocError, Global};

// The most items of a level that is made anew.
const MOST: u64 = 1_024;

// How many times as many items as the other one of two levels may have.
const TIMES: u64 = 8;

// Whether two levels are short, and neither is many times as long as the other.
fn are_near(first: u64, second: u64) -> bool
    ensures { result ≡ true → 0 < first }
{
    if first == 0 || first > MOST || second > MOST {
        return false;
    }
    first / TIMES <= second && second / TIMES <= first
}

// Whether no item of a level has a child.
#[tactic(auto, using(crate::proofs::Levels::no_child))]
fn has_no_child(levels: &Levels, root: Link) -> bool
    ensures { result ≡ true → HaveNoChild (level_of levels.now root) }
{
    if levels.size(root) != levels.count(root) {
        return false;
    }
    true
}

/// Whether two levels have items, none of them a child, and are short enough and near enough in length to be made into
/// one from the first item to the last.
pub fn are_points(levels: &Levels, g: Link, h: Link) -> bool
    ensures { result ≡ true → ArePoints (level_of levels.now g) (level_of levels.now h) }
{
    if !are_near(levels.count(g), levels.count(h)) {
        return false;
    }
    if !has_no_child(levels, g) || !has_no_child(levels, h) {
        return false;
    }
    true
}

// The keys of a lent level's items in order.
fn keys(levels: &Levels, alloc: Global, root: Link) -> Result<List<usize>, AllocError>
    requires { Lent levels.now [] root }
    ensures spans { IfOk result (λ k. spans_at levels.now k ≡ spans_of (level_of levels.now root)) }
    ensures lent { IfOk result (λ k. AreLentKeys levels.now k) }
{
    let mut keys = List::with_capacity(alloc, levels.count(root) as usize)?;
    add_keys(levels, root, &mut keys)?;
    Ok(keys)
}

// What the items of two lent levels cover, as spans that don't touch.
fn united_bounds(
    levels: &Levels,
    alloc: Global,
    g: Link,
    h: Link,
) -> Result<List<Bounds>, AllocError>
    requires g { Lent levels.now [] g }
    requires h { Lent levels.now [] h }
    requires first { AreRising (below Null) (spans_of (level_of levels.now g)) }
    requires second { AreRising (below Null) (spans_of (level_of levels.now h)) }
    ensures united { IfOk result (λ u. AreUnited (spans_of (level_of levels.now g)) (spans_of (level_of levels.now h)) (spans_between levels.now u)) }
    ensures lent { IfOk result (λ u. AreLent levels.now u) }
{
    let first = keys(levels, alloc, g)?;
    let second = keys(levels, alloc, h)?;
    let both = united(levels, alloc, first.as_slice(), second.as_slice())?;
    Ok(both)
}

/// Either of two lent levels of items without children, made anew.
///
/// # Errors
///
/// OverLimit comes only where it has more items than the limit, NoMemory where memory is wanting.
pub fn unite_points(
    levels: &mut Levels,
    alloc: Global,
    limit: u64,
    parts: &[bool],
    g: Link,
    h: Link,
) -> Result<Owned, GraphFault>
    requires sound { IsSound levels.old [] }
    requires g { Lent levels.old [] g }
    requires h { Lent levels.old [] h }
    requires points { ArePoints (level_of levels.old g) (level_of levels.old h) }
    requires first { ArePlaced parts.now (level_of levels.old g) }
    requires second { ArePlaced parts.now (level_of levels.old h) }
    ensures ok { IfOk result (λ r. Step levels.old levels.new [] (r ∷ [])) }
    ensures level { IfOk result (λ r. level_of levels.new r ≡ either parts.now (level_of levels.old g) (level_of levels.old h)) }
    ensures small { IfOk result (λ r. level_size (level_of levels.new r) ≤ limit) }
    ensures over { IfErr result (λ fault. fault ≡ GraphFault.OverLimit → limit < level_size (either parts.now (level_of levels.old g) (level_of levels.old h))) }
    ensures err { OnErr result (Step levels.old levels.new [] []) }
{
    let Some(top) = levels.look(g) else {
        return Ok(None);
    };
    let part = top.part;
    let Ok(bounds) = united_bounds(levels, alloc, g, h) else {
        return Err(GraphFault::NoMemory);
    };
    if bounds.len() as u64 > limit {
        return Err(GraphFault::OverLimit);
    }
    let Ok(whole) = build_between(levels, alloc, part, bounds.as_slice()) else {
        return Err(GraphFault::NoMemory);
    };
    Ok(whole)
}
