//! Either of two lent levels: the items of the one that has fewer, each with what the other has within it,
//! and between them what the other has there. What goes on below each pair of their children is made once.

ghost use Rattle.std.specs.Prelude.{◌≡◌, ◌<◌, ◌≤◌, ◌+◌, ℕ, cond, List, [], ◌∷◌, Option, Some, None, IfOk, IfErr, OnOk, OnErr};
ghost use Rattle.slab.specs.Slab.{slab_len};
ghost use Rattle.rx_value.specs.Order.{is_at_most};
ghost use Rattle.rx_tree.specs.Tree.{Level, level_size};
ghost use Rattle.rx_tree.specs.Tree.Level.{item as one_item, end as no_items};
ghost use Rattle.rx_tree.specs.Canonical.{ArePlaced};
ghost use Rattle.rx_tree.specs.Cuts.{before, after};
ghost use Rattle.rx_tree.specs.Fill.{MayFill, filled};
ghost use Rattle.rx_tree.specs.Union.{either};
ghost use Rattle.rx_level.specs.Store.{IsSound};
ghost use Rattle.rx_level.specs.Step.{Step, Lent, level_of};
ghost use Rattle.rx_cut.specs.Clip.{clipped};
ghost use Rattle.rx_pairs.specs.Pairs.{Adds, IsReady, Keeps, Lacks};
ghost use Rattle.rx_or.specs.Below.{union_below, ArePlacedBelow, IsUnionBelow};

use crate::all_keys::is_all;
use rx_cut::{ahead, behind, clip};
use rx_graph::GraphFault;
use rx_level::{Item, Levels, Link, Owned};
use rx_limit::{glue_three, hold_within, is_same_link};
use rx_pairs::{Memory, forget, remember};
use rx_points::{are_points, unite_points};
use rx_value::{End, Span, is_at_most};
use std::alloc::{AllocError, Global};

// A level of one item between two ends, which is of this part, over a lent level.
fn alone(
    levels: &mut Levels,
    alloc: Global,
    at: u32,
    lo: &End,
    hi: &End,
    child: Link,
) -> Result<Owned, GraphFault>
    requires sound { IsSound levels.old [] }
    requires child { Lent levels.old [] child }
    ensures ok { IfOk result (λ r. Step levels.old levels.new [] (r ∷ [])) }
    ensures level { IfOk result (λ r. level_of levels.new r ≡ one_item (record { lo = lo.now; hi = hi.now }) (level_of levels.old child) no_items) }
    ensures fault { IfErr result (λ fault. fault ≡ GraphFault.NoMemory) }
    ensures err { OnErr result (Step levels.old levels.new [] []) }
{
    let (Ok(lo), Ok(hi)) = (lo.copy(alloc), hi.copy(alloc)) else {
        return Err(GraphFault::NoMemory);
    };
    let Ok(()) = levels.hold(child) else {
        return Err(GraphFault::NoMemory);
    };
    let item = Item {
        part: at,
        span: Span { lo, hi },
        child,
    };
    let Ok(whole) = levels.branch(item, None, None) else {
        return Err(GraphFault::NoMemory);
    };
    Ok(whole)
}

// A level of one item between two ends, which is of this part, over a lent level; no items where the second end isn't
// above the first.
fn gap(
    levels: &mut Levels,
    alloc: Global,
    at: u32,
    lo: &End,
    hi: &End,
    child: Link,
) -> Result<Owned, GraphFault>
    requires sound { IsSound levels.old [] }
    requires child { Lent levels.old [] child }
    ensures ok { IfOk result (λ r. Step levels.old levels.new [] (r ∷ [])) }
    ensures level { IfOk result (λ r. level_of levels.new r ≡ cond (is_at_most hi.now lo.now) no_items (one_item (record { lo = lo.now; hi = hi.now }) (level_of levels.old child) no_items)) }
    ensures fault { IfErr result (λ fault. fault ≡ GraphFault.NoMemory) }
    ensures err { OnErr result (Step levels.old levels.new [] []) }
{
    if is_at_most(hi, lo) {
        return Ok(None);
    }
    match alone(levels, alloc, at, lo, hi, child) {
        Ok(whole) => Ok(whole),
        Err(fault) => Err(fault),
    }
}

// What goes on below either of two lent children of items. The list says of the parts from that of the items
// on whether each may be NULL.
#[cycle(unite)]
fn unite_below(
    levels: &mut Levels,
    alloc: Global,
    limit: u64,
    parts: &[bool],
    c: Link,
    d: Link,
) -> Result<Owned, GraphFault>
    requires sound { IsSound levels.old [] }
    requires c { Lent levels.old [] c }
    requires d { Lent levels.old [] d }
    requires first { ArePlacedBelow parts.now (level_of levels.old c) }
    requires second { ArePlacedBelow parts.now (level_of levels.old d) }
    ensures ok { IfOk result (λ r. Step levels.old levels.new [] (r ∷ [])) }
    ensures level { IfOk result (λ r. level_of levels.new r ≡ union_below parts.now (level_of levels.old c) (level_of levels.old d)) }
    ensures over { IfErr result (λ fault. fault ≡ GraphFault.OverLimit → limit < 1 + level_size (union_below parts.now (level_of levels.old c) (level_of levels.old d))) }
    ensures err { OnErr result (Step levels.old levels.new [] []) }
{
    let [_, below @ ..] = parts else {
        return Ok(None);
    };
    let [nullable, ..] = below else {
        return Ok(None);
    };
    if levels.count(c) == 0 || levels.count(d) == 0 {
        return Ok(None);
    }
    let whole = match unite(levels, alloc, limit, below, c, d) {
        Ok(whole) => whole,
        Err(fault) => return Err(fault),
    };
    if is_all(levels, *nullable, whole) {
        levels.free(whole);
        return Ok(None);
    }
    Ok(whole)
}

// What goes on below either of two lent children, made at once or before: of a pair that is remembered no item is new.
#[cycle(unite)]
fn below_once(
    levels: &mut Levels,
    memory: &mut Memory,
    alloc: Global,
    limit: u64,
    parts: &[bool],
    c: usize,
    d: usize,
) -> Result<Owned, GraphFault>
    requires ready { IsReady (IsUnionBelow parts.now) levels.old memory.old }
    requires c { Lent levels.old [] (Some c) }
    requires d { Lent levels.old [] (Some d) }
    requires first { ArePlacedBelow parts.now (level_of levels.old (Some c)) }
    requires second { ArePlacedBelow parts.now (level_of levels.old (Some d)) }
    ensures ok { IfOk result (λ r. Keeps (IsUnionBelow parts.now) levels.old levels.new memory.old memory.new (r ∷ [])) }
    ensures level { IfOk result (λ r. level_of levels.new r ≡ union_below parts.now (level_of levels.old (Some c)) (level_of levels.old (Some d))) }
    ensures over { IfErr result (λ fault. fault ≡ GraphFault.OverLimit → limit < 1 + level_size (union_below parts.now (level_of levels.old (Some c)) (level_of levels.old (Some d)))) }
    ensures once { OnOk result ((Lacks memory.old (c, d) → ⊥) → slab_len levels.new ≤ slab_len levels.old) }
    ensures err { OnErr result (Adds levels.old levels.new memory.old memory.new []) }
{
    let Some(known) = memory.find(c, d) else {
        let whole = match unite_below(levels, alloc, limit, parts, Some(c), Some(d)) {
            Ok(whole) => whole,
            Err(fault) => return Err(fault),
        };
        let Ok(()) = remember(levels, memory, c, d, whole) else {
            levels.free(whole);
            return Err(GraphFault::NoMemory);
        };
        return Ok(whole);
    };
    let Ok(()) = levels.hold(known) else {
        return Err(GraphFault::NoMemory);
    };
    Ok(known)
}

// What goes on below either of two lent children. A pair is remembered with the lower link first.
#[cycle(unite)]
fn below_pair(
    levels: &mut Levels,
    memory: &mut Memory,
    alloc: Global,
    limit: u64,
    parts: &[bool],
    c: Link,
    d: Link,
) -> Result<Owned, GraphFault>
    requires ready { IsReady (IsUnionBelow parts.now) levels.old memory.old }
    requires c { Lent levels.old [] c }
    requires d { Lent levels.old [] d }
    requires first { ArePlacedBelow parts.now (level_of levels.old c) }
    requires second { ArePlacedBelow parts.now (level_of levels.old d) }
    ensures ok { IfOk result (λ r. Keeps (IsUnionBelow parts.now) levels.old levels.new memory.old memory.new (r ∷ [])) }
    ensures level { IfOk result (λ r. level_of levels.new r ≡ union_below parts.now (level_of levels.old c) (level_of levels.old d)) }
    ensures over { IfErr result (λ fault. fault ≡ GraphFault.OverLimit → limit < 1 + level_size (union_below parts.now (level_of levels.old c) (level_of levels.old d))) }
    ensures err { OnErr result (Adds levels.old levels.new memory.old memory.new []) }
{
    let Some(first) = c else {
        return Ok(None);
    };
    let Some(next) = d else {
        return Ok(None);
    };
    if first <= next {
        return match below_once(levels, memory, alloc, limit, parts, first, next) {
            Ok(whole) => Ok(whole),
            Err(fault) => Err(fault),
        };
    }
    match below_once(levels, memory, alloc, limit, parts, next, first) {
        Ok(whole) => Ok(whole),
        Err(fault) => Err(fault),
    }
}

// An item of the part `at` over what goes on below either of two lent children.
#[cycle(unite)]
fn item_over(
    levels: &mut Levels,
    memory: &mut Memory,
    alloc: Global,
    limit: u64,
    parts: &[bool],
    at: u32,
    span: &Span,
    c: Link,
    d: Link,
) -> Result<Owned, GraphFault>
    requires ready { IsReady (IsUnionBelow parts.now) levels.old memory.old }
    requires c { Lent levels.old [] c }
    requires d { Lent levels.old [] d }
    requires first { ArePlacedBelow parts.now (level_of levels.old c) }
    requires second { ArePlacedBelow parts.now (level_of levels.old d) }
    ensures ok { IfOk result (λ r. Keeps (IsUnionBelow parts.now) levels.old levels.new memory.old memory.new (r ∷ [])) }
    ensures level { IfOk result (λ r. level_of levels.new r ≡ one_item span.now (union_below parts.now (level_of levels.old c) (level_of levels.old d)) no_items) }
    ensures over { IfErr result (λ fault. fault ≡ GraphFault.OverLimit → limit < 1 + level_size (union_below parts.now (level_of levels.old c) (level_of levels.old d))) }
    ensures err { OnErr result (Adds levels.old levels.new memory.old memory.new []) }
{
    let Ok(span) = span.copy(alloc) else {
        return Err(GraphFault::NoMemory);
    };
    let child = match below_pair(levels, memory, alloc, limit, parts, c, d) {
        Ok(child) => child,
        Err(fault) => return Err(fault),
    };
    let item = Item {
        part: at,
        span,
        child,
    };
    let Ok(whole) = levels.branch(item, None, None) else {
        return Err(GraphFault::NoMemory);
    };
    Ok(whole)
}

// An item between two ends over a lent child, which is of the part `at`, united with a lent level between these
// ends: an item over either child for each item of the level, and the child alone in the gaps.
#[cycle(unite)]
fn fill(
    levels: &mut Levels,
    memory: &mut Memory,
    alloc: Global,
    limit: u64,
    parts: &[bool],
    at: u32,
    lo: &End,
    hi: &End,
    child: Link,
    within: Link,
) -> Result<Owned, GraphFault>
    requires ready { IsReady (IsUnionBelow parts.now) levels.old memory.old }
    requires child { Lent levels.old [] child }
    requires within { Lent levels.old [] within }
    requires fits { MayFill parts.now lo.now hi.now (level_of levels.old child) (level_of levels.old within) }
    ensures ok { IfOk result (λ r. Keeps (IsUnionBelow parts.now) levels.old levels.new memory.old memory.new (r ∷ [])) }
    ensures level { IfOk result (λ r. level_of levels.new r ≡ filled parts.now lo.now hi.now (level_of levels.old child) (level_of levels.old within)) }
    ensures over { IfErr result (λ fault. fault ≡ GraphFault.OverLimit → limit < level_size (filled parts.now lo.now hi.now (level_of levels.old child) (level_of levels.old within))) }
    ensures err { OnErr result (Adds levels.old levels.new memory.old memory.new []) }
{
    let Some(seen) = levels.look(within) else {
        return match gap(levels, alloc, at, lo, hi, child) {
            Ok(whole) => Ok(whole),
            Err(fault) => Err(fault),
        };
    };
    let under = seen.child;
    let left = seen.left;
    let right = seen.right;
    let Ok(span) = seen.span.copy(alloc) else {
        return Err(GraphFault::NoMemory);
    };
    let middle = match item_over(levels, memory, alloc, limit, parts, at, &span, child, under) {
        Ok(middle) => middle,
        Err(fault) => return Err(fault),
    };
    let front = match fill(
        levels, memory, alloc, limit, parts, at, lo, &span.lo, child, left,
    ) {
        Ok(front) => front,
        Err(fault) => {
            levels.free(middle);
            return Err(fault);
        }
    };
    let back = match fill(
        levels, memory, alloc, limit, parts, at, &span.hi, hi, child, right,
    ) {
        Ok(back) => back,
        Err(fault) => {
            levels.free(front);
            levels.free(middle);
            return Err(fault);
        }
    };
    match glue_three(levels, limit, front, middle, back) {
        Ok(whole) => Ok(whole),
        Err(fault) => Err(fault),
    }
}

// An item of the part `at` over a lent child, united with what a lent level has within its span.
#[cycle(unite)]
fn over_item(
    levels: &mut Levels,
    memory: &mut Memory,
    alloc: Global,
    limit: u64,
    parts: &[bool],
    at: u32,
    span: &Span,
    child: Link,
    h: Link,
) -> Result<Owned, GraphFault>
    requires ready { IsReady (IsUnionBelow parts.now) levels.old memory.old }
    requires child { Lent levels.old [] child }
    requires h { Lent levels.old [] h }
    requires alone { ArePlaced parts.now (one_item span.now (level_of levels.old child) no_items) }
    requires level { ArePlaced parts.now (level_of levels.old h) }
    ensures ok { IfOk result (λ r. Keeps (IsUnionBelow parts.now) levels.old levels.new memory.old memory.new (r ∷ [])) }
    ensures level { IfOk result (λ r. level_of levels.new r ≡ either parts.now (one_item span.now (level_of levels.old child) no_items) (clipped span.now (level_of levels.old h))) }
    ensures over { IfErr result (λ fault. fault ≡ GraphFault.OverLimit → limit < level_size (either parts.now (one_item span.now (level_of levels.old child) no_items) (clipped span.now (level_of levels.old h)))) }
    ensures err { OnErr result (Adds levels.old levels.new memory.old memory.new []) }
{
    let Some(_) = child else {
        return match alone(levels, alloc, at, &span.lo, &span.hi, child) {
            Ok(whole) => Ok(whole),
            Err(fault) => Err(fault),
        };
    };
    let Ok(within) = clip(levels, alloc, h, span) else {
        return Err(GraphFault::NoMemory);
    };
    match fill(
        levels, memory, alloc, limit, parts, at, &span.lo, &span.hi, child, within,
    ) {
        Ok(whole) => {
            levels.free(within);
            Ok(whole)
        }
        Err(fault) => {
            levels.free(within);
            Err(fault)
        }
    }
}

// Either of a lent level and what another has before an end.
#[cycle(unite)]
fn unite_ahead(
    levels: &mut Levels,
    memory: &mut Memory,
    alloc: Global,
    limit: u64,
    parts: &[bool],
    side: Link,
    h: Link,
    edge: &End,
) -> Result<Owned, GraphFault>
    requires ready { IsReady (IsUnionBelow parts.now) levels.old memory.old }
    requires side { Lent levels.old [] side }
    requires h { Lent levels.old [] h }
    requires first { ArePlaced parts.now (level_of levels.old side) }
    requires second { ArePlaced parts.now (level_of levels.old h) }
    ensures ok { IfOk result (λ r. Keeps (IsUnionBelow parts.now) levels.old levels.new memory.old memory.new (r ∷ [])) }
    ensures level { IfOk result (λ r. level_of levels.new r ≡ either parts.now (level_of levels.old side) (before edge.now (level_of levels.old h))) }
    ensures over { IfErr result (λ fault. fault ≡ GraphFault.OverLimit → limit < level_size (either parts.now (level_of levels.old side) (before edge.now (level_of levels.old h)))) }
    ensures err { OnErr result (Adds levels.old levels.new memory.old memory.new []) }
{
    let Ok(cut) = ahead(levels, alloc, h, edge) else {
        return Err(GraphFault::NoMemory);
    };
    match unite_level(levels, memory, alloc, limit, parts, side, cut) {
        Ok(whole) => {
            levels.free(cut);
            Ok(whole)
        }
        Err(fault) => {
            levels.free(cut);
            Err(fault)
        }
    }
}

// Either of a lent level and what another has behind an end.
#[cycle(unite)]
fn unite_behind(
    levels: &mut Levels,
    memory: &mut Memory,
    alloc: Global,
    limit: u64,
    parts: &[bool],
    side: Link,
    h: Link,
    edge: &End,
) -> Result<Owned, GraphFault>
    requires ready { IsReady (IsUnionBelow parts.now) levels.old memory.old }
    requires side { Lent levels.old [] side }
    requires h { Lent levels.old [] h }
    requires first { ArePlaced parts.now (level_of levels.old side) }
    requires second { ArePlaced parts.now (level_of levels.old h) }
    ensures ok { IfOk result (λ r. Keeps (IsUnionBelow parts.now) levels.old levels.new memory.old memory.new (r ∷ [])) }
    ensures level { IfOk result (λ r. level_of levels.new r ≡ either parts.now (level_of levels.old side) (after edge.now (level_of levels.old h))) }
    ensures over { IfErr result (λ fault. fault ≡ GraphFault.OverLimit → limit < level_size (either parts.now (level_of levels.old side) (after edge.now (level_of levels.old h)))) }
    ensures err { OnErr result (Adds levels.old levels.new memory.old memory.new []) }
{
    let Ok(cut) = behind(levels, alloc, h, edge) else {
        return Err(GraphFault::NoMemory);
    };
    match unite_level(levels, memory, alloc, limit, parts, side, cut) {
        Ok(whole) => {
            levels.free(cut);
            Ok(whole)
        }
        Err(fault) => {
            levels.free(cut);
            Err(fault)
        }
    }
}

// Either of two lent levels at the topmost item of the first: what both have before it, it and what the second
// has within it, and what both have behind it.
#[cycle(unite)]
fn walk(
    levels: &mut Levels,
    memory: &mut Memory,
    alloc: Global,
    limit: u64,
    parts: &[bool],
    g: Link,
    h: Link,
) -> Result<Owned, GraphFault>
    requires ready { IsReady (IsUnionBelow parts.now) levels.old memory.old }
    requires g { Lent levels.old [] g }
    requires h { Lent levels.old [] h }
    requires first { ArePlaced parts.now (level_of levels.old g) }
    requires second { ArePlaced parts.now (level_of levels.old h) }
    ensures ok { IfOk result (λ r. Keeps (IsUnionBelow parts.now) levels.old levels.new memory.old memory.new (r ∷ [])) }
    ensures level { IfOk result (λ r. level_of levels.new r ≡ either parts.now (level_of levels.old g) (level_of levels.old h)) }
    ensures small { IfOk result (λ r. level_size (level_of levels.new r) ≤ limit) }
    ensures over { IfErr result (λ fault. fault ≡ GraphFault.OverLimit → limit < level_size (either parts.now (level_of levels.old g) (level_of levels.old h))) }
    ensures err { OnErr result (Adds levels.old levels.new memory.old memory.new []) }
{
    let Some(seen) = levels.look(g) else {
        return match hold_within(levels, limit, h) {
            Ok(whole) => Ok(whole),
            Err(fault) => Err(fault),
        };
    };
    let at = seen.part;
    let child = seen.child;
    let left = seen.left;
    let right = seen.right;
    let Ok(span) = seen.span.copy(alloc) else {
        return Err(GraphFault::NoMemory);
    };
    let middle = match over_item(levels, memory, alloc, limit, parts, at, &span, child, h) {
        Ok(middle) => middle,
        Err(fault) => return Err(fault),
    };
    let front = match unite_ahead(levels, memory, alloc, limit, parts, left, h, &span.lo) {
        Ok(front) => front,
        Err(fault) => {
            levels.free(middle);
            return Err(fault);
        }
    };
    let back = match unite_behind(levels, memory, alloc, limit, parts, right, h, &span.hi) {
        Ok(back) => back,
        Err(fault) => {
            levels.free(front);
            levels.free(middle);
            return Err(fault);
        }
    };
    match glue_three(levels, limit, front, middle, back) {
        Ok(whole) => Ok(whole),
        Err(fault) => Err(fault),
    }
}

// Either of two lent levels: of a level and itself the same level; of two short ones without children a new one; else
// at the topmost item of the one that has fewer items. The memory tells what was made of pairs of their children.
#[cycle(unite)]
fn unite_level(
    levels: &mut Levels,
    memory: &mut Memory,
    alloc: Global,
    limit: u64,
    parts: &[bool],
    g: Link,
    h: Link,
) -> Result<Owned, GraphFault>
    requires ready { IsReady (IsUnionBelow parts.now) levels.old memory.old }
    requires g { Lent levels.old [] g }
    requires h { Lent levels.old [] h }
    requires first { ArePlaced parts.now (level_of levels.old g) }
    requires second { ArePlaced parts.now (level_of levels.old h) }
    ensures ok { IfOk result (λ r. Keeps (IsUnionBelow parts.now) levels.old levels.new memory.old memory.new (r ∷ [])) }
    ensures level { IfOk result (λ r. level_of levels.new r ≡ either parts.now (level_of levels.old g) (level_of levels.old h)) }
    ensures small { IfOk result (λ r. level_size (level_of levels.new r) ≤ limit) }
    ensures over { IfErr result (λ fault. fault ≡ GraphFault.OverLimit → limit < level_size (either parts.now (level_of levels.old g) (level_of levels.old h))) }
    ensures err { OnErr result (Adds levels.old levels.new memory.old memory.new []) }
{
    if is_same_link(g, h) {
        return match hold_within(levels, limit, g) {
            Ok(whole) => Ok(whole),
            Err(fault) => Err(fault),
        };
    }
    if are_points(levels, g, h) {
        return match unite_points(levels, alloc, limit, parts, g, h) {
            Ok(whole) => Ok(whole),
            Err(fault) => Err(fault),
        };
    }
    if levels.count(h) < levels.count(g) {
        return match walk(levels, memory, alloc, limit, parts, h, g) {
            Ok(whole) => Ok(whole),
            Err(fault) => Err(fault),
        };
    }
    match walk(levels, memory, alloc, limit, parts, g, h) {
        Ok(whole) => Ok(whole),
        Err(fault) => Err(fault),
    }
}

/// Either of two lent levels, of which what goes on below each pair of their children is made once. The list says of the
/// parts from that of the levels on whether each may be NULL. OverLimit comes where it has more items than the limit,
/// counted at each place.
#[cycle(unite)]
pub fn unite(
    levels: &mut Levels,
    alloc: Global,
    limit: u64,
    parts: &[bool],
    g: Link,
    h: Link,
) -> Result<Owned, GraphFault>
    requires sound { IsSound levels.old [] }
    requires g { Lent levels.old [] g }
    requires h { Lent levels.old [] h }
    requires first { ArePlaced parts.now (level_of levels.old g) }
    requires second { ArePlaced parts.now (level_of levels.old h) }
    ensures ok { IfOk result (λ r. Step levels.old levels.new [] (r ∷ [])) }
    ensures level { IfOk result (λ r. level_of levels.new r ≡ either parts.now (level_of levels.old g) (level_of levels.old h)) }
    ensures small { IfOk result (λ r. level_size (level_of levels.new r) ≤ limit) }
    ensures over { IfErr result (λ fault. fault ≡ GraphFault.OverLimit → limit < level_size (either parts.now (level_of levels.old g) (level_of levels.old h))) }
    ensures err { OnErr result (Step levels.old levels.new [] []) }
{
    let mut memory = Memory::new(alloc);
    match unite_level(levels, &mut memory, alloc, limit, parts, g, h) {
        Ok(whole) => {
            forget(levels, memory);
            Ok(whole)
        }
        Err(fault) => {
            forget(levels, memory);
            Err(fault)
        }
    }
}
