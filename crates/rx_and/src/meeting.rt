//! What two levels have in common: the items of the one with fewer items are met with those of the other, and each
//! pair of levels once.

ghost use Rattle.std.specs.Prelude.{◌≡◌, ◌<◌, ◌≤◌, ◌+◌, ℕ, cond, List, [], ◌∷◌, Option, Some, None, IfOk, IfErr, OnErr};
ghost use Rattle.rx_value.specs.Order.{is_at_most};
ghost use Rattle.rx_tree.specs.Tree.{Level, level_size};
ghost use Rattle.rx_tree.specs.Tree.Level.{end, item as one_item};
ghost use Rattle.rx_tree.specs.Meet.{piece_of, put_piece, meet_child, across as across_level, both as both_level};
ghost use Rattle.rx_level.specs.Store.{IsSound};
ghost use Rattle.rx_level.specs.Step.{Owns, Step, Lent, level_of};
ghost use Rattle.rx_value.specs.Spans.{IsSpan, meet_span};
ghost use Rattle.rx_pairs.specs.Pairs.{Adds, IsReady, Lacks};
ghost use Rattle.rx_and.specs.Fellows.{AreFellows, MayHangBelow};
ghost use Rattle.rx_and.specs.MetPairs.{IsMet, Meets, sizes_of};

use crate::narrowing::{items_before, items_behind};
use rx_cut::clip;
use rx_graph::GraphFault;
use rx_level::{Item, Levels, Link, Owned};
use rx_limit::{glue_three, hold_within, is_same_link};
use rx_pairs::{Memory, remember};
use rx_value::{Span, compare_ends, meet};
use std::alloc::{AllocError, Global};
use std::cmp::Ordering;

// A copy of the common part of two spans.
fn common_span(alloc: Global, s: &Span, t: &Span) -> Result<Option<Span>, AllocError>
    ensures { IfOk result (λ part. part ≡ meet_span s.now t.now) }
{
    let Some((lo, hi)) = meet(s, t) else {
        return Ok(None);
    };
    let lo = lo.copy(alloc)?;
    let hi = hi.copy(alloc)?;
    Ok(Some(Span { lo, hi }))
}

// The items to the left of one, unless a span begins where that one does or later: then it has nothing in
// common with them.
fn reached_left(span: &Span, item: &Span, left: Link) -> Link
    ensures { result ≡ cond (is_at_most item.now.lo span.now.lo) None left }
{
    match compare_ends(&item.lo, &span.lo) {
        Ordering::Greater => left,
        _ => None,
    }
}

// The items to the right of one, unless a span ends where that one does or before: then it has nothing in
// common with them.
fn reached_right(span: &Span, item: &Span, right: Link) -> Link
    ensures { result ≡ cond (is_at_most span.now.hi item.now.hi) None right }
{
    match compare_ends(&span.hi, &item.hi) {
        Ordering::Greater => right,
        _ => None,
    }
}

// A level of one item, which is of this part, over a lent level.
fn alone(levels: &mut Levels, at: u32, span: Span, child: Link) -> Result<Owned, AllocError>
    requires sound { IsSound levels.old [] }
    requires child { Lent levels.old [] child }
    ensures ok { IfOk result (λ r. Step levels.old levels.new [] (r ∷ [])) }
    ensures level { IfOk result (λ r. level_of levels.new r ≡ one_item span (level_of levels.old child) end) }
    ensures err { OnErr result (Step levels.old levels.new [] []) }
{
    levels.hold(child)?;
    let item = Item {
        part: at,
        span,
        child,
    };
    let whole = levels.branch(item, None, None)?;
    Ok(whole)
}

// What the levels of two links that aren't one have in common, met at once or before. The error is want of memory.
#[cycle(meet)]
fn meet_once(
    levels: &mut Levels,
    memory: &mut Memory,
    alloc: Global,
    limit: u64,
    c: usize,
    d: usize,
) -> Result<Owned, GraphFault>
    requires ready { IsReady IsMet levels.old memory.old }
    requires c { Lent levels.old [] (Some c) }
    requires d { Lent levels.old [] (Some d) }
    requires fellows { AreFellows (level_of levels.old (Some c)) (level_of levels.old (Some d)) }
    ensures ok { IfOk result (λ r. Meets (sizes_of levels.old (Some c) (Some d) + 1) levels.old levels.new memory.old memory.new (r ∷ [])) }
    ensures level { IfOk result (λ r. level_of levels.new r ≡ both_level (level_of levels.old (Some c)) (level_of levels.old (Some d))) }
    ensures over { IfErr result (λ fault. fault ≡ GraphFault.OverLimit → limit < level_size (both_level (level_of levels.old (Some c)) (level_of levels.old (Some d)))) }
    ensures err { OnErr result (Adds levels.old levels.new memory.old memory.new []) }
{
    let Some(known) = memory.find(c, d) else {
        let whole = match both(levels, memory, alloc, limit, Some(c), Some(d)) {
            Ok(whole) => whole,
            Err(fault) => return Err(fault),
        };
        let Ok(()) = remember(levels, memory, c, d, whole) else {
            levels.free(whole);
            return Err(GraphFault::NoMemory);
        };
        return Ok(whole);
    };
    let Ok(()) = levels.hold(known) else {
        return Err(GraphFault::NoMemory);
    };
    Ok(known)
}

// What the levels of two links have in common: of one link the level itself. A pair is remembered with the lower
// link first.
#[cycle(meet)]
fn meet_pair(
    levels: &mut Levels,
    memory: &mut Memory,
    alloc: Global,
    limit: u64,
    c: usize,
    d: usize,
) -> Result<Owned, GraphFault>
    requires ready { IsReady IsMet levels.old memory.old }
    requires c { Lent levels.old [] (Some c) }
    requires d { Lent levels.old [] (Some d) }
    requires fellows { AreFellows (level_of levels.old (Some c)) (level_of levels.old (Some d)) }
    ensures ok { IfOk result (λ r. Meets (sizes_of levels.old (Some c) (Some d) + 1) levels.old levels.new memory.old memory.new (r ∷ [])) }
    ensures level { IfOk result (λ r. level_of levels.new r ≡ both_level (level_of levels.old (Some c)) (level_of levels.old (Some d))) }
    ensures over { IfErr result (λ fault. fault ≡ GraphFault.OverLimit → limit < level_size (both_level (level_of levels.old (Some c)) (level_of levels.old (Some d)))) }
    ensures err { OnErr result (Adds levels.old levels.new memory.old memory.new []) }
{
    if c < d {
        return match meet_once(levels, memory, alloc, limit, c, d) {
            Ok(whole) => Ok(whole),
            Err(fault) => Err(fault),
        };
    }
    if d < c {
        return match meet_once(levels, memory, alloc, limit, d, c) {
            Ok(whole) => Ok(whole),
            Err(fault) => Err(fault),
        };
    }
    match hold_within(levels, limit, Some(c)) {
        Ok(whole) => Ok(whole),
        Err(fault) => Err(fault),
    }
}

// What an item of the common part of two items' spans, where there is one, leads to: nothing where the
// children have nothing in common. The first item has a child; the two are of the part `at`.
#[cycle(meet)]
fn piece(
    levels: &mut Levels,
    memory: &mut Memory,
    alloc: Global,
    limit: u64,
    at: u32,
    part: Option<Span>,
    c: usize,
    d: Link,
) -> Result<Owned, GraphFault>
    requires ready { IsReady IsMet levels.old memory.old }
    requires c { Lent levels.old [] (Some c) }
    requires d { Lent levels.old [] d }
    requires fellows { AreFellows (level_of levels.old (Some c)) (level_of levels.old d) }
    ensures ok { IfOk result (λ r. Meets (sizes_of levels.old (Some c) d + 1) levels.old levels.new memory.old memory.new (r ∷ [])) }
    ensures level { IfOk result (λ r. level_of levels.new r ≡ put_piece (piece_of part (meet_child (both_level (level_of levels.old (Some c))) (level_of levels.old (Some c)) (level_of levels.old d))) end) }
    ensures over { IfErr result (λ fault. fault ≡ GraphFault.OverLimit → limit < level_size (put_piece (piece_of part (meet_child (both_level (level_of levels.old (Some c))) (level_of levels.old (Some c)) (level_of levels.old d))) end)) }
    ensures err { OnErr result (Adds levels.old levels.new memory.old memory.new []) }
{
    let Some(span) = part else {
        return Ok(None);
    };
    let Some(d) = d else {
        let Ok(whole) = alone(levels, at, span, Some(c)) else {
            return Err(GraphFault::NoMemory);
        };
        return Ok(whole);
    };
    let child = match meet_pair(levels, memory, alloc, limit, c, d) {
        Ok(child) => child,
        Err(fault) => return Err(fault),
    };
    let Some(_) = child else {
        return Ok(None);
    };
    let item = Item {
        part: at,
        span,
        child,
    };
    let Ok(whole) = levels.branch(item, None, None) else {
        return Err(GraphFault::NoMemory);
    };
    Ok(whole)
}

// What an item with this child and a lent level have in common. It reads those items of the level that its span overlaps,
// and those on the way to them in the level's tree.
#[cycle(meet)]
fn across(
    levels: &mut Levels,
    memory: &mut Memory,
    alloc: Global,
    limit: u64,
    span: &Span,
    c: usize,
    h: Link,
) -> Result<Owned, GraphFault>
    requires ready { IsReady IsMet levels.old memory.old }
    requires c { Lent levels.old [] (Some c) }
    requires h { Lent levels.old [] h }
    requires fits { MayHangBelow (level_of levels.old (Some c)) (level_of levels.old h) }
    ensures ok { IfOk result (λ r. Meets (sizes_of levels.old (Some c) h) levels.old levels.new memory.old memory.new (r ∷ [])) }
    ensures level { IfOk result (λ r. level_of levels.new r ≡ across_level (both_level (level_of levels.old (Some c))) (level_of levels.old (Some c)) span.now (level_of levels.old h)) }
    ensures small { IfOk result (λ r. level_size (level_of levels.new r) ≤ limit) }
    ensures over { IfErr result (λ fault. fault ≡ GraphFault.OverLimit → limit < level_size (across_level (both_level (level_of levels.old (Some c))) (level_of levels.old (Some c)) span.now (level_of levels.old h))) }
    ensures err { OnErr result (Adds levels.old levels.new memory.old memory.new []) }
{
    let Some(seen) = levels.look(h) else {
        return Ok(None);
    };
    let at = seen.part;
    let child = seen.child;
    let left = reached_left(span, seen.span, seen.left);
    let right = reached_right(span, seen.span, seen.right);
    let Ok(part) = common_span(alloc, span, seen.span) else {
        return Err(GraphFault::NoMemory);
    };
    let middle = match piece(levels, memory, alloc, limit, at, part, c, child) {
        Ok(middle) => middle,
        Err(fault) => return Err(fault),
    };
    let front = match across(levels, memory, alloc, limit, span, c, left) {
        Ok(front) => front,
        Err(fault) => {
            levels.free(middle);
            return Err(fault);
        }
    };
    let back = match across(levels, memory, alloc, limit, span, c, right) {
        Ok(back) => back,
        Err(fault) => {
            levels.free(front);
            levels.free(middle);
            return Err(fault);
        }
    };
    match glue_three(levels, limit, front, middle, back) {
        Ok(whole) => Ok(whole),
        Err(fault) => Err(fault),
    }
}

// What an item with this child, if it has one, and a lent level have in common: of an item without a child what the
// level has within its span, which shares all that the span doesn't cut.
#[cycle(meet)]
fn meet_item(
    levels: &mut Levels,
    memory: &mut Memory,
    alloc: Global,
    limit: u64,
    span: &Span,
    child: Link,
    h: Link,
) -> Result<Owned, GraphFault>
    requires ready { IsReady IsMet levels.old memory.old }
    requires child { Lent levels.old [] child }
    requires h { Lent levels.old [] h }
    requires span { IsSpan span.now }
    requires fits { MayHangBelow (level_of levels.old child) (level_of levels.old h) }
    ensures ok { IfOk result (λ r. Meets (sizes_of levels.old child h) levels.old levels.new memory.old memory.new (r ∷ [])) }
    ensures level { IfOk result (λ r. level_of levels.new r ≡ across_level (both_level (level_of levels.old child)) (level_of levels.old child) span.now (level_of levels.old h)) }
    ensures over { IfErr result (λ fault. fault ≡ GraphFault.OverLimit → limit < level_size (across_level (both_level (level_of levels.old child)) (level_of levels.old child) span.now (level_of levels.old h))) }
    ensures err { OnErr result (Adds levels.old levels.new memory.old memory.new []) }
{
    let Some(c) = child else {
        let Ok(whole) = clip(levels, alloc, h, span) else {
            return Err(GraphFault::NoMemory);
        };
        return Ok(whole);
    };
    match across(levels, memory, alloc, limit, span, c, h) {
        Ok(whole) => Ok(whole),
        Err(fault) => Err(fault),
    }
}

// What two lent levels have in common: the topmost item of the first is met with the second, and the items on either
// side of it with those of the second that they can reach.
#[cycle(meet)]
fn walk(
    levels: &mut Levels,
    memory: &mut Memory,
    alloc: Global,
    limit: u64,
    g: Link,
    h: Link,
) -> Result<Owned, GraphFault>
    requires ready { IsReady IsMet levels.old memory.old }
    requires g { Lent levels.old [] g }
    requires h { Lent levels.old [] h }
    requires fellows { AreFellows (level_of levels.old g) (level_of levels.old h) }
    ensures ok { IfOk result (λ r. Meets (sizes_of levels.old g h) levels.old levels.new memory.old memory.new (r ∷ [])) }
    ensures level { IfOk result (λ r. level_of levels.new r ≡ both_level (level_of levels.old g) (level_of levels.old h)) }
    ensures small { IfOk result (λ r. level_size (level_of levels.new r) ≤ limit) }
    ensures over { IfErr result (λ fault. fault ≡ GraphFault.OverLimit → limit < level_size (both_level (level_of levels.old g) (level_of levels.old h))) }
    ensures err { OnErr result (Adds levels.old levels.new memory.old memory.new []) }
{
    let Some(seen) = levels.look(g) else {
        return Ok(None);
    };
    let child = seen.child;
    let left = seen.left;
    let right = seen.right;
    let Ok(span) = seen.span.copy(alloc) else {
        return Err(GraphFault::NoMemory);
    };
    let before = items_before(levels, h, &span.lo);
    let behind = items_behind(levels, h, &span.hi);
    let middle = match meet_item(levels, memory, alloc, limit, &span, child, h) {
        Ok(middle) => middle,
        Err(fault) => return Err(fault),
    };
    let front = match both(levels, memory, alloc, limit, left, before) {
        Ok(front) => front,
        Err(fault) => {
            levels.free(middle);
            return Err(fault);
        }
    };
    let back = match both(levels, memory, alloc, limit, right, behind) {
        Ok(back) => back,
        Err(fault) => {
            levels.free(front);
            levels.free(middle);
            return Err(fault);
        }
    };
    match glue_three(levels, limit, front, middle, back) {
        Ok(whole) => Ok(whole),
        Err(fault) => Err(fault),
    }
}

/// What two lent levels over the same parts have in common: a level and itself the same level, else item by item of
/// the one that has fewer items. The memory
/// tells of pairs of levels that were met before, and is told of those that are met now. OverLimit comes where the
/// answer has more items than the limit, counted at each place.
#[cycle(meet)]
pub fn both(
    levels: &mut Levels,
    memory: &mut Memory,
    alloc: Global,
    limit: u64,
    g: Link,
    h: Link,
) -> Result<Owned, GraphFault>
    requires ready { IsReady IsMet levels.old memory.old }
    requires g { Lent levels.old [] g }
    requires h { Lent levels.old [] h }
    requires fellows { AreFellows (level_of levels.old g) (level_of levels.old h) }
    ensures ok { IfOk result (λ r. Meets (sizes_of levels.old g h) levels.old levels.new memory.old memory.new (r ∷ [])) }
    ensures level { IfOk result (λ r. level_of levels.new r ≡ both_level (level_of levels.old g) (level_of levels.old h)) }
    ensures small { IfOk result (λ r. level_size (level_of levels.new r) ≤ limit) }
    ensures over { IfErr result (λ fault. fault ≡ GraphFault.OverLimit → limit < level_size (both_level (level_of levels.old g) (level_of levels.old h))) }
    ensures err { OnErr result (Adds levels.old levels.new memory.old memory.new []) }
{
    if is_same_link(g, h) {
        return match hold_within(levels, limit, g) {
            Ok(whole) => Ok(whole),
            Err(fault) => Err(fault),
        };
    }
    if levels.count(h) < levels.count(g) {
        return match walk(levels, memory, alloc, limit, h, g) {
            Ok(whole) => Ok(whole),
            Err(fault) => Err(fault),
        };
    }
    match walk(levels, memory, alloc, limit, g, h) {
        Ok(whole) => Ok(whole),
        Err(fault) => Err(fault),
    }
}
