//! Lent levels cut at ends: what lies on either side of an end, or within a span.

ghost use Rattle.std.specs.Prelude.{◌≡◌, ◌⊎◌, ◌<◌, ◌≤◌, ◌+◌, ◌*◌, ◌^◌, ℕ, cond, true, false, List, [], ◌∷◌, Option, Some, None, IfSome, IfNone, IfOk, OnOk, OnErr};
ghost use Rattle.slab.specs.Slab.{slab_len};
ghost use Rattle.rx_value.specs.Order.{is_at_most};
ghost use Rattle.rx_tree.specs.Join.{length_of};
ghost use Rattle.rx_level.specs.Store.{IsSound};
ghost use Rattle.rx_level.specs.Step.{Step, Lent, level_of, tall_of};
ghost use Rattle.rx_value.specs.Spans.{IsSpan};
ghost use Rattle.rx_tree.specs.Tree.Level.{item as one_item, end};
ghost use Rattle.rx_tree.specs.Bare.{is_bare};
ghost use Rattle.rx_tree.specs.Cuts.{AreInOrder, before, after};
ghost use Rattle.rx_cut.specs.Clip.{clipped, IsAlone};

use rx_level::{Item, Levels, Link, Owned, Seen, join};
use rx_value::{End, Span, is_at_most};
use std::alloc::{AllocError, Global};

// The part of a span from an end on, where the end is below its upper one.
fn from_end(alloc: Global, edge: &End, span: &Span) -> Result<Span, AllocError>
    ensures { IfOk result (λ s. s ≡ cond (is_at_most edge.now span.now.lo) span.now (record { lo = edge.now; hi = span.now.hi })) }
{
    if is_at_most(edge, &span.lo) {
        return span.copy(alloc);
    }
    let lo = edge.copy(alloc)?;
    let hi = span.hi.copy(alloc)?;
    Ok(Span { lo, hi })
}

// The part of a span before an end, where the end is above its lower one.
fn till_end(alloc: Global, edge: &End, span: &Span) -> Result<Span, AllocError>
    ensures { IfOk result (λ s. s ≡ cond (is_at_most span.now.hi edge.now) span.now (record { lo = span.now.lo; hi = edge.now })) }
{
    if is_at_most(&span.hi, edge) {
        return span.copy(alloc);
    }
    let lo = span.lo.copy(alloc)?;
    let hi = edge.copy(alloc)?;
    Ok(Span { lo, hi })
}

/// A handle of each of two lent levels. The error is want of memory.
pub fn hold_both(levels: &mut Levels, one: Link, other: Link) -> Result<(), AllocError>
    requires sound { IsSound levels.old [] }
    requires one { Lent levels.old [] one }
    requires other { Lent levels.old [] other }
    ensures ok { OnOk result (Step levels.old levels.new [] (one ∷ other ∷ [])) }
    ensures live { slab_len levels.new ≤ slab_len levels.old }
    ensures err { OnErr result (Step levels.old levels.new [] []) }
{
    let Ok(()) = levels.hold(one) else {
        return Err(AllocError);
    };
    let Ok(()) = levels.hold(other) else {
        levels.free(one);
        return Err(AllocError);
    };
    Ok(())
}

/// What a lent level has behind an end, as a level of its own that shares all that isn't cut. The error is
/// want of memory.
pub fn behind(
    levels: &mut Levels,
    alloc: Global,
    root: Link,
    edge: &End,
) -> Result<Owned, AllocError>
    requires sound { IsSound levels.old [] }
    requires root { Lent levels.old [] root }
    requires order { AreInOrder (level_of levels.old root) }
    ensures ok { IfOk result (λ r. Step levels.old levels.new [] (r ∷ [])) }
    ensures level { IfOk result (λ r. level_of levels.new r ≡ after edge.now (level_of levels.old root)) }
    ensures height { IfOk result (λ r. tall_of levels.new r ≤ tall_of levels.old root) }
    ensures made { IfOk result (λ r. slab_len levels.new ≤ slab_len levels.old + 3 * tall_of levels.new r + tall_of levels.old root) }
    ensures err { OnErr result (Step levels.old levels.new [] []) }
{
    let Some(seen) = levels.look(root) else {
        return Ok(None);
    };
    let part = seen.part;
    let child = seen.child;
    let left = seen.left;
    let right = seen.right;
    if is_at_most(&seen.span.hi, edge) {
        let rest = behind(levels, alloc, right, edge)?;
        return Ok(rest);
    }
    let span = from_end(alloc, edge, seen.span)?;
    let front = behind(levels, alloc, left, edge)?;
    let Ok(()) = hold_both(levels, child, right) else {
        levels.free(front);
        return Err(AllocError);
    };
    let item = Item { part, span, child };
    let whole = join(levels, front, item, right)?;
    Ok(whole)
}

/// What a lent level has before an end, as a level of its own that shares all that isn't cut. The error is
/// want of memory.
pub fn ahead(
    levels: &mut Levels,
    alloc: Global,
    root: Link,
    edge: &End,
) -> Result<Owned, AllocError>
    requires sound { IsSound levels.old [] }
    requires root { Lent levels.old [] root }
    requires order { AreInOrder (level_of levels.old root) }
    ensures ok { IfOk result (λ r. Step levels.old levels.new [] (r ∷ [])) }
    ensures level { IfOk result (λ r. level_of levels.new r ≡ before edge.now (level_of levels.old root)) }
    ensures height { IfOk result (λ r. tall_of levels.new r ≤ tall_of levels.old root) }
    ensures made { IfOk result (λ r. slab_len levels.new ≤ slab_len levels.old + 3 * tall_of levels.new r + tall_of levels.old root) }
    ensures err { OnErr result (Step levels.old levels.new [] []) }
{
    let Some(seen) = levels.look(root) else {
        return Ok(None);
    };
    let part = seen.part;
    let child = seen.child;
    let left = seen.left;
    let right = seen.right;
    if is_at_most(edge, &seen.span.lo) {
        let rest = ahead(levels, alloc, left, edge)?;
        return Ok(rest);
    }
    let span = till_end(alloc, edge, seen.span)?;
    let back = ahead(levels, alloc, right, edge)?;
    let Ok(()) = hold_both(levels, child, left) else {
        levels.free(back);
        return Err(AllocError);
    };
    let item = Item { part, span, child };
    let whole = join(levels, left, item, back)?;
    Ok(whole)
}

// What a lent level has within a span, cut at both ends, with the number of new items by the height of the level.
fn cut_twice(
    levels: &mut Levels,
    alloc: Global,
    root: Link,
    span: &Span,
) -> Result<Owned, AllocError>
    requires sound { IsSound levels.old [] }
    requires root { Lent levels.old [] root }
    requires order { AreInOrder (level_of levels.old root) }
    ensures ok { IfOk result (λ r. Step levels.old levels.new [] (r ∷ [])) }
    ensures level { IfOk result (λ r. level_of levels.new r ≡ clipped span.now (level_of levels.old root)) }
    ensures live { OnOk result (slab_len levels.new ≤ slab_len levels.old + 8 * tall_of levels.old root) }
    ensures err { OnErr result (Step levels.old levels.new [] []) }
{
    let front = ahead(levels, alloc, root, &span.hi)?;
    match behind(levels, alloc, front, &span.lo) {
        Ok(whole) => {
            levels.free(front);
            Ok(whole)
        }
        Err(error) => {
            levels.free(front);
            Err(error)
        }
    }
}

// Whether a level beside an item has no items, or a span is within the item on that side.
fn is_free(levels: &Levels, side: Link, within: bool) -> bool
    ensures yes { result ≡ true → (level_of levels.now side ≡ end) ⊎ (within ≡ true) }
    ensures no { result ≡ false → 0 < length_of (level_of levels.now side) }
{
    if levels.count(side) == 0 {
        return true;
    }
    within
}

// Whether a span reaches no other item of a level than its topmost one, as far as that tells.
fn is_alone(levels: &Levels, seen: &Seen<'_>, span: &Span) -> bool
    ensures yes { result ≡ true → IsAlone (level_of levels.now seen.now.left) (level_of levels.now seen.now.right) seen.now.span.now span.now }
    ensures no { result ≡ false → 0 < length_of (level_of levels.now seen.now.left) + length_of (level_of levels.now seen.now.right) }
{
    if !is_free(levels, seen.left, is_at_most(&seen.span.lo, &span.lo)) {
        return false;
    }
    is_free(levels, seen.right, is_at_most(&span.hi, &seen.span.hi))
}

// A level of one item over a lent level.
fn alone(levels: &mut Levels, part: u32, span: Span, child: Link) -> Result<Owned, AllocError>
    requires sound { IsSound levels.old [] }
    requires child { Lent levels.old [] child }
    ensures ok { IfOk result (λ r. Step levels.old levels.new [] (r ∷ [])) }
    ensures level { IfOk result (λ r. level_of levels.new r ≡ one_item span (level_of levels.old child) end) }
    ensures live { OnOk result (slab_len levels.new ≤ slab_len levels.old + 1) }
    ensures err { OnErr result (Step levels.old levels.new [] []) }
{
    levels.hold(child)?;
    let item = Item { part, span, child };
    let whole = levels.branch(item, None, None)?;
    Ok(whole)
}

// The same as `clip`, with the number of new items by the height of the level.
fn clip_from_top(
    levels: &mut Levels,
    alloc: Global,
    root: Link,
    span: &Span,
) -> Result<Owned, AllocError>
    requires sound { IsSound levels.old [] }
    requires root { Lent levels.old [] root }
    requires order { AreInOrder (level_of levels.old root) }
    requires span { IsSpan span.now }
    ensures ok { IfOk result (λ r. Step levels.old levels.new [] (r ∷ [])) }
    ensures level { IfOk result (λ r. level_of levels.new r ≡ clipped span.now (level_of levels.old root)) }
    ensures live { OnOk result (slab_len levels.new ≤ slab_len levels.old + 8 * tall_of levels.old root) }
    ensures one { OnOk result (length_of (level_of levels.old root) ≤ 1 → slab_len levels.new ≤ slab_len levels.old + 1) }
    ensures err { OnErr result (Step levels.old levels.new [] []) }
{
    let Some(seen) = levels.look(root) else {
        return Ok(None);
    };
    let part = seen.part;
    let child = seen.child;
    let left = seen.left;
    let right = seen.right;
    if is_at_most(&seen.span.hi, &span.lo) {
        let whole = clip_from_top(levels, alloc, right, span)?;
        return Ok(whole);
    }
    if is_at_most(&span.hi, &seen.span.lo) {
        let whole = clip_from_top(levels, alloc, left, span)?;
        return Ok(whole);
    }
    if is_alone(levels, &seen, span) {
        let front = till_end(alloc, &span.hi, seen.span)?;
        let both = from_end(alloc, &span.lo, &front)?;
        let whole = alone(levels, part, both, child)?;
        return Ok(whole);
    }
    let whole = cut_twice(levels, alloc, root, span)?;
    Ok(whole)
}

/// The items of a lent level within a span, and of those that it cuts the parts within, as a level of its
/// own that shares all that isn't cut: of a level of n items at most 16 items for each bit of n are new,
/// and of one item at most one. The error is want of memory.
pub fn clip(
    levels: &mut Levels,
    alloc: Global,
    root: Link,
    span: &Span,
) -> Result<Owned, AllocError>
    requires root { Lent levels.old [] root }
    requires order { AreInOrder (level_of levels.old root) }
    requires span { IsSpan span.now }
    ensures ok { IfOk result (λ r. Step levels.old levels.new [] (r ∷ [])) }
    ensures level { IfOk result (λ r. level_of levels.new r ≡ clipped span.now (level_of levels.old root)) }
    ensures by_bits { OnOk result ((bits : ℕ) → length_of (level_of levels.old root) < 2 ^ bits → slab_len levels.new ≤ slab_len levels.old + 16 * bits) }
    ensures one { OnOk result (length_of (level_of levels.old root) ≤ 1 → slab_len levels.new ≤ slab_len levels.old + 1) }
    ensures err { OnErr result (Step levels.old levels.new [] []) }
{
    levels.sound();
    match clip_from_top(levels, alloc, root, span) {
        Ok(whole) => Ok(whole),
        Err(error) => Err(error),
    }
}

/// The span of a lent level that is one item without a child, none for every other level.
pub fn bare_span(levels: &Levels, root: Link) -> Option<&Span>
    requires { Lent levels.now [] root }
    ensures some { IfSome result (λ span. level_of levels.now root ≡ one_item span.now end end) }
    ensures none { IfNone result (is_bare (level_of levels.now root) ≡ false) }
{
    let Some(top) = levels.look(root) else {
        return None;
    };
    if levels.count(top.left) != 0 || levels.count(top.right) != 0 || levels.count(top.child) != 0 {
        return None;
    }
    Some(top.span)
}
