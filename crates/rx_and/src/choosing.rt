//! What two levels have in common, by hanging where that does.

ghost use Rattle.std.specs.Prelude.{◌≡◌, ◌<◌, ◌≤◌, ◌+◌, ◌*◌, ◌^◌, ℕ, true, false, List, [], ◌∷◌, Option, Some, None, IfOk, IfErr, OnOk, OnErr};
ghost use Rattle.slab.specs.Slab.{slab_len};
ghost use Rattle.rx_value.specs.Spans.{IsSpan};
ghost use Rattle.rx_tree.specs.Tree.{Level, level_size};
ghost use Rattle.rx_tree.specs.Join.{length_of};
ghost use Rattle.rx_tree.specs.Canonical.{IsCanonicalLevel};
ghost use Rattle.rx_tree.specs.Meet.{both as both_level};
ghost use Rattle.rx_level.specs.Store.{IsSound};
ghost use Rattle.rx_level.specs.Step.{Owns, Step, Lent, level_of};
ghost use Rattle.rx_level.specs.Under.{IsNumberUnder};
ghost use Rattle.rx_tree.specs.Bare.{is_bare};
ghost use Rattle.rx_tree.specs.Cuts.{AreInOrder};
ghost use Rattle.rx_cut.specs.Clip.{clipped};
ghost use Rattle.rx_and.specs.Fellows.{AreFellows};
ghost use Rattle.rx_and.specs.Few.{IsFewMade, IsFewReached, IsFewCut};

use crate::hanging::hang_below;
use crate::meeting::both;
use rx_cut::{bare_span, clip};
use rx_graph::GraphFault;
use rx_level::{Levels, Link, Owned};
use rx_limit::within;
use rx_pairs::{Memory, forget};
use rx_value::Span;
use std::alloc::Global;

// What a lent level has within a span, unless it has more items than the limit.
fn clip_within(
    alloc: Global,
    levels: &mut Levels,
    root: Link,
    span: &Span,
    limit: u64,
) -> Result<Owned, GraphFault>
    requires root { Lent levels.old [] root }
    requires order { AreInOrder (level_of levels.old root) }
    requires span { IsSpan span.now }
    ensures ok { IfOk result (λ r. Step levels.old levels.new [] (r ∷ [])) }
    ensures level { IfOk result (λ r. level_of levels.new r ≡ clipped span.now (level_of levels.old root)) }
    ensures small { IfOk result (λ r. level_size (level_of levels.new r) ≤ limit) }
    ensures over { IfErr result (λ fault. fault ≡ GraphFault.OverLimit → limit < level_size (clipped span.now (level_of levels.old root))) }
    ensures by_bits { OnOk result ((bits : ℕ) → length_of (level_of levels.old root) < 2 ^ bits → slab_len levels.new ≤ slab_len levels.old + 16 * bits) }
    ensures err { OnErr result (Step levels.old levels.new [] []) }
{
    let Ok(whole) = clip(levels, alloc, root, span) else {
        return Err(GraphFault::NoMemory);
    };
    match within(levels, limit, whole) {
        Ok(kept) => Ok(kept),
        Err(fault) => Err(fault),
    }
}

// What two lent levels have in common, item by item of the one that has fewer items, each pair of levels below met once.
fn meet_all(
    alloc: Global,
    levels: &mut Levels,
    g: usize,
    h: usize,
    limit: u64,
) -> Result<Owned, GraphFault>
    requires sound { IsSound levels.old [] }
    requires g { Lent levels.old [] (Some g) }
    requires h { Lent levels.old [] (Some h) }
    requires fellows { AreFellows (level_of levels.old (Some g)) (level_of levels.old (Some h)) }
    ensures ok { IfOk result (λ r. Step levels.old levels.new [] (r ∷ [])) }
    ensures level { IfOk result (λ r. level_of levels.new r ≡ both_level (level_of levels.old (Some g)) (level_of levels.old (Some h))) }
    ensures small { IfOk result (λ r. level_size (level_of levels.new r) ≤ limit) }
    ensures over { IfErr result (λ fault. fault ≡ GraphFault.OverLimit → limit < level_size (both_level (level_of levels.old (Some g)) (level_of levels.old (Some h)))) }
    ensures err { OnErr result (Step levels.old levels.new [] []) }
{
    let mut memory = Memory::new(alloc);
    match both(levels, &mut memory, alloc, limit, Some(g), Some(h)) {
        Ok(whole) => {
            forget(levels, memory);
            Ok(whole)
        }
        Err(fault) => {
            forget(levels, memory);
            Err(fault)
        }
    }
}

// What two lent levels have in common, of which the second isn't one item without a child: where the first is, the
// second is cut at both ends of its span, else the levels are met item by item.
fn meet_first(
    alloc: Global,
    levels: &mut Levels,
    g: usize,
    h: usize,
    limit: u64,
) -> Result<Owned, GraphFault>
    requires sound { IsSound levels.old [] }
    requires g { Lent levels.old [] (Some g) }
    requires h { Lent levels.old [] (Some h) }
    requires fellows { AreFellows (level_of levels.old (Some g)) (level_of levels.old (Some h)) }
    requires other { is_bare (level_of levels.old (Some h)) ≡ false }
    ensures ok { IfOk result (λ r. Step levels.old levels.new [] (r ∷ [])) }
    ensures level { IfOk result (λ r. level_of levels.new r ≡ both_level (level_of levels.old (Some g)) (level_of levels.old (Some h))) }
    ensures small { IfOk result (λ r. level_size (level_of levels.new r) ≤ limit) }
    ensures over { IfErr result (λ fault. fault ≡ GraphFault.OverLimit → limit < level_size (both_level (level_of levels.old (Some g)) (level_of levels.old (Some h)))) }
    ensures by_bits { OnOk result (is_bare (level_of levels.old (Some h)) ≡ true → (bits : ℕ) → length_of (level_of levels.old (Some g)) < 2 ^ bits → slab_len levels.new ≤ slab_len levels.old + 16 * bits) }
    ensures turned { OnOk result (is_bare (level_of levels.old (Some g)) ≡ true → (bits : ℕ) → length_of (level_of levels.old (Some h)) < 2 ^ bits → slab_len levels.new ≤ slab_len levels.old + 16 * bits) }
    ensures err { OnErr result (Step levels.old levels.new [] []) }
{
    let Some(span) = bare_span(levels, Some(g)) else {
        return match meet_all(alloc, levels, g, h, limit) {
            Ok(whole) => Ok(whole),
            Err(fault) => Err(fault),
        };
    };
    let Ok(span) = span.copy(alloc) else {
        return Err(GraphFault::NoMemory);
    };
    match clip_within(alloc, levels, Some(h), &span, limit) {
        Ok(whole) => Ok(whole),
        Err(fault) => Err(fault),
    }
}

// What two lent levels have in common, where neither hangs below the other: where one of them is one item without a
// child the other is cut at both ends of its span.
fn meet_items(
    alloc: Global,
    levels: &mut Levels,
    g: usize,
    h: usize,
    limit: u64,
) -> Result<Owned, GraphFault>
    requires sound { IsSound levels.old [] }
    requires g { Lent levels.old [] (Some g) }
    requires h { Lent levels.old [] (Some h) }
    requires fellows { AreFellows (level_of levels.old (Some g)) (level_of levels.old (Some h)) }
    ensures ok { IfOk result (λ r. Step levels.old levels.new [] (r ∷ [])) }
    ensures level { IfOk result (λ r. level_of levels.new r ≡ both_level (level_of levels.old (Some g)) (level_of levels.old (Some h))) }
    ensures small { IfOk result (λ r. level_size (level_of levels.new r) ≤ limit) }
    ensures over { IfErr result (λ fault. fault ≡ GraphFault.OverLimit → limit < level_size (both_level (level_of levels.old (Some g)) (level_of levels.old (Some h)))) }
    ensures by_bits { OnOk result (is_bare (level_of levels.old (Some h)) ≡ true → (bits : ℕ) → length_of (level_of levels.old (Some g)) < 2 ^ bits → slab_len levels.new ≤ slab_len levels.old + 16 * bits) }
    ensures turned { OnOk result (is_bare (level_of levels.old (Some g)) ≡ true → (bits : ℕ) → length_of (level_of levels.old (Some h)) < 2 ^ bits → slab_len levels.new ≤ slab_len levels.old + 16 * bits) }
    ensures err { OnErr result (Step levels.old levels.new [] []) }
{
    let Some(span) = bare_span(levels, Some(h)) else {
        return match meet_first(alloc, levels, g, h, limit) {
            Ok(whole) => Ok(whole),
            Err(fault) => Err(fault),
        };
    };
    let Ok(span) = span.copy(alloc) else {
        return Err(GraphFault::NoMemory);
    };
    match clip_within(alloc, levels, Some(g), &span, limit) {
        Ok(whole) => Ok(whole),
        Err(fault) => Err(fault),
    }
}

// What two lent levels have in common: one hung below the other where that begins with as many whole items as the
// other goes down, else item by item.
fn meet_levels(
    alloc: Global,
    levels: &mut Levels,
    parts: &[bool],
    g: usize,
    h: usize,
    limit: u64,
) -> Result<Owned, GraphFault>
    requires sound { IsSound levels.old [] }
    requires g { Lent levels.old [] (Some g) }
    requires h { Lent levels.old [] (Some h) }
    requires first { IsCanonicalLevel parts.now (level_of levels.old (Some g)) }
    requires second { IsCanonicalLevel parts.now (level_of levels.old (Some h)) }
    ensures ok { IfOk result (λ r. Step levels.old levels.new [] (r ∷ [])) }
    ensures level { IfOk result (λ r. level_of levels.new r ≡ both_level (level_of levels.old (Some g)) (level_of levels.old (Some h))) }
    ensures small { IfOk result (λ r. level_size (level_of levels.new r) ≤ limit) }
    ensures over { IfErr result (λ fault. fault ≡ GraphFault.OverLimit → limit < level_size (both_level (level_of levels.old (Some g)) (level_of levels.old (Some h)))) }
    ensures live { IfOk result (λ r. IsFewMade parts.now levels.old levels.new g h) }
    ensures live_turned { IfOk result (λ r. IsFewMade parts.now levels.old levels.new h g) }
    ensures items { IfOk result (λ r. IsFewReached parts.now levels.old levels.new g h r) }
    ensures items_turned { IfOk result (λ r. IsFewReached parts.now levels.old levels.new h g r) }
    ensures by_bits { IfOk result (λ r. IsFewCut levels.old levels.new g h) }
    ensures by_bits_turned { IfOk result (λ r. IsFewCut levels.old levels.new h g) }
    ensures err { OnErr result (Step levels.old levels.new [] []) }
{
    levels.sound();
    match hang_below(alloc, levels, parts, g, h, limit) {
        Ok(Some(whole)) => Ok(whole),
        Ok(None) => match hang_below(alloc, levels, parts, h, g, limit) {
            Ok(Some(whole)) => Ok(whole),
            Ok(None) => match meet_items(alloc, levels, g, h, limit) {
                Ok(whole) => Ok(whole),
                Err(fault) => Err(fault),
            },
            Err(fault) => Err(fault),
        },
        Err(fault) => Err(fault),
    }
}

// One of two handles of a level, unless the level has more items than the limit. Both are spent.
fn keep_one(levels: &mut Levels, limit: u64, g: usize) -> Result<Owned, GraphFault>
    requires owns { Owns levels.old (Some g ∷ Some g ∷ []) }
    ensures ok { IfOk result (λ r. Step levels.old levels.new (Some g ∷ Some g ∷ []) (r ∷ [])) }
    ensures level { IfOk result (λ r. level_of levels.new r ≡ level_of levels.old (Some g)) }
    ensures small { IfOk result (λ r. level_size (level_of levels.new r) ≤ limit) }
    ensures over { OnErr result (limit < level_size (level_of levels.old (Some g))) }
    ensures live { slab_len levels.new ≤ slab_len levels.old }
    ensures items { IfOk result (λ r. (n k : ℕ) → IsNumberUnder levels.old (Some g) n → IsNumberUnder levels.new r k → k ≤ n) }
    ensures err { OnErr result (Step levels.old levels.new (Some g ∷ Some g ∷ []) []) }
{
    levels.sound();
    levels.free(Some(g));
    levels.sound();
    if levels.size(Some(g)) > limit {
        levels.free(Some(g));
        return Err(GraphFault::OverLimit);
    }
    Ok(Some(g))
}

/// What two levels have in common. Both handles are spent in every case. Where each part that the one
/// constrains comes before each that the other constrains, at most one new item is made for each
/// different item of the one, and the answer has no more different items than both together. Where one
/// is one item without a child, and the other has n items, at most 16 new items for each bit of n, and 16, are made.
/// Where both handles are of one level, no item is new.
///
/// # Errors
///
/// OverLimit comes only where it has more items than the limit, counted at each place, NoMemory where
/// memory is wanting.
pub fn level_and(
    alloc: Global,
    levels: &mut Levels,
    parts: &[bool],
    g: usize,
    h: usize,
    limit: u64,
) -> Result<Owned, GraphFault>
    requires owns { Owns levels.old (Some g ∷ Some h ∷ []) }
    requires first { IsCanonicalLevel parts.now (level_of levels.old (Some g)) }
    requires second { IsCanonicalLevel parts.now (level_of levels.old (Some h)) }
    ensures ok { IfOk result (λ r. Step levels.old levels.new (Some g ∷ Some h ∷ []) (r ∷ [])) }
    ensures level { IfOk result (λ r. level_of levels.new r ≡ both_level (level_of levels.old (Some g)) (level_of levels.old (Some h))) }
    ensures small { IfOk result (λ r. level_size (level_of levels.new r) ≤ limit) }
    ensures over { IfErr result (λ fault. fault ≡ GraphFault.OverLimit → limit < level_size (both_level (level_of levels.old (Some g)) (level_of levels.old (Some h)))) }
    ensures live { IfOk result (λ r. IsFewMade parts.now levels.old levels.new g h) }
    ensures live_turned { IfOk result (λ r. IsFewMade parts.now levels.old levels.new h g) }
    ensures items { IfOk result (λ r. IsFewReached parts.now levels.old levels.new g h r) }
    ensures items_turned { IfOk result (λ r. IsFewReached parts.now levels.old levels.new h g r) }
    ensures by_bits { IfOk result (λ r. IsFewCut levels.old levels.new g h) }
    ensures by_bits_turned { IfOk result (λ r. IsFewCut levels.old levels.new h g) }
    ensures same { OnOk result (g ≡ h → slab_len levels.new ≤ slab_len levels.old) }
    ensures err { OnErr result (Step levels.old levels.new (Some g ∷ Some h ∷ []) []) }
{
    if g == h {
        return match keep_one(levels, limit, g) {
            Ok(whole) => Ok(whole),
            Err(fault) => Err(fault),
        };
    }
    match meet_levels(alloc, levels, parts, g, h, limit) {
        Ok(whole) => {
            levels.sound();
            levels.free(Some(g));
            levels.free(Some(h));
            levels.sound();
            Ok(whole)
        }
        Err(fault) => {
            levels.free(Some(g));
            levels.free(Some(h));
            Err(fault)
        }
    }
}
