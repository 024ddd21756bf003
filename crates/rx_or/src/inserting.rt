//! Spans without a child put into levels of which they touch no item.

ghost use Rattle.std.specs.Prelude.{◌≡◌, ◌≤◌, ◌+◌, ◌-◌, ◌*◌, ℕ, true, List, [], ◌∷◌, Option, Some, None, IfSome, IfNone, IfOk, OnErr};
ghost use Rattle.slab.specs.Slab.{slab_len};
ghost use Rattle.rx_value.specs.Spans.{IsAtMost, IsBelow};
ghost use Rattle.rx_tree.specs.Tree.Level.{item as one_item, end as no_items};
ghost use Rattle.rx_tree.specs.Join.{join_level};
ghost use Rattle.rx_tree.specs.Cuts.{AreInOrder};
ghost use Rattle.rx_level.specs.Tree.{IsHeight};
ghost use Rattle.rx_level.specs.Store.{IsSound};
ghost use Rattle.rx_level.specs.Step.{Owns, Step, Lent, level_of, tall_of};
ghost use Rattle.rx_or.specs.Cover.{IsLaid};

use rx_cut::hold_both;
use rx_level::{Item, Levels, Link, Owned, join};
use rx_value::{Span, is_at_most};
use std::alloc::{AllocError, Global};

// Whether a span lies before an item and doesn't touch it.
fn is_ahead(span: &Span, item: &Span) -> bool
    ensures { result ≡ true → IsAtMost span.now.lo item.now.lo × IsBelow span.now.hi item.now.lo }
{
    is_at_most(&span.lo, &item.lo) && !is_at_most(&item.lo, &span.hi)
}

// Whether a span lies behind an item and doesn't touch it.
fn is_behind(span: &Span, item: &Span) -> bool
    ensures { result ≡ true → IsBelow item.now.hi span.now.lo × IsAtMost item.now.hi span.now.hi }
{
    !is_at_most(&span.lo, &item.hi) && is_at_most(&item.hi, &span.hi)
}

// A level of one item, which is of this part and has no child.
fn lone(levels: &mut Levels, alloc: Global, part: u32, span: &Span) -> Result<Owned, AllocError>
    requires sound { IsSound levels.old [] }
    ensures ok { IfOk result (λ r. Step levels.old levels.new [] (r ∷ [])) }
    ensures level { IfOk result (λ r. level_of levels.new r ≡ one_item span.now no_items no_items) }
    ensures height { IfOk result (λ r. tall_of levels.new r ≡ 1) }
    ensures live { slab_len levels.new ≤ slab_len levels.old + 1 }
    ensures err { OnErr result (Step levels.old levels.new [] []) }
{
    let span = span.copy(alloc)?;
    let item = Item {
        part,
        span,
        child: None,
    };
    let whole = levels.branch(item, None, None)?;
    Ok(whole)
}

// A level before an item of this part and a lent level. The handle is spent in every case.
fn put_before(
    levels: &mut Levels,
    front: Owned,
    part: u32,
    span: Span,
    child: Link,
    right: Link,
) -> Result<Owned, AllocError>
    requires owns { Owns levels.old (front ∷ []) }
    requires child { Lent levels.old [] child }
    requires right { Lent levels.old [] right }
    ensures ok { IfOk result (λ r. Step levels.old levels.new (front ∷ []) (r ∷ [])) }
    ensures level { IfOk result (λ r. level_of levels.new r ≡ join_level (level_of levels.old front) (one_item span (level_of levels.old child) (level_of levels.old right))) }
    ensures height { IfOk result (λ r. IsHeight (tall_of levels.old front) (tall_of levels.old right) (tall_of levels.new r)) }
    ensures live { slab_len levels.new ≤ slab_len levels.old + 3 * ((tall_of levels.old front - tall_of levels.old right) + (tall_of levels.old right - tall_of levels.old front)) + 1 }
    ensures err { OnErr result (Step levels.old levels.new (front ∷ []) []) }
{
    let Ok(()) = hold_both(levels, child, right) else {
        levels.free(front);
        return Err(AllocError);
    };
    let whole = join(levels, front, Item { part, span, child }, right)?;
    Ok(whole)
}

// A level behind a lent level and an item of this part. The handle is spent in every case.
fn put_behind(
    levels: &mut Levels,
    left: Link,
    part: u32,
    span: Span,
    child: Link,
    back: Owned,
) -> Result<Owned, AllocError>
    requires owns { Owns levels.old (back ∷ []) }
    requires child { Lent levels.old [] child }
    requires left { Lent levels.old [] left }
    ensures ok { IfOk result (λ r. Step levels.old levels.new (back ∷ []) (r ∷ [])) }
    ensures level { IfOk result (λ r. level_of levels.new r ≡ join_level (level_of levels.old left) (one_item span (level_of levels.old child) (level_of levels.old back))) }
    ensures height { IfOk result (λ r. IsHeight (tall_of levels.old left) (tall_of levels.old back) (tall_of levels.new r)) }
    ensures live { slab_len levels.new ≤ slab_len levels.old + 3 * ((tall_of levels.old left - tall_of levels.old back) + (tall_of levels.old back - tall_of levels.old left)) + 1 }
    ensures err { OnErr result (Step levels.old levels.new (back ∷ []) []) }
{
    let Ok(()) = hold_both(levels, child, left) else {
        levels.free(back);
        return Err(AllocError);
    };
    let whole = join(levels, left, Item { part, span, child }, back)?;
    Ok(whole)
}

/// A lent level of this part with an item without a child more, where the span of that touches no item on the way
/// down to its place; none where it does, and nothing is done. Of a level of the height h it makes at most 7 h new
/// items, and one. The error is want of memory.
pub fn insert(
    levels: &mut Levels,
    alloc: Global,
    part: u32,
    root: Link,
    span: &Span,
) -> Result<Option<Owned>, AllocError>
    requires sound { IsSound levels.old [] }
    requires root { Lent levels.old [] root }
    requires order { AreInOrder (level_of levels.old root) }
    ensures ok { IfOk result (λ made. IfSome made (λ r. Step levels.old levels.new [] (r ∷ []))) }
    ensures laid { IfOk result (λ made. IfSome made (λ r. IsLaid span.now (level_of levels.old root) (level_of levels.new r))) }
    ensures low { IfOk result (λ made. IfSome made (λ r. tall_of levels.old root ≤ tall_of levels.new r)) }
    ensures high { IfOk result (λ made. IfSome made (λ r. tall_of levels.new r ≤ tall_of levels.old root + 1)) }
    ensures live { slab_len levels.new ≤ slab_len levels.old + 7 * tall_of levels.old root + 1 }
    ensures none { IfOk result (λ made. IfNone made (levels.new ≡ levels.old)) }
    ensures err { OnErr result (Step levels.old levels.new [] []) }
{
    let Some(seen) = levels.look(root) else {
        let whole = lone(levels, alloc, part, span)?;
        return Ok(Some(whole));
    };
    let at = seen.part;
    let child = seen.child;
    let left = seen.left;
    let right = seen.right;
    let own = seen.span.copy(alloc)?;
    if is_ahead(span, &own) {
        return match insert(levels, alloc, part, left, span) {
            Ok(Some(front)) => {
                let whole = put_before(levels, front, at, own, child, right)?;
                Ok(Some(whole))
            }
            Ok(None) => Ok(None),
            Err(error) => Err(error),
        };
    }
    if is_behind(span, &own) {
        return match insert(levels, alloc, part, right, span) {
            Ok(Some(back)) => {
                let whole = put_behind(levels, left, at, own, child, back)?;
                Ok(Some(whole))
            }
            Ok(None) => Ok(None),
            Err(error) => Err(error),
        };
    }
    Ok(None)
}
