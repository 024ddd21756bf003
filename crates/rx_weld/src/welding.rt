//! Items put before levels, as one with the first item where the two touch and have the same child.

ghost use Rattle.std.specs.Prelude.{◌≡◌, List, [], ◌∷◌, Option, Some, None, IfOk, OnErr, IsTrue};
ghost use Rattle.rx_tree.specs.Tree.{Level};
ghost use Rattle.rx_tree.specs.Tree.Level.{item as one_item};
ghost use Rattle.rx_tree.specs.Join.{join_level};
ghost use Rattle.rx_tree.specs.Weld.{span_over, weld};
ghost use Rattle.rx_level.specs.Step.{Owns, Step, Lent, level_of};

use rx_level::{Found, Item, Levels, Owned, join, same_levels, take_first};
use rx_value::{Span, touches};
use std::alloc::AllocError;

/// Whether the first item ends where the second begins and has the same child.
pub fn is_one(levels: &Levels, a: Found<'_>, b: Found<'_>) -> bool
    requires a { Lent levels.now [] a.child }
    requires b { Lent levels.now [] b.child }
    ensures yes { IsTrue result → (a.entry.span.now.hi ≡ b.entry.span.now.lo) × (level_of levels.now a.entry.child ≡ level_of levels.now b.entry.child) }
    ensures no { a.entry.span.now.hi ≡ b.entry.span.now.lo → level_of levels.now a.entry.child ≡ level_of levels.now b.entry.child → IsTrue result }
{
    touches(a.span, b.span) && same_levels(levels, a.child, b.child)
}

// From where the first span begins to where the second ends.
fn span_over(a: Span, b: Span) -> Span
    ensures { result ≡ span_over a b }
{
    Span { lo: a.lo, hi: b.hi }
}

/// Two items between levels as one, since they touch and have the same child. All handles are spent in
/// every case. The error is want of memory.
pub fn join_as_one(
    levels: &mut Levels,
    left: Owned,
    a: Item,
    b: Item,
    right: Owned,
) -> Result<Owned, AllocError>
    requires owns { Owns levels.old (left ∷ a.child ∷ b.child ∷ right ∷ []) }
    requires touch { a.span.hi ≡ b.span.lo }
    requires same { level_of levels.old a.child ≡ level_of levels.old b.child }
    ensures ok { IfOk result (λ r. Step levels.old levels.new (left ∷ a.child ∷ b.child ∷ right ∷ []) (r ∷ [])) }
    ensures level { IfOk result (λ r. level_of levels.new r ≡ join_level (level_of levels.old left) (weld a.span (level_of levels.old a.child) (one_item b.span (level_of levels.old b.child) (level_of levels.old right)))) }
    ensures err { OnErr result (Step levels.old levels.new (left ∷ a.child ∷ b.child ∷ right ∷ []) []) }
{
    levels.free(b.child);
    let (part, span, child) = (a.part, span_over(a.span, b.span), a.child);
    let whole = join(levels, left, Item { part, span, child }, right)?;
    Ok(whole)
}

// Two items before a level, as one where they touch and have the same child. All handles are spent in
// every case. The error is want of memory.
fn meld(levels: &mut Levels, a: Item, b: Item, right: Owned) -> Result<Owned, AllocError>
    requires { Owns levels.old (a.child ∷ b.child ∷ right ∷ []) }
    ensures ok { IfOk result (λ r. Step levels.old levels.new (a.child ∷ b.child ∷ right ∷ []) (r ∷ [])) }
    ensures level { IfOk result (λ r. level_of levels.new r ≡ weld a.span (level_of levels.old a.child) (one_item b.span (level_of levels.old b.child) (level_of levels.old right))) }
    ensures err { OnErr result (Step levels.old levels.new (a.child ∷ b.child ∷ right ∷ []) []) }
{
    let first = Found {
        span: &a.span,
        child: a.child,
    };
    let second = Found {
        span: &b.span,
        child: b.child,
    };
    if is_one(levels, first, second) {
        let whole = join_as_one(levels, None, a, b, right)?;
        return Ok(whole);
    }
    match join(levels, None, b, right) {
        Ok(back) => {
            let whole = join(levels, None, a, back)?;
            Ok(whole)
        }
        Err(error) => {
            levels.free(a.child);
            Err(error)
        }
    }
}

/// An item before a level, as one with the first item where the two touch and have the same child. The
/// handles are spent in every case. The error is want of memory.
pub fn weld_front(levels: &mut Levels, item: Item, root: Owned) -> Result<Owned, AllocError>
    requires { Owns levels.old (item.child ∷ root ∷ []) }
    ensures ok { IfOk result (λ r. Step levels.old levels.new (item.child ∷ root ∷ []) (r ∷ [])) }
    ensures level { IfOk result (λ r. level_of levels.new r ≡ weld item.span (level_of levels.old item.child) (level_of levels.old root)) }
    ensures err { OnErr result (Step levels.old levels.new (item.child ∷ root ∷ []) []) }
{
    let Some(key) = root else {
        let whole = join(levels, None, item, root)?;
        return Ok(whole);
    };
    match take_first(levels, key) {
        Ok(first) => {
            let whole = meld(levels, item, first.item, first.rest)?;
            Ok(whole)
        }
        Err(error) => {
            levels.free(item.child);
            Err(error)
        }
    }
}
