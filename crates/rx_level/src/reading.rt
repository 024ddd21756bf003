//! Levels read by the places of their items, and compared. Nothing here takes memory.

ghost use Rattle.std.specs.Prelude.{◌≡◌, ◌↔◌, ℕ, List, [], ◌∷◌, Option, Some, None, IfSome, IfNone, IsTrue};
ghost use Rattle.rx_tree.specs.Tree.{Level};
ghost use Rattle.rx_level.specs.Entries.{Entry, entry_at};
ghost use Rattle.rx_level.specs.Step.{Lent, level_of};
ghost use Rattle.rx_level.specs.Between.{span_at};

use crate::levels::Levels;
use crate::links::Link;
use rx_value::{End, Span, compare_ends};
use std::cmp::Ordering;

/// An item as it stands in the store, and the link to the level below it.
#[derive(Clone, Copy)]
pub struct Found<'a> {
    pub span: &'a Span,
    pub child: Link,
}

/// The span of a lent item.
#[tactic(auto, using(crate::proofs::Between::fork_span))]
pub fn span_of(levels: &Levels, key: usize) -> &Span
    requires { Lent levels.now [] (Some key) }
    ensures { result.now ≡ span_at levels.now key }
{
    let Some(seen) = levels.look(Some(key)) else {
        unreachable!();
    };
    seen.span
}

/// The item of a lent level at a place, counted from 0. None where the level has no more items.
pub fn find<'a>(levels: &'a Levels, root: Link, place: u64) -> Option<Found<'a>>
    requires { Lent levels.now [] root }
    ensures some { IfSome result (λ f. entry_at place (level_of levels.now root) ≡ Some (record { span = f.span.now; below = level_of levels.now f.child })) }
    ensures child { IfSome result (λ f. Lent levels.now [] f.child) }
    ensures none { IfNone result (entry_at place (level_of levels.now root) ≡ None) }
{
    let seen = levels.look(root)?;
    let before = levels.count(seen.left);
    if place < before {
        return find(levels, seen.left, place);
    }
    if place > before {
        return find(levels, seen.right, place - before - 1);
    }
    Some(Found {
        span: seen.span,
        child: seen.child,
    })
}

/// Whether two lent levels have the same items with the same levels below.
#[cycle(same)]
pub fn same_levels(levels: &Levels, g: Link, h: Link) -> bool
    requires g { Lent levels.now [] g }
    requires h { Lent levels.now [] h }
    ensures { IsTrue result ↔ (level_of levels.now g ≡ level_of levels.now h) }
{
    if g == h {
        return true;
    }
    let count = levels.count(g);
    if count != levels.count(h) {
        return false;
    }
    'items: for place in 0..count {
        if !same_items(levels, g, h, place) {
            return false;
        }
    }
    true
}

// Whether two lent levels have the same item at a place.
#[cycle(same)]
fn same_items(levels: &Levels, g: Link, h: Link, place: u64) -> bool
    requires g { Lent levels.now [] g }
    requires h { Lent levels.now [] h }
    ensures { IsTrue result ↔ (entry_at place (level_of levels.now g) ≡ entry_at place (level_of levels.now h)) }
{
    let Some(first) = find(levels, g, place) else {
        return find(levels, h, place).is_none();
    };
    let Some(second) = find(levels, h, place) else {
        return false;
    };
    same_spans(first.span, second.span) && same_levels(levels, first.child, second.child)
}

fn same_spans(a: &Span, b: &Span) -> bool
    ensures { IsTrue result ↔ (a.now ≡ b.now) }
{
    same_ends(&a.lo, &b.lo) && same_ends(&a.hi, &b.hi)
}

fn same_ends(a: &End, b: &End) -> bool
    ensures { IsTrue result ↔ (a.now ≡ b.now) }
{
    matches!(compare_ends(a, b), Ordering::Equal)
}
