//! What a span without a child leaves of a level on either side.

ghost use Rattle.std.specs.Prelude.{◌≡◌, ◌≤◌, ◌+◌, ◌*◌, ℕ, List, [], ◌∷◌, Option, Some, None, IfOk, OnErr};
ghost use Rattle.slab.specs.Slab.{slab_len};
ghost use Rattle.rx_level.specs.Step.{Owns, Step, level_of, tall_of};
ghost use Rattle.rx_tree.specs.Tree.Level.{item as one_item, end as no_items};
ghost use Rattle.rx_tree.specs.Join.{join_level};
ghost use Rattle.rx_tree.specs.Cuts.{AreInOrder};
ghost use Rattle.rx_or.specs.Cover.{IsCutBefore, IsCutAfter};
ghost use Rattle.rx_or.specs.Places.{IsPlaceBefore, IsPlaceAfter};

use rx_level::{Item, Levels, Owned, join};
use rx_value::{End, Span, compare_ends};
use std::alloc::{AllocError, Global};
use std::cmp::Ordering;

/// The items that stay on one side of a span without a child, and the end that the span has there once
/// it has joined the items without a child that it reaches.
#[derive(Drop)]
pub struct Cut {
    pub rest: Owned,
    pub edge: End,
}

// How an item stands to a span without a child that begins or ends at an edge.
#[derive(Clone, Copy)]
enum Place {
    /// It stays as it is.
    Apart,
    /// It has no child and reaches the edge, so the span takes it in.
    Joined,
    /// The edge cuts it, and it has a child.
    Across,
    /// It stands on the other side of the edge.
    Beyond,
}

// How an item stands to a span that begins at the edge.
fn place_before(item: &Item, edge: &End) -> Place
    ensures { IsPlaceBefore result item.now.span item.now.child edge.now }
{
    let Ordering::Less = compare_ends(&item.span.lo, edge) else {
        return Place::Beyond;
    };
    let reach = compare_ends(&item.span.hi, edge);
    match item.child {
        Some(_) => match reach {
            Ordering::Greater => Place::Across,
            _ => Place::Apart,
        },
        None => match reach {
            Ordering::Less => Place::Apart,
            _ => Place::Joined,
        },
    }
}

// How an item stands to a span that ends at the edge.
fn place_after(item: &Item, edge: &End) -> Place
    ensures { IsPlaceAfter result item.now.span item.now.child edge.now }
{
    let Ordering::Less = compare_ends(edge, &item.span.hi) else {
        return Place::Beyond;
    };
    let reach = compare_ends(&item.span.lo, edge);
    match item.child {
        Some(_) => match reach {
            Ordering::Less => Place::Across,
            _ => Place::Apart,
        },
        None => match reach {
            Ordering::Greater => Place::Apart,
            _ => Place::Joined,
        },
    }
}

// A level and the part before the edge of an item that the edge cuts. The handles are spent in every case.
fn shorten_before(
    levels: &mut Levels,
    alloc: Global,
    left: Owned,
    item: Item,
    edge: End,
) -> Result<Cut, AllocError>
    requires { Owns levels.old (left ∷ item.child ∷ []) }
    ensures ok { IfOk result (λ c. Step levels.old levels.new (left ∷ item.child ∷ []) (c.rest ∷ [])) }
    ensures level { IfOk result (λ c. level_of levels.new c.rest ≡ join_level (level_of levels.old left) (one_item (record { lo = item.span.lo; hi = edge }) (level_of levels.old item.child) no_items)) }
    ensures edge { IfOk result (λ c. c.edge ≡ edge) }
    ensures low { IfOk result (λ c. tall_of levels.old left ≤ tall_of levels.new c.rest) }
    ensures high { IfOk result (λ c. tall_of levels.new c.rest ≤ tall_of levels.old left + 1) }
    ensures live { slab_len levels.new ≤ slab_len levels.old + 3 * tall_of levels.old left + 1 }
    ensures err { OnErr result (Step levels.old levels.new (left ∷ item.child ∷ []) []) }
{
    let Item { part, span, child } = item;
    let Ok(hi) = edge.copy(alloc) else {
        levels.free(left);
        levels.free(child);
        return Err(AllocError);
    };
    let span = Span { lo: span.lo, hi };
    let rest = join(levels, left, Item { part, span, child }, None)?;
    Ok(Cut { rest, edge })
}

/// The items of a level before a span without a child that begins at the edge. The handle is spent in
/// every case. The error is want of memory.
pub fn cut_before(
    levels: &mut Levels,
    alloc: Global,
    root: Owned,
    edge: End,
) -> Result<Cut, AllocError>
    requires owns { Owns levels.old (root ∷ []) }
    requires order { AreInOrder (level_of levels.old root) }
    ensures ok { IfOk result (λ c. Step levels.old levels.new (root ∷ []) (c.rest ∷ [])) }
    ensures level { IfOk result (λ c. IsCutBefore edge (level_of levels.old root) (level_of levels.new c.rest) c.edge) }
    ensures height { IfOk result (λ c. tall_of levels.new c.rest ≤ tall_of levels.old root) }
    ensures made { IfOk result (λ c. slab_len levels.new ≤ slab_len levels.old + 3 * tall_of levels.new c.rest + tall_of levels.old root) }
    ensures live { slab_len levels.new ≤ slab_len levels.old + 4 * tall_of levels.old root }
    ensures err { OnErr result (Step levels.old levels.new (root ∷ []) []) }
{
    let Some(key) = root else {
        return Ok(Cut { rest: None, edge });
    };
    let top = levels.open(key)?;
    match place_before(&top.item, &edge) {
        Place::Apart => match cut_before(levels, alloc, top.right, edge) {
            Ok(cut) => {
                let rest = join(levels, top.left, top.item, cut.rest)?;
                let edge = cut.edge;
                Ok(Cut { rest, edge })
            }
            Err(error) => {
                levels.free(top.left);
                levels.free(top.item.child);
                Err(error)
            }
        },
        Place::Beyond => {
            levels.free(top.item.child);
            levels.free(top.right);
            let cut = cut_before(levels, alloc, top.left, edge)?;
            Ok(cut)
        }
        Place::Joined => {
            levels.free(top.item.child);
            levels.free(top.right);
            let span = top.item.span;
            Ok(Cut {
                rest: top.left,
                edge: span.lo,
            })
        }
        Place::Across => {
            levels.free(top.right);
            let cut = shorten_before(levels, alloc, top.left, top.item, edge)?;
            Ok(cut)
        }
    }
}

// The part behind the edge of an item that the edge cuts, and a level. The handles are spent in every case.
fn shorten_after(
    levels: &mut Levels,
    alloc: Global,
    edge: End,
    item: Item,
    right: Owned,
) -> Result<Cut, AllocError>
    requires { Owns levels.old (right ∷ item.child ∷ []) }
    ensures ok { IfOk result (λ c. Step levels.old levels.new (right ∷ item.child ∷ []) (c.rest ∷ [])) }
    ensures level { IfOk result (λ c. level_of levels.new c.rest ≡ one_item (record { lo = edge; hi = item.span.hi }) (level_of levels.old item.child) (level_of levels.old right)) }
    ensures edge { IfOk result (λ c. c.edge ≡ edge) }
    ensures low { IfOk result (λ c. tall_of levels.old right ≤ tall_of levels.new c.rest) }
    ensures high { IfOk result (λ c. tall_of levels.new c.rest ≤ tall_of levels.old right + 1) }
    ensures live { slab_len levels.new ≤ slab_len levels.old + 3 * tall_of levels.old right + 1 }
    ensures err { OnErr result (Step levels.old levels.new (right ∷ item.child ∷ []) []) }
{
    let Item { part, span, child } = item;
    let Ok(lo) = edge.copy(alloc) else {
        levels.free(right);
        levels.free(child);
        return Err(AllocError);
    };
    let span = Span { lo, hi: span.hi };
    let rest = join(levels, None, Item { part, span, child }, right)?;
    Ok(Cut { rest, edge })
}

/// The items of a level behind a span without a child that ends at the edge. The handle is spent in
/// every case. The error is want of memory.
pub fn cut_after(
    levels: &mut Levels,
    alloc: Global,
    root: Owned,
    edge: End,
) -> Result<Cut, AllocError>
    requires owns { Owns levels.old (root ∷ []) }
    requires order { AreInOrder (level_of levels.old root) }
    ensures ok { IfOk result (λ c. Step levels.old levels.new (root ∷ []) (c.rest ∷ [])) }
    ensures level { IfOk result (λ c. IsCutAfter edge (level_of levels.old root) (level_of levels.new c.rest) c.edge) }
    ensures height { IfOk result (λ c. tall_of levels.new c.rest ≤ tall_of levels.old root) }
    ensures made { IfOk result (λ c. slab_len levels.new ≤ slab_len levels.old + 3 * tall_of levels.new c.rest + tall_of levels.old root) }
    ensures live { slab_len levels.new ≤ slab_len levels.old + 4 * tall_of levels.old root }
    ensures err { OnErr result (Step levels.old levels.new (root ∷ []) []) }
{
    let Some(key) = root else {
        return Ok(Cut { rest: None, edge });
    };
    let top = levels.open(key)?;
    match place_after(&top.item, &edge) {
        Place::Apart => match cut_after(levels, alloc, top.left, edge) {
            Ok(cut) => {
                let rest = join(levels, cut.rest, top.item, top.right)?;
                let edge = cut.edge;
                Ok(Cut { rest, edge })
            }
            Err(error) => {
                levels.free(top.right);
                levels.free(top.item.child);
                Err(error)
            }
        },
        Place::Beyond => {
            levels.free(top.item.child);
            levels.free(top.left);
            let cut = cut_after(levels, alloc, top.right, edge)?;
            Ok(cut)
        }
        Place::Joined => {
            levels.free(top.item.child);
            levels.free(top.left);
            let span = top.item.span;
            Ok(Cut {
                rest: top.right,
                edge: span.hi,
            })
        }
        Place::Across => {
            levels.free(top.left);
            let cut = shorten_after(levels, alloc, edge, top.item, top.right)?;
            Ok(cut)
        }
    }
}
