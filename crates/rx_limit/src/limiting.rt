//! Levels put together within a limit, so that touching neighbours with the same child are one item.

ghost use Rattle.std.specs.Prelude.{◌≡◌, ◌<◌, ◌≤◌, ℕ, Bool, true, List, [], ◌∷◌, Option, Some, None, IfSome, IfOk, IfErr, OnOk, OnErr};
ghost use Rattle.slab.specs.Slab.{slab_len};
ghost use Rattle.rx_tree.specs.Tree.{Level, level_size};
ghost use Rattle.rx_tree.specs.Join.{join_level, length_of};
ghost use Rattle.rx_tree.specs.Weld.{glue};
ghost use Rattle.rx_level.specs.Store.{IsSound};
ghost use Rattle.rx_level.specs.Step.{Owns, Step, Lent, level_of};
ghost use Rattle.rx_weld.specs.Seamless.{IsSeamless};
ghost use Rattle.rx_weld.specs.Seam.{IsSeam};

use rx_graph::GraphFault;
use rx_level::{Levels, Link, Owned, join};
use rx_weld::{glue, is_seam};

/// A level, unless it has more items than the limit: then its handle is spent.
pub fn within(levels: &mut Levels, limit: u64, whole: Owned) -> Result<Owned, GraphFault>
    requires owns { Owns levels.old (whole ∷ []) }
    ensures ok { IfOk result (λ r. Step levels.old levels.new (whole ∷ []) (r ∷ [])) }
    ensures level { IfOk result (λ r. level_of levels.new r ≡ level_of levels.old whole) }
    ensures small { IfOk result (λ r. level_size (level_of levels.new r) ≤ limit) }
    ensures over { OnErr result (limit < level_size (level_of levels.old whole)) }
    ensures live { slab_len levels.new ≤ slab_len levels.old }
    ensures kept { OnOk result (levels.new ≡ levels.old) }
    ensures root { IfOk result (λ r. r ≡ whole) }
    ensures err { OnErr result (Step levels.old levels.new (whole ∷ []) []) }
{
    if levels.size(whole) > limit {
        levels.free(whole);
        return Err(GraphFault::OverLimit);
    }
    Ok(whole)
}

/// Whether two links are one.
pub fn is_same_link(g: Link, h: Link) -> bool
    ensures { result ≡ true → g ≡ h }
{
    match (g, h) {
        (Some(first), Some(next)) => first == next,
        (None, None) => true,
        _ => false,
    }
}

/// A lent level, held, unless it has more items than the limit.
pub fn hold_within(levels: &mut Levels, limit: u64, root: Link) -> Result<Owned, GraphFault>
    requires sound { IsSound levels.old [] }
    requires root { Lent levels.old [] root }
    ensures ok { IfOk result (λ r. Step levels.old levels.new [] (r ∷ [])) }
    ensures level { IfOk result (λ r. level_of levels.new r ≡ level_of levels.old root) }
    ensures small { IfOk result (λ r. level_size (level_of levels.new r) ≤ limit) }
    ensures over { IfErr result (λ fault. fault ≡ GraphFault.OverLimit → limit < level_size (level_of levels.old root)) }
    ensures err { OnErr result (Step levels.old levels.new [] []) }
{
    if levels.size(root) > limit {
        return Err(GraphFault::OverLimit);
    }
    let Ok(()) = levels.hold(root) else {
        return Err(GraphFault::NoMemory);
    };
    Ok(root)
}

// The lent level in the middle of three, where it is one item that stays apart from its neighbours.
fn lone_item(levels: &Levels, left: Link, middle: Link, right: Link) -> Link
    requires left { Lent levels.now [] left }
    requires middle { Lent levels.now [] middle }
    requires right { Lent levels.now [] right }
    ensures middle { IfSome result (λ k. middle ≡ Some k) }
    ensures one { IfSome result (λ k. length_of (level_of levels.now middle) ≡ 1) }
    ensures left { IfSome result (λ k. IsSeam (level_of levels.now left) (level_of levels.now middle) → ⊥) }
    ensures right { IfSome result (λ k. IsSeam (level_of levels.now middle) (level_of levels.now right) → ⊥) }
{
    if levels.count(middle) != 1 {
        return None;
    }
    if is_seam(levels, left, middle) || is_seam(levels, middle, right) {
        return None;
    }
    middle
}

// A level of one item between two others, if they have no more items than the limit. The three handles are
// spent in every case.
fn place_between(
    levels: &mut Levels,
    limit: u64,
    left: Owned,
    middle: usize,
    right: Owned,
) -> Result<Owned, GraphFault>
    requires owns { Owns levels.old (left ∷ Some middle ∷ right ∷ []) }
    requires one { length_of (level_of levels.old (Some middle)) ≡ 1 }
    ensures ok { IfOk result (λ r. Step levels.old levels.new (left ∷ Some middle ∷ right ∷ []) (r ∷ [])) }
    ensures level { IfOk result (λ r. level_of levels.new r ≡ join_level (level_of levels.old left) (join_level (level_of levels.old (Some middle)) (level_of levels.old right))) }
    ensures small { IfOk result (λ r. level_size (level_of levels.new r) ≤ limit) }
    ensures over { IfErr result (λ fault. fault ≡ GraphFault.OverLimit → limit < level_size (join_level (level_of levels.old left) (join_level (level_of levels.old (Some middle)) (level_of levels.old right)))) }
    ensures err { OnErr result (Step levels.old levels.new (left ∷ Some middle ∷ right ∷ []) []) }
{
    let Ok(top) = levels.open(middle) else {
        levels.free(left);
        levels.free(right);
        return Err(GraphFault::NoMemory);
    };
    levels.free(top.left);
    levels.free(top.right);
    let Ok(whole) = join(levels, left, top.item, right) else {
        return Err(GraphFault::NoMemory);
    };
    match within(levels, limit, whole) {
        Ok(whole) => Ok(whole),
        Err(fault) => Err(fault),
    }
}

// The items of one level before those of another, as one item where two touch and have the same child,
// and no more of them than the limit. Both handles are spent in every case.
fn glue_within(
    levels: &mut Levels,
    limit: u64,
    left: Owned,
    right: Owned,
) -> Result<Owned, GraphFault>
    requires owns { Owns levels.old (left ∷ right ∷ []) }
    requires apart { IsSeamless (level_of levels.old left) }
    ensures ok { IfOk result (λ r. Step levels.old levels.new (left ∷ right ∷ []) (r ∷ [])) }
    ensures level { IfOk result (λ r. level_of levels.new r ≡ glue (level_of levels.old left) (level_of levels.old right)) }
    ensures small { IfOk result (λ r. level_size (level_of levels.new r) ≤ limit) }
    ensures over { IfErr result (λ fault. fault ≡ GraphFault.OverLimit → limit < level_size (glue (level_of levels.old left) (level_of levels.old right))) }
    ensures err { OnErr result (Step levels.old levels.new (left ∷ right ∷ []) []) }
{
    let Ok(whole) = glue(levels, left, right) else {
        return Err(GraphFault::NoMemory);
    };
    match within(levels, limit, whole) {
        Ok(whole) => Ok(whole),
        Err(fault) => Err(fault),
    }
}

/// The items of three levels one after another, as one item where two touch and have the same child, and
/// no more of them than the limit. The three handles are spent in every case.
pub fn glue_three(
    levels: &mut Levels,
    limit: u64,
    left: Owned,
    middle: Owned,
    right: Owned,
) -> Result<Owned, GraphFault>
    requires owns { Owns levels.old (left ∷ middle ∷ right ∷ []) }
    requires left { IsSeamless (level_of levels.old left) }
    requires middle { IsSeamless (level_of levels.old middle) }
    ensures ok { IfOk result (λ r. Step levels.old levels.new (left ∷ middle ∷ right ∷ []) (r ∷ [])) }
    ensures level { IfOk result (λ r. level_of levels.new r ≡ glue (level_of levels.old left) (glue (level_of levels.old middle) (level_of levels.old right))) }
    ensures small { IfOk result (λ r. level_size (level_of levels.new r) ≤ limit) }
    ensures over { IfErr result (λ fault. fault ≡ GraphFault.OverLimit → limit < level_size (glue (level_of levels.old left) (glue (level_of levels.old middle) (level_of levels.old right)))) }
    ensures err { OnErr result (Step levels.old levels.new (left ∷ middle ∷ right ∷ []) []) }
{
    if let Some(key) = lone_item(levels, left, middle, right) {
        return place_between(levels, limit, left, key, right);
    }
    let Ok(front) = glue(levels, left, middle) else {
        levels.free(right);
        return Err(GraphFault::NoMemory);
    };
    match glue_within(levels, limit, front, right) {
        Ok(whole) => Ok(whole),
        Err(fault) => Err(fault),
    }
}
