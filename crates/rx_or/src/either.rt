//! Either of two levels.

ghost use Rattle.std.specs.Prelude.{◌≡◌, ◌<◌, ◌≤◌, ◌+◌, ◌*◌, ◌^◌, ℕ, Bool, true, List, [], ◌∷◌, Option, Some, None, IfOk, IfErr, OnOk, OnErr};
ghost use Rattle.slab.specs.Slab.{slab_len};
ghost use Rattle.rx_tree.specs.Tree.{Level, level_size};
ghost use Rattle.rx_tree.specs.Join.{length_of};
ghost use Rattle.rx_tree.specs.Canonical.{ArePlaced};
ghost use Rattle.rx_tree.specs.Union.{either};
ghost use Rattle.rx_level.specs.Step.{Owns, Step, Lent, level_of};
ghost use Rattle.rx_tree.specs.Cuts.{AreInOrder};
ghost use Rattle.rx_tree.specs.Bare.{is_bare};
ghost use Rattle.rx_or.specs.Below.{unless_all, covered_by};

use crate::all_keys::is_all;
use crate::beside::lies_before;
use crate::covering::cover;
use crate::uniting::unite;
use rx_graph::GraphFault;
use rx_level::{Levels, Link, Owned};
use rx_weld::glue;
use std::alloc::{AllocError, Global};

// Whether a lent level is one item without a child.
fn is_bare(levels: &Levels, root: Link) -> bool
    requires { Lent levels.now [] root }
    ensures { result ≡ is_bare (level_of levels.now root) }
{
    let Some(top) = levels.look(root) else {
        return false;
    };
    if levels.count(top.left) != 0 || levels.count(top.right) != 0 || levels.count(top.child) != 0 {
        return false;
    }
    true
}

// The span of a level of one item without a child laid over another. Both handles are spent in every case.
fn lay_bare(levels: &mut Levels, alloc: Global, g: Owned, key: usize) -> Result<Owned, AllocError>
    requires owns { Owns levels.old (g ∷ Some key ∷ []) }
    requires order { AreInOrder (level_of levels.old g) }
    requires bare { is_bare (level_of levels.old (Some key)) ≡ true }
    ensures ok { IfOk result (λ r. Step levels.old levels.new (g ∷ Some key ∷ []) (r ∷ [])) }
    ensures level { IfOk result (λ r. level_of levels.new r ≡ covered_by (level_of levels.old (Some key)) (level_of levels.old g)) }
    ensures by_bits { (bits : ℕ) → length_of (level_of levels.old g) < 2 ^ bits → slab_len levels.new ≤ slab_len levels.old + 16 * bits + 16 }
    ensures err { OnErr result (Step levels.old levels.new (g ∷ Some key ∷ []) []) }
{
    let Ok(top) = levels.open(key) else {
        levels.free(g);
        return Err(AllocError);
    };
    levels.free(top.left);
    levels.free(top.right);
    levels.free(top.item.child);
    let part = top.item.part;
    let span = top.item.span;
    let whole = cover(levels, alloc, part, g, span)?;
    Ok(whole)
}

// One of two handles of a level. Both are spent.
fn keep_one(levels: &mut Levels, g: usize) -> Owned
    requires owns { Owns levels.old (Some g ∷ Some g ∷ []) }
    ensures ok { Step levels.old levels.new (Some g ∷ Some g ∷ []) (result ∷ []) }
    ensures level { level_of levels.new result ≡ level_of levels.old (Some g) }
    ensures live { slab_len levels.new ≤ slab_len levels.old }
{
    levels.free(Some(g));
    Some(g)
}

// Either of two levels, item by item. Both handles are spent in every case.
fn unite_held(
    levels: &mut Levels,
    alloc: Global,
    limit: u64,
    parts: &[bool],
    g: usize,
    h: usize,
) -> Result<Owned, GraphFault>
    requires owns { Owns levels.old (Some g ∷ Some h ∷ []) }
    requires first { ArePlaced parts.now (level_of levels.old (Some g)) }
    requires second { ArePlaced parts.now (level_of levels.old (Some h)) }
    ensures ok { IfOk result (λ r. Step levels.old levels.new (Some g ∷ Some h ∷ []) (r ∷ [])) }
    ensures level { IfOk result (λ r. level_of levels.new r ≡ either parts.now (level_of levels.old (Some g)) (level_of levels.old (Some h))) }
    ensures small { IfOk result (λ r. level_size (level_of levels.new r) ≤ limit) }
    ensures over { IfErr result (λ fault. fault ≡ GraphFault.OverLimit → limit < level_size (either parts.now (level_of levels.old (Some g)) (level_of levels.old (Some h)))) }
    ensures err { OnErr result (Step levels.old levels.new (Some g ∷ Some h ∷ []) []) }
{
    levels.sound();
    match unite(levels, alloc, limit, parts, Some(g), Some(h)) {
        Ok(whole) => {
            levels.free(Some(g));
            levels.free(Some(h));
            Ok(whole)
        }
        Err(fault) => {
            levels.free(Some(g));
            levels.free(Some(h));
            Err(fault)
        }
    }
}

// Either of two levels: of a level and itself that level; the span of one without other items or a child laid over the
// other; one glued behind the other that ends before it; else item by item. Both handles are spent in every case.
fn level_of_either(
    levels: &mut Levels,
    alloc: Global,
    limit: u64,
    parts: &[bool],
    g: usize,
    h: usize,
) -> Result<Owned, GraphFault>
    requires owns { Owns levels.old (Some g ∷ Some h ∷ []) }
    requires first { ArePlaced parts.now (level_of levels.old (Some g)) }
    requires second { ArePlaced parts.now (level_of levels.old (Some h)) }
    ensures ok { IfOk result (λ r. Step levels.old levels.new (Some g ∷ Some h ∷ []) (r ∷ [])) }
    ensures level { IfOk result (λ r. level_of levels.new r ≡ either parts.now (level_of levels.old (Some g)) (level_of levels.old (Some h))) }
    ensures over { IfErr result (λ fault. fault ≡ GraphFault.OverLimit → limit < level_size (either parts.now (level_of levels.old (Some g)) (level_of levels.old (Some h)))) }
    ensures by_bits { is_bare (level_of levels.old (Some h)) ≡ true → (bits : ℕ) → length_of (level_of levels.old (Some g)) < 2 ^ bits → slab_len levels.new ≤ slab_len levels.old + 16 * bits + 16 }
    ensures by_bits_turned { is_bare (level_of levels.old (Some g)) ≡ true → (bits : ℕ) → length_of (level_of levels.old (Some h)) < 2 ^ bits → slab_len levels.new ≤ slab_len levels.old + 16 * bits + 16 }
    ensures same { OnOk result (g ≡ h → slab_len levels.new ≤ slab_len levels.old) }
    ensures err { OnErr result (Step levels.old levels.new (Some g ∷ Some h ∷ []) []) }
{
    if g == h {
        return Ok(keep_one(levels, g));
    }
    if is_bare(levels, Some(h)) {
        let Ok(whole) = lay_bare(levels, alloc, Some(g), h) else {
            return Err(GraphFault::NoMemory);
        };
        return Ok(whole);
    }
    if is_bare(levels, Some(g)) {
        let Ok(whole) = lay_bare(levels, alloc, Some(h), g) else {
            return Err(GraphFault::NoMemory);
        };
        return Ok(whole);
    }
    if lies_before(levels, Some(g), Some(h)) {
        let Ok(whole) = glue(levels, Some(g), Some(h)) else {
            return Err(GraphFault::NoMemory);
        };
        return Ok(whole);
    }
    if lies_before(levels, Some(h), Some(g)) {
        let Ok(whole) = glue(levels, Some(h), Some(g)) else {
            return Err(GraphFault::NoMemory);
        };
        return Ok(whole);
    }
    match unite_held(levels, alloc, limit, parts, g, h) {
        Ok(whole) => Ok(whole),
        Err(fault) => Err(fault),
    }
}

/// The items of either level, none where they are all. The list says of the parts from that of the levels
/// on whether each may be NULL. Both handles are spent in every case. Where both are of one level, no item is new.
///
/// # Errors
///
/// OverLimit comes only where it has more items than the limit, counted at each place, NoMemory where
/// memory is wanting.
pub fn level_or(
    alloc: Global,
    levels: &mut Levels,
    parts: &[bool],
    g: usize,
    h: usize,
    limit: u64,
) -> Result<Owned, GraphFault>
    requires owns { Owns levels.old (Some g ∷ Some h ∷ []) }
    requires first { ArePlaced parts.now (level_of levels.old (Some g)) }
    requires second { ArePlaced parts.now (level_of levels.old (Some h)) }
    ensures ok { IfOk result (λ r. Step levels.old levels.new (Some g ∷ Some h ∷ []) (r ∷ [])) }
    ensures level { IfOk result (λ r. level_of levels.new r ≡ unless_all parts.now (either parts.now (level_of levels.old (Some g)) (level_of levels.old (Some h)))) }
    ensures small { IfOk result (λ r. level_size (level_of levels.new r) ≤ limit) }
    ensures over { IfErr result (λ fault. fault ≡ GraphFault.OverLimit → limit < level_size (unless_all parts.now (either parts.now (level_of levels.old (Some g)) (level_of levels.old (Some h))))) }
    ensures by_bits { is_bare (level_of levels.old (Some h)) ≡ true → (bits : ℕ) → length_of (level_of levels.old (Some g)) < 2 ^ bits → slab_len levels.new ≤ slab_len levels.old + 16 * bits + 16 }
    ensures by_bits_turned { is_bare (level_of levels.old (Some g)) ≡ true → (bits : ℕ) → length_of (level_of levels.old (Some h)) < 2 ^ bits → slab_len levels.new ≤ slab_len levels.old + 16 * bits + 16 }
    ensures same { OnOk result (g ≡ h → slab_len levels.new ≤ slab_len levels.old) }
    ensures err { OnErr result (Step levels.old levels.new (Some g ∷ Some h ∷ []) []) }
{
    // A level that is all has one item, and the tree of all keys none.
    let whole = match level_of_either(levels, alloc, limit.max(1), parts, g, h) {
        Ok(whole) => whole,
        Err(fault) => return Err(fault),
    };
    let [nullable, ..] = parts else {
        levels.free(whole);
        return Ok(None);
    };
    if is_all(levels, *nullable, whole) {
        levels.free(whole);
        return Ok(None);
    }
    if levels.size(whole) > limit {
        levels.free(whole);
        return Err(GraphFault::OverLimit);
    }
    Ok(whole)
}
