//! Levels hung below the ends of another.

ghost use Rattle.std.specs.Prelude.{◌≡◌, ◌<◌, ◌≤◌, ◌+◌, ◌-◌, ◌++◌, ℕ, List, [], ◌∷◌, Option, Some, None, IfOk, IfErr, OnOk, OnErr, IfSome, IfNone, length, drop, slice_get, max};
ghost use Rattle.slab.specs.Slab.{slab_len};
ghost use Rattle.rx_tree.specs.Tree.{Level};
ghost use Rattle.rx_level.specs.Tree.{fork_of, Fork, IsNear};
ghost use Rattle.rx_level.specs.Store.{tree_of};
ghost use Rattle.rx_level.specs.Step.{Owns, Step, Lent, level_of, tall_of, between};
ghost use Rattle.rx_graft.specs.Hang.{hung, hung_below, depth_of};
ghost use Rattle.rx_graft.specs.Made.{Made, Lacks, IsReady, Adds, Hangs, levels_of};

use crate::memory::Memory;
use rx_level::{Item, Levels, Link, Owned};
use std::alloc::{AllocError, Global};

/// Why a list of levels isn't hung below another level.
#[derive(Clone, Copy, Debug, PartialEq, Eq, Drop)]
pub enum GraftFault {
    /// The level goes further down than the list.
    Short,
    /// Memory is wanting.
    NoMemory,
}

// The link that stands so far in a list.
fn link_at(chain: &[Link], depth: usize) -> Option<Link>
    ensures some { IfSome result (λ link. slice_get chain.now depth ≡ Some link) }
    ensures within { IfSome result (λ link. depth < length chain.now) }
    ensures none { IfNone result (length chain.now ≤ depth) }
{
    chain.get(depth).copied()
}

// Makes the node of a place from its three parts, and remembers it. The three handles are spent in every
// case. The error is want of memory.
fn keep(
    levels: &mut Levels,
    memory: &mut Memory,
    node: usize,
    depth: usize,
    item: Item,
    left: Owned,
    right: Owned,
) -> Result<Owned, AllocError>
    requires owns { Owns levels.old (item.child ∷ left ∷ right ∷ []) }
    requires near { IsNear (tall_of levels.old left) (tall_of levels.old right) }
    requires lacks { Lacks memory.old (node, depth) }
    ensures ok { IfOk result (λ r. Step levels.old levels.new (item.child ∷ left ∷ right ∷ []) (r ∷ r ∷ [])) }
    ensures noted { IfOk result (λ r. memory.new ≡ memory.old ++ ((node, depth), r) ∷ []) }
    ensures fork { IfOk result (λ r. fork_of (tree_of levels.new r) ≡ Some (record { span = item.span; child = tree_of levels.old item.child; left = tree_of levels.old left; right = tree_of levels.old right })) }
    ensures live { OnOk result (slab_len levels.new ≤ slab_len levels.old + 1) }
    ensures err { OnErr result (Step levels.old levels.new (item.child ∷ left ∷ right ∷ []) []) }
    ensures unknown { OnErr result (memory.new ≡ memory.old) }
{
    let Ok(made) = levels.branch(item, left, right) else {
        return Err(AllocError);
    };
    let Ok(()) = levels.hold(made) else {
        levels.free(made);
        return Err(AllocError);
    };
    let Ok(()) = memory.note(node, depth, made) else {
        levels.free(made);
        levels.free(made);
        return Err(AllocError);
    };
    Ok(made)
}

// What hangs below an item of a place over this lent level.
#[cycle(hanging)]
fn under(
    levels: &mut Levels,
    alloc: Global,
    memory: &mut Memory,
    chain: &[Link],
    depth: usize,
    child: Link,
) -> Result<Owned, GraftFault>
    requires ready { IsReady levels.old chain.now memory.old }
    requires child { Lent levels.old [] child }
    ensures ok { IfOk result (λ r. Hangs levels.old levels.new chain.now (depth + 1) child memory.old memory.new r) }
    ensures level { IfOk result (λ r. level_of levels.new r ≡ hung_below (drop depth (levels_of levels.old chain.now)) (level_of levels.old child)) }
    ensures within { OnOk result (depth < length chain.now) }
    ensures short { IfErr result (λ fault. fault ≡ GraftFault.Short → length chain.now < depth + 1 + depth_of (level_of levels.old child)) }
    ensures err { OnErr result (Adds levels.old levels.new memory.old memory.new []) }
{
    let Some(link) = link_at(chain, depth) else {
        return Err(GraftFault::Short);
    };
    let Some(_) = child else {
        let Ok(()) = levels.hold(link) else {
            return Err(GraftFault::NoMemory);
        };
        return Ok(link);
    };
    match hang(levels, alloc, memory, chain, depth + 1, child) {
        Ok(made) => Ok(made),
        Err(fault) => Err(fault),
    }
}

// Hangs the list below a node where it wasn't done before.
#[cycle(hanging)]
fn make(
    levels: &mut Levels,
    alloc: Global,
    memory: &mut Memory,
    chain: &[Link],
    depth: usize,
    key: usize,
) -> Result<Owned, GraftFault>
    requires ready { IsReady levels.old chain.now memory.old }
    requires root { Lent levels.old [] (Some key) }
    requires lacks { Lacks memory.old (key, depth) }
    ensures ok { IfOk result (λ r. Hangs levels.old levels.new chain.now depth (Some key) memory.old memory.new r) }
    ensures level { IfOk result (λ r. level_of levels.new r ≡ hung (drop depth (levels_of levels.old chain.now)) (level_of levels.old (Some key))) }
    ensures tall { IfOk result (λ r. tall_of levels.new r ≡ tall_of levels.old (Some key)) }
    ensures short { IfErr result (λ fault. fault ≡ GraftFault.Short → length chain.now < depth + depth_of (level_of levels.old (Some key))) }
    ensures err { OnErr result (Adds levels.old levels.new memory.old memory.new []) }
{
    let Some(seen) = levels.look(Some(key)) else {
        return Ok(None);
    };
    let child = seen.child;
    let left = seen.left;
    let right = seen.right;
    let part = seen.part;
    let Ok(span) = seen.span.copy(alloc) else {
        return Err(GraftFault::NoMemory);
    };
    let below = match under(levels, alloc, memory, chain, depth, child) {
        Ok(below) => below,
        Err(fault) => return Err(fault),
    };
    let front = match hang(levels, alloc, memory, chain, depth, left) {
        Ok(front) => front,
        Err(fault) => {
            levels.free(below);
            return Err(fault);
        }
    };
    let back = match hang(levels, alloc, memory, chain, depth, right) {
        Ok(back) => back,
        Err(fault) => {
            levels.free(front);
            levels.free(below);
            return Err(fault);
        }
    };
    let item = Item {
        part,
        span,
        child: below,
    };
    let Ok(whole) = keep(levels, memory, key, depth, item, front, back) else {
        return Err(GraftFault::NoMemory);
    };
    Ok(whole)
}

/// The lent level with the list, from so far in it on, hung below. What the memory tells of a place is
/// taken from it, and all that is made comes into it.
///
/// # Errors
///
/// Short comes only where the level goes further down than the list, NoMemory where memory is wanting.
#[cycle(hanging)]
pub fn hang(
    levels: &mut Levels,
    alloc: Global,
    memory: &mut Memory,
    chain: &[Link],
    depth: usize,
    root: Link,
) -> Result<Owned, GraftFault>
    requires ready { IsReady levels.old chain.now memory.old }
    requires root { Lent levels.old [] root }
    ensures ok { IfOk result (λ r. Hangs levels.old levels.new chain.now depth root memory.old memory.new r) }
    ensures level { IfOk result (λ r. level_of levels.new r ≡ hung (drop depth (levels_of levels.old chain.now)) (level_of levels.old root)) }
    ensures tall { IfOk result (λ r. tall_of levels.new r ≡ tall_of levels.old root) }
    ensures short { IfErr result (λ fault. fault ≡ GraftFault.Short → length chain.now < depth + depth_of (level_of levels.old root)) }
    ensures err { OnErr result (Adds levels.old levels.new memory.old memory.new []) }
{
    let Some(key) = root else {
        return Ok(None);
    };
    let Some(known) = memory.find(key, depth) else {
        return match make(levels, alloc, memory, chain, depth, key) {
            Ok(made) => Ok(made),
            Err(fault) => Err(fault),
        };
    };
    let Ok(()) = levels.hold(known) else {
        return Err(GraftFault::NoMemory);
    };
    Ok(known)
}
