//! Graphs that are kept where they have no more items than a limit.

ghost use Rattle.std.specs.Prelude.{◌≡◌, ◌<◌, ◌≤◌, ◌+◌, ℕ, List, [], ◌∷◌, None, IfOk, IfErr, OnOk, OnErr};
ghost use Rattle.slab.specs.Slab.{slab_len};
ghost use Rattle.rx_tree.specs.Tree.{size};
ghost use Rattle.rx_graph.specs.Graph.{Steps, IsHeld, handle_count, link_of, tree_in};

use crate::arena::Arena;
use crate::faults::GraphFault;
use crate::handles::Handle;

/// A graph, unless its tree has more items than the limit: then it is spent. Takes no memory.
///
/// # Errors
///
/// OverLimit comes exactly where its tree has more items than the limit.
pub fn within(arena: &mut Arena, h: Handle, limit: u64) -> Result<Handle, GraphFault>
    requires held { IsHeld arena.old (h ∷ []) }
    ensures ok { IfOk result (λ r. Steps arena.old arena.new (h ∷ []) (r ∷ [])) }
    ensures tree { IfOk result (λ r. tree_in arena.new r ≡ tree_in arena.old h) }
    ensures small { IfOk result (λ r. size (tree_in arena.new r) ≤ limit) }
    ensures over { OnErr result (limit < size (tree_in arena.old h)) }
    ensures only { IfErr result (λ fault. fault ≡ GraphFault.OverLimit) }
    ensures err { OnErr result (Steps arena.old arena.new (h ∷ []) []) }
    ensures same { IfOk result (λ r. (r ≡ h) × (arena.new ≡ arena.old)) }
    ensures live { slab_len arena.new.store ≤ slab_len arena.old.store }
    ensures count { OnOk result (handle_count arena.new ≡ handle_count arena.old) }
    ensures err_count { OnErr result (handle_count arena.new + 1 ≡ handle_count arena.old) }
{
    if arena.tree_size(&h) > limit {
        arena.release(h);
        return Err(GraphFault::OverLimit);
    }
    Ok(h)
}

/// The second graph, unless its tree has more items than the limit. The first is spent, and the second too
/// where it isn't given. Takes no memory.
///
/// # Errors
///
/// OverLimit comes exactly where the tree of the second has more items than the limit.
pub fn second_within(
    arena: &mut Arena,
    spare: Handle,
    h: Handle,
    limit: u64,
) -> Result<Handle, GraphFault>
    requires held { IsHeld arena.old (spare ∷ h ∷ []) }
    ensures ok { IfOk result (λ r. Steps arena.old arena.new (spare ∷ h ∷ []) (r ∷ [])) }
    ensures tree { IfOk result (λ r. tree_in arena.new r ≡ tree_in arena.old h) }
    ensures small { IfOk result (λ r. size (tree_in arena.new r) ≤ limit) }
    ensures over { OnErr result (limit < size (tree_in arena.old h)) }
    ensures only { IfErr result (λ fault. fault ≡ GraphFault.OverLimit) }
    ensures err { OnErr result (Steps arena.old arena.new (spare ∷ h ∷ []) []) }
    ensures root { IfOk result (λ r. r ≡ h) }
    ensures live { slab_len arena.new.store ≤ slab_len arena.old.store }
    ensures store { link_of spare ≡ None → OnOk result (arena.new.store ≡ arena.old.store) }
    ensures count { OnOk result (handle_count arena.new + 1 ≡ handle_count arena.old) }
    ensures err_count { OnErr result (handle_count arena.new + 2 ≡ handle_count arena.old) }
{
    arena.release(spare);
    match within(arena, h, limit) {
        Ok(whole) => Ok(whole),
        Err(fault) => Err(fault),
    }
}
