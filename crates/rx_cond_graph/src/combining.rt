//! Two graphs met or united, both of which are spent.

ghost use Rattle.std.specs.Prelude.{◌≡◌, ◌≤◌, List, [], ◌∷◌, IfOk, IfErr, OnErr};
ghost use Rattle.rx_tree.specs.Tree.{size};
ghost use Rattle.rx_graph.specs.Graph.{Steps, IsHeld, tree_in};
ghost use Rattle.rx_sets.specs.Sets.{KeySet, IsSmall, IsTreeOf};
ghost use Rattle.rx_cond_graph.specs.Giving.{combined};

use rx_and::and;
use rx_graph::{Arena, GraphFault, Handle};
use rx_or::or;
use std::alloc::Global;

/// The keys of both graphs, or of either, within the limit.
pub(crate) fn combine(
    alloc: Global,
    arena: &mut Arena,
    meets: bool,
    g: Handle,
    h: Handle,
    limit: u64,
) -> Result<Handle, GraphFault>
    requires { IsHeld arena.old (g ∷ h ∷ []) }
    ensures ok { IfOk result (λ r. Steps arena.old arena.new (g ∷ h ∷ []) (r ∷ [])) }
    ensures tree { IfOk result (λ r. (e f : KeySet) → IsTreeOf arena.old.nullable e (tree_in arena.old g) → IsTreeOf arena.old.nullable f (tree_in arena.old h) → IsTreeOf arena.old.nullable (combined meets e f) (tree_in arena.new r)) }
    ensures small { IfOk result (λ r. size (tree_in arena.new r) ≤ limit) }
    ensures over { IfErr result (λ fault. fault ≡ GraphFault.OverLimit → (e f : KeySet) → IsTreeOf arena.old.nullable e (tree_in arena.old g) → IsTreeOf arena.old.nullable f (tree_in arena.old h) → IsSmall arena.old.nullable limit (combined meets e f) → ⊥) }
    ensures err { OnErr result (Steps arena.old arena.new (g ∷ h ∷ []) []) }
{
    if meets {
        return and(alloc, arena, g, h, limit);
    }
    or(alloc, arena, g, h, limit)
}
