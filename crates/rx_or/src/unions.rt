//! Either of two graphs.

ghost use Rattle.std.specs.Prelude.{◌≡◌, ◌<◌, ◌≤◌, ◌^◌, ◌+◌, ◌*◌, ◌||◌, ℕ, true, List, [], ◌∷◌, Option, Some, None, IfOk, IfErr, OnOk, OnErr};
ghost use Rattle.slab.specs.Slab.{slab_len};
ghost use Rattle.rx_value.specs.declared.order.End.{End as end_of_span};
ghost use Rattle.rx_tree.specs.Tree.{size};
ghost use Rattle.rx_tree.specs.Member.{IsTuple, holds};
ghost use Rattle.rx_tree.specs.Union.{tree_or};
ghost use Rattle.rx_graph.specs.declared.handles.Root.TheVariants.{Items as items_root};
ghost use Rattle.rx_graph.specs.Graph.{Steps, IsHeld, AreCanonical, handle_count, tree_in};
ghost use Rattle.rx_tree.specs.Bare.{is_span, first_length};

use crate::either::level_or;
use rx_graph::{Arena, GraphFault, Handle, Root, second_within};
use std::alloc::Global;

// Either of two graphs with items. Both are spent in every case.
fn items_or(
    alloc: Global,
    arena: &mut Arena,
    g: usize,
    h: usize,
    limit: u64,
) -> Result<Handle, GraphFault>
    requires held { IsHeld arena.old (items_root g ∷ items_root h ∷ []) }
    ensures ok { IfOk result (λ r. Steps arena.old arena.new (items_root g ∷ items_root h ∷ []) (r ∷ [])) }
    ensures tree { IfOk result (λ r. tree_in arena.new r ≡ tree_or arena.old.nullable (tree_in arena.old (items_root g)) (tree_in arena.old (items_root h))) }
    ensures small { IfOk result (λ r. size (tree_in arena.new r) ≤ limit) }
    ensures over { IfErr result (λ fault. fault ≡ GraphFault.OverLimit → limit < size (tree_or arena.old.nullable (tree_in arena.old (items_root g)) (tree_in arena.old (items_root h)))) }
    ensures live { is_span (tree_in arena.old (items_root h)) ≡ true → (bits : ℕ) → first_length (tree_in arena.old (items_root g)) < 2 ^ bits → slab_len arena.new.store ≤ slab_len arena.old.store + 16 * bits + 16 }
    ensures live_turned { is_span (tree_in arena.old (items_root g)) ≡ true → (bits : ℕ) → first_length (tree_in arena.old (items_root h)) < 2 ^ bits → slab_len arena.new.store ≤ slab_len arena.old.store + 16 * bits + 16 }
    ensures same { OnOk result (g ≡ h → slab_len arena.new.store ≤ slab_len arena.old.store) }
    ensures err { OnErr result (Steps arena.old arena.new (items_root g ∷ items_root h ∷ []) []) }
{
    arena.sound();
    let mut levels = arena.take_levels();
    match level_or(alloc, &mut levels, arena.parts(), g, h, limit) {
        Ok(Some(key)) => {
            arena.put_levels(levels);
            Ok(Handle::of(Root::Items(key)))
        }
        Ok(None) => {
            arena.put_levels(levels);
            Ok(arena.everything())
        }
        Err(fault) => {
            arena.put_levels(levels);
            Err(fault)
        }
    }
}

/// The keys that one of two graphs holds. Both are spent in every case, and every other handle keeps its
/// tree. Where one of them is one span of the first part without a child, and the first level of the other
/// has n items, at most 16 new items for each bit of n, and 16, are made, whoever else holds that. Where both
/// are one graph, no item is new.
///
/// # Errors
///
/// OverLimit comes exactly where the tree of the keys has more items than the limit, those of a shared level
/// counted at each place, unless memory is wanting before that is seen: then it is NoMemory.
pub fn or(
    alloc: Global,
    arena: &mut Arena,
    g: Handle,
    h: Handle,
    limit: u64,
) -> Result<Handle, GraphFault>
    requires held { IsHeld arena.old (g ∷ h ∷ []) }
    ensures ok { IfOk result (λ r. Steps arena.old arena.new (g ∷ h ∷ []) (r ∷ [])) }
    ensures tree { IfOk result (λ r. tree_in arena.new r ≡ tree_or arena.old.nullable (tree_in arena.old g) (tree_in arena.old h)) }
    ensures keys { IfOk result (λ r. (ps : List end_of_span) → IsTuple arena.old.nullable ps → holds (tree_in arena.new r) ps ≡ (holds (tree_in arena.old g) ps || holds (tree_in arena.old h) ps)) }
    ensures small { IfOk result (λ r. size (tree_in arena.new r) ≤ limit) }
    ensures over { IfErr result (λ fault. fault ≡ GraphFault.OverLimit → limit < size (tree_or arena.old.nullable (tree_in arena.old g) (tree_in arena.old h))) }
    ensures live { is_span (tree_in arena.old h) ≡ true → (bits : ℕ) → first_length (tree_in arena.old g) < 2 ^ bits → slab_len arena.new.store ≤ slab_len arena.old.store + 16 * bits + 16 }
    ensures live_turned { is_span (tree_in arena.old g) ≡ true → (bits : ℕ) → first_length (tree_in arena.old h) < 2 ^ bits → slab_len arena.new.store ≤ slab_len arena.old.store + 16 * bits + 16 }
    ensures same { OnOk result (g ≡ h → slab_len arena.new.store ≤ slab_len arena.old.store) }
    ensures err { OnErr result (Steps arena.old arena.new (g ∷ h ∷ []) []) }
    ensures count { OnOk result (handle_count arena.new + 1 ≡ handle_count arena.old) }
    ensures err_count { OnErr result (handle_count arena.new + 2 ≡ handle_count arena.old) }
    ensures canonical { AreCanonical arena.new }
{
    arena.sound();
    match (g.root(), h.root()) {
        (Root::Items(first), Root::Items(next)) => {
            let _ = g.into_root();
            let _ = h.into_root();
            match items_or(alloc, arena, first, next, limit) {
                Ok(whole) => Ok(whole),
                Err(fault) => Err(fault),
            }
        }
        (Root::Everything, _) => second_within(arena, h, g, limit),
        (Root::Nothing, _) => second_within(arena, g, h, limit),
        (_, Root::Everything) => second_within(arena, g, h, limit),
        (_, Root::Nothing) => second_within(arena, h, g, limit),
    }
}
