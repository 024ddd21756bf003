//! What two graphs have in common.

ghost use Rattle.std.specs.Prelude.{◌≡◌, ◌<◌, ◌≤◌, ◌^◌, ◌+◌, ◌*◌, ◌&&◌, ℕ, true, List, [], ◌∷◌, Some, None, IfOk, IfErr, OnOk, OnErr};
ghost use Rattle.slab.specs.Slab.{slab_len};
ghost use Rattle.rx_value.specs.declared.order.End.{End as end_of_span};
ghost use Rattle.rx_tree.specs.Tree.{size};
ghost use Rattle.rx_tree.specs.Member.{holds};
ghost use Rattle.rx_tree.specs.Meet.{tree_and};
ghost use Rattle.rx_level.specs.Under.{IsNumberUnder};
ghost use Rattle.rx_graph.specs.declared.handles.Root.TheVariants.{Items as items_root};
ghost use Rattle.rx_graph.specs.Graph.{Steps, IsHeld, AreCanonical, handle_count, link_of, tree_in};
ghost use Rattle.rx_tree.specs.Bare.{is_span, first_length};
ghost use Rattle.rx_and.specs.Before.{IsBefore};

use crate::choosing::level_and;
use rx_graph::{Arena, GraphFault, Handle, Root, second_within};
use std::alloc::Global;

// What two graphs with items have in common. Both are spent in every case.
fn items_and(
    alloc: Global,
    arena: &mut Arena,
    g: usize,
    h: usize,
    limit: u64,
) -> Result<Handle, GraphFault>
    requires held { IsHeld arena.old (items_root g ∷ items_root h ∷ []) }
    ensures ok { IfOk result (λ r. Steps arena.old arena.new (items_root g ∷ items_root h ∷ []) (r ∷ [])) }
    ensures tree { IfOk result (λ r. tree_in arena.new r ≡ tree_and (tree_in arena.old (items_root g)) (tree_in arena.old (items_root h))) }
    ensures small { IfOk result (λ r. size (tree_in arena.new r) ≤ limit) }
    ensures over { IfErr result (λ fault. fault ≡ GraphFault.OverLimit → limit < size (tree_and (tree_in arena.old (items_root g)) (tree_in arena.old (items_root h)))) }
    ensures live { OnOk result (IsBefore arena.old.nullable (tree_in arena.old (items_root g)) (tree_in arena.old (items_root h)) → (n : ℕ) → IsNumberUnder arena.old.store (Some g) n → slab_len arena.new.store ≤ slab_len arena.old.store + n) }
    ensures items { IfOk result (λ r. IsBefore arena.old.nullable (tree_in arena.old (items_root g)) (tree_in arena.old (items_root h)) → (n m k : ℕ) → IsNumberUnder arena.old.store (Some g) n → IsNumberUnder arena.old.store (Some h) m → IsNumberUnder arena.new.store (link_of r) k → k ≤ n + m) }
    ensures live_turned { OnOk result (IsBefore arena.old.nullable (tree_in arena.old (items_root h)) (tree_in arena.old (items_root g)) → (n : ℕ) → IsNumberUnder arena.old.store (Some h) n → slab_len arena.new.store ≤ slab_len arena.old.store + n) }
    ensures items_turned { IfOk result (λ r. IsBefore arena.old.nullable (tree_in arena.old (items_root h)) (tree_in arena.old (items_root g)) → (n m k : ℕ) → IsNumberUnder arena.old.store (Some h) n → IsNumberUnder arena.old.store (Some g) m → IsNumberUnder arena.new.store (link_of r) k → k ≤ n + m) }
    ensures by_bits { OnOk result (is_span (tree_in arena.old (items_root h)) ≡ true → (bits : ℕ) → first_length (tree_in arena.old (items_root g)) < 2 ^ bits → slab_len arena.new.store ≤ slab_len arena.old.store + 16 * bits + 16) }
    ensures by_bits_turned { OnOk result (is_span (tree_in arena.old (items_root g)) ≡ true → (bits : ℕ) → first_length (tree_in arena.old (items_root h)) < 2 ^ bits → slab_len arena.new.store ≤ slab_len arena.old.store + 16 * bits + 16) }
    ensures same { OnOk result (g ≡ h → slab_len arena.new.store ≤ slab_len arena.old.store) }
    ensures err { OnErr result (Steps arena.old arena.new (items_root g ∷ items_root h ∷ []) []) }
{
    arena.sound();
    let mut levels = arena.take_levels();
    match level_and(alloc, &mut levels, arena.parts(), g, h, limit) {
        Ok(Some(key)) => {
            arena.put_levels(levels);
            Ok(Handle::of(Root::Items(key)))
        }
        Ok(None) => {
            arena.put_levels(levels);
            Ok(arena.nothing())
        }
        Err(fault) => {
            arena.put_levels(levels);
            Err(fault)
        }
    }
}

/// The keys that both graphs hold. Both are spent in every case, and every other handle keeps its tree.
/// Where every part that the one constrains comes before every part that the other constrains, at most as
/// many new items are made as the one has different ones, and the answer has at most as many different
/// items as both together. Where one is one span of the first part without a child, and the first level of the
/// other has n items, at most 16 new items for each bit of n, and 16, are made. Where both are one graph, no item is new.
///
/// # Errors
///
/// OverLimit comes exactly where the tree of the keys has more items than the limit, those of a shared level
/// counted at each place, unless memory is wanting before that is seen: then it is NoMemory.
pub fn and(
    alloc: Global,
    arena: &mut Arena,
    g: Handle,
    h: Handle,
    limit: u64,
) -> Result<Handle, GraphFault>
    requires held { IsHeld arena.old (g ∷ h ∷ []) }
    ensures ok { IfOk result (λ r. Steps arena.old arena.new (g ∷ h ∷ []) (r ∷ [])) }
    ensures tree { IfOk result (λ r. tree_in arena.new r ≡ tree_and (tree_in arena.old g) (tree_in arena.old h)) }
    ensures keys { IfOk result (λ r. (ps : List end_of_span) → holds (tree_in arena.new r) ps ≡ (holds (tree_in arena.old g) ps && holds (tree_in arena.old h) ps)) }
    ensures small { IfOk result (λ r. size (tree_in arena.new r) ≤ limit) }
    ensures over { IfErr result (λ fault. fault ≡ GraphFault.OverLimit → limit < size (tree_and (tree_in arena.old g) (tree_in arena.old h))) }
    ensures live { OnOk result (IsBefore arena.old.nullable (tree_in arena.old g) (tree_in arena.old h) → (n : ℕ) → IsNumberUnder arena.old.store (link_of g) n → slab_len arena.new.store ≤ slab_len arena.old.store + n) }
    ensures items { IfOk result (λ r. IsBefore arena.old.nullable (tree_in arena.old g) (tree_in arena.old h) → (n m k : ℕ) → IsNumberUnder arena.old.store (link_of g) n → IsNumberUnder arena.old.store (link_of h) m → IsNumberUnder arena.new.store (link_of r) k → k ≤ n + m) }
    ensures live_turned { OnOk result (IsBefore arena.old.nullable (tree_in arena.old h) (tree_in arena.old g) → (n : ℕ) → IsNumberUnder arena.old.store (link_of h) n → slab_len arena.new.store ≤ slab_len arena.old.store + n) }
    ensures items_turned { IfOk result (λ r. IsBefore arena.old.nullable (tree_in arena.old h) (tree_in arena.old g) → (n m k : ℕ) → IsNumberUnder arena.old.store (link_of h) n → IsNumberUnder arena.old.store (link_of g) m → IsNumberUnder arena.new.store (link_of r) k → k ≤ n + m) }
    ensures by_bits { OnOk result (is_span (tree_in arena.old h) ≡ true → (bits : ℕ) → first_length (tree_in arena.old g) < 2 ^ bits → slab_len arena.new.store ≤ slab_len arena.old.store + 16 * bits + 16) }
    ensures by_bits_turned { OnOk result (is_span (tree_in arena.old g) ≡ true → (bits : ℕ) → first_length (tree_in arena.old h) < 2 ^ bits → slab_len arena.new.store ≤ slab_len arena.old.store + 16 * bits + 16) }
    ensures same { OnOk result (g ≡ h → slab_len arena.new.store ≤ slab_len arena.old.store) }
    ensures err { OnErr result (Steps arena.old arena.new (g ∷ h ∷ []) []) }
    ensures count { OnOk result (handle_count arena.new + 1 ≡ handle_count arena.old) }
    ensures err_count { OnErr result (handle_count arena.new + 2 ≡ handle_count arena.old) }
    ensures canonical { AreCanonical arena.new }
{
    arena.sound();
    match (g.root(), h.root()) {
        (Root::Items(first), Root::Items(next)) => {
            let _ = g.into_root();
            let _ = h.into_root();
            match items_and(alloc, arena, first, next, limit) {
                Ok(whole) => Ok(whole),
                Err(fault) => Err(fault),
            }
        }
        (Root::Everything, _) => match second_within(arena, g, h, limit) {
            Ok(whole) => Ok(whole),
            Err(fault) => Err(fault),
        },
        (Root::Nothing, _) => match second_within(arena, h, g, limit) {
            Ok(whole) => Ok(whole),
            Err(fault) => Err(fault),
        },
        (_, Root::Everything) => match second_within(arena, h, g, limit) {
            Ok(whole) => Ok(whole),
            Err(fault) => Err(fault),
        },
        (_, Root::Nothing) => match second_within(arena, g, h, limit) {
            Ok(whole) => Ok(whole),
            Err(fault) => Err(fault),
        },
    }
}
