//! The graph of a condition: that of each condition under it once, within the limit.

ghost use Rattle.std.specs.Prelude.{◌≡◌, true, [], IfOk, IfErr, OnOk, OnErr, length, map};
ghost use Rattle.rx_graph.specs.Graph.{Steps};
ghost use Rattle.rx_cond.specs.Tree.{tree_of, trees};
ghost use Rattle.rx_regions.specs.Cans.{can_be};
ghost use Rattle.rx_ranges.specs.Subterms.{AreSmall, AreSmallJoined, joined_can};
ghost use Rattle.rx_cond_graph.specs.Giving.{GivesTreeOf, is_single};

use crate::combining::combine;
use crate::leaves::all_or_none;
use crate::singles::single;
use rx_cond::Cond;
use rx_graph::{Arena, GraphFault, Handle, within};
use rx_value::Part;
use std::alloc::Global;

/// The graph of the keys of an index at which a condition can be true or, without the sign, can be false, on these parts.
///
/// # Errors
///
/// OverLimit comes exactly where the tree of the condition, or of one under it, has more items than the limit,
/// NoMemory where memory is wanting.
#[cycle(graphs)]
pub fn graph_of(
    alloc: Global,
    arena: &mut Arena,
    parts: &[Part],
    sign: bool,
    cond: &Cond,
    limit: u64,
) -> Result<Handle, GraphFault>
    requires { length parts.now ≡ length arena.old.nullable }
    ensures ok { IfOk result (λ h. GivesTreeOf (can_be sign (tree_of cond.now) parts.now) arena.old arena.new h) }
    ensures small { OnOk result (AreSmall arena.old.nullable parts.now limit sign (tree_of cond.now)) }
    ensures over { IfErr result (λ fault. fault ≡ GraphFault.OverLimit → AreSmall arena.old.nullable parts.now limit sign (tree_of cond.now) → ⊥) }
    ensures err { OnErr result (Steps arena.old arena.new [] []) }
{
    match cond {
        Cond::Neg(inner) => graph_of(alloc, arena, parts, !sign, inner, limit),
        Cond::Conj(items) => joined(alloc, arena, parts, sign, sign, items, limit),
        Cond::Disj(items) => joined(alloc, arena, parts, !sign, sign, items, limit),
        _ => single_within(alloc, arena, parts, sign, cond, limit),
    }
}

// The graph of the keys at which all of these conditions, or one of them, can have this truth.
#[cycle(graphs)]
fn joined(
    alloc: Global,
    arena: &mut Arena,
    parts: &[Part],
    meets: bool,
    sign: bool,
    items: &[Cond],
    limit: u64,
) -> Result<Handle, GraphFault>
    requires { length parts.now ≡ length arena.old.nullable }
    ensures ok { IfOk result (λ h. GivesTreeOf (joined_can meets sign (trees (map tree_of items.now)) parts.now) arena.old arena.new h) }
    ensures small { OnOk result (AreSmallJoined arena.old.nullable parts.now limit meets sign (trees (map tree_of items.now))) }
    ensures over { IfErr result (λ fault. fault ≡ GraphFault.OverLimit → AreSmallJoined arena.old.nullable parts.now limit meets sign (trees (map tree_of items.now)) → ⊥) }
    ensures err { OnErr result (Steps arena.old arena.new [] []) }
{
    let mut whole = all_or_none(arena, meets)?;
    'items: for item in items {
        let next = match graph_of(alloc, arena, parts, sign, item, limit) {
            Ok(next) => next,
            Err(fault) => {
                arena.release(whole);
                return Err(fault);
            }
        };
        whole = match combine(alloc, arena, meets, whole, next, limit) {
            Ok(joint) => joint,
            Err(fault) => return Err(fault),
        };
    }
    Ok(whole)
}

// The graph of a single test, within the limit.
fn single_within(
    alloc: Global,
    arena: &mut Arena,
    parts: &[Part],
    sign: bool,
    cond: &Cond,
    limit: u64,
) -> Result<Handle, GraphFault>
    requires single { is_single (tree_of cond.now) ≡ true }
    requires parts { length parts.now ≡ length arena.old.nullable }
    ensures ok { IfOk result (λ h. GivesTreeOf (can_be sign (tree_of cond.now) parts.now) arena.old arena.new h) }
    ensures small { OnOk result (AreSmall arena.old.nullable parts.now limit sign (tree_of cond.now)) }
    ensures over { IfErr result (λ fault. fault ≡ GraphFault.OverLimit → AreSmall arena.old.nullable parts.now limit sign (tree_of cond.now) → ⊥) }
    ensures err { OnErr result (Steps arena.old arena.new [] []) }
{
    let made = single(alloc, arena, parts, sign, cond)?;
    within(arena, made, limit)
}
