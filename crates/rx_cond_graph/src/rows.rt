//! The graphs of IN over rows.

ghost use Rattle.std.specs.Prelude.{◌≡◌, [], ◌∷◌, IfOk, IfErr, OnErr, length};
ghost use Rattle.rx_graph.specs.Graph.{Steps, IsHeld, tree_in};
ghost use Rattle.rx_sets.specs.Sets.{KeySet, IsTreeOf};
ghost use Rattle.rx_cond_graph.specs.Giving.{GivesTreeOf, agree_all, agree_any, combined};

use crate::combining::combine;
use crate::leaves::{all_or_none, compared};
use rx_cond::Op;
use rx_graph::{Arena, GraphFault, Handle};
use rx_value::{Key, Part, Value};
use std::alloc::Global;

// Both graphs met or united without a limit: a tree of 2 ^ 64 items is more than memory holds.
fn combine_all(
    alloc: Global,
    arena: &mut Arena,
    meets: bool,
    g: Handle,
    h: Handle,
) -> Result<Handle, GraphFault>
    requires { IsHeld arena.old (g ∷ h ∷ []) }
    ensures ok { IfOk result (λ r. Steps arena.old arena.new (g ∷ h ∷ []) (r ∷ [])) }
    ensures tree { IfOk result (λ r. (e f : KeySet) → IsTreeOf arena.old.nullable e (tree_in arena.old g) → IsTreeOf arena.old.nullable f (tree_in arena.old h) → IsTreeOf arena.old.nullable (combined meets e f) (tree_in arena.new r)) }
    ensures only { IfErr result (λ fault. fault ≡ GraphFault.NoMemory) }
    ensures err { OnErr result (Steps arena.old arena.new (g ∷ h ∷ []) []) }
{
    match combine(alloc, arena, meets, g, h, u64::MAX) {
        Ok(made) => Ok(made),
        Err(_) => Err(GraphFault::NoMemory),
    }
}

// The graph of the keys that agree with a list of values on these columns, place by place.
fn row(
    alloc: Global,
    arena: &mut Arena,
    parts: &[Part],
    columns: &[u32],
    key: &[Value],
) -> Result<Handle, GraphFault>
    requires { length parts.now ≡ length arena.old.nullable }
    ensures ok { IfOk result (λ h. GivesTreeOf (agree_all parts.now columns.now key.now) arena.old arena.new h) }
    ensures only { IfErr result (λ fault. fault ≡ GraphFault.NoMemory) }
    ensures err { OnErr result (Steps arena.old arena.new [] []) }
{
    let mut whole = all_or_none(arena, true)?;
    let (mut columns, mut values) = (columns, key);
    'values: while let Some((column, more)) = columns.split_first() {
        let Some((value, others)) = values.split_first() else {
            break;
        };
        let next = match compared(alloc, arena, parts, true, Op::Eq, *column, value) {
            Ok(next) => next,
            Err(fault) => {
                arena.release(whole);
                return Err(fault);
            }
        };
        whole = combine_all(alloc, arena, true, whole, next)?;
        columns = more;
        values = others;
    }
    Ok(whole)
}

/// The graph of the keys that agree with one of these lists of values on these columns.
pub(crate) fn rows(
    alloc: Global,
    arena: &mut Arena,
    parts: &[Part],
    columns: &[u32],
    list: &[Key],
) -> Result<Handle, GraphFault>
    requires { length parts.now ≡ length arena.old.nullable }
    ensures ok { IfOk result (λ h. GivesTreeOf (agree_any parts.now columns.now list.now) arena.old arena.new h) }
    ensures only { IfErr result (λ fault. fault ≡ GraphFault.NoMemory) }
    ensures err { OnErr result (Steps arena.old arena.new [] []) }
{
    let mut whole = all_or_none(arena, false)?;
    'keys: for key in list {
        let next = match row(alloc, arena, parts, columns, key.as_slice()) {
            Ok(next) => next,
            Err(fault) => {
                arena.release(whole);
                return Err(fault);
            }
        };
        whole = combine_all(alloc, arena, false, whole, next)?;
    }
    Ok(whole)
}
