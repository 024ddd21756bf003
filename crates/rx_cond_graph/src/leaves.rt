//! The graphs of single tests.

ghost use Rattle.std.specs.Prelude.{◌≡◌, ◌<◌, ◌-◌, ◌^◌, true, [], IfOk, IfErr, OnErr, length};
ghost use Rattle.rx_tree.specs.Points.{AreSpansAt, is_inside_at};
ghost use Rattle.rx_graph.specs.Graph.{Steps, handle_count};
ghost use Rattle.rx_regions.specs.Cans.{at_spot, begins, compares, lists, spot_of};
ghost use Rattle.rx_cond_graph.specs.Giving.{GivesTreeOf};

use crate::spots::spot_of;
use rx_cond::Op;
use rx_graph::{Arena, GraphFault, Handle};
use rx_single::{comparison_spans, list_spans, pattern_spans};
use rx_value::{Part, SpanList, Value};
use std::alloc::Global;

// The most handles that an arena lets in.
const MOST_HANDLES: u64 = 4_294_967_295;

fn has_room(arena: &Arena) -> bool
    ensures { result ≡ true → handle_count arena.now < 2 ^ 32 - 1 }
{
    arena.handles() < MOST_HANDLES
}

/// The graph of all keys, or of none.
pub(crate) fn all_or_none(arena: &mut Arena, all: bool) -> Result<Handle, GraphFault>
    ensures ok { IfOk result (λ h. GivesTreeOf (λ ps. all) arena.old arena.new h) }
    ensures only { IfErr result (λ fault. fault ≡ GraphFault.NoMemory) }
    ensures err { OnErr result (Steps arena.old arena.new [] []) }
{
    if !has_room(arena) {
        return Err(GraphFault::NoMemory);
    }
    if all {
        return Ok(arena.everything());
    }
    Ok(arena.nothing())
}

// The graph of the keys whose part at this place is in one of the spans.
fn spans_at(arena: &mut Arena, place: u32, spans: SpanList) -> Result<Handle, GraphFault>
    requires { AreSpansAt arena.old.nullable place spans }
    ensures ok { IfOk result (λ h. GivesTreeOf (is_inside_at place spans) arena.old arena.new h) }
    ensures only { IfErr result (λ fault. fault ≡ GraphFault.NoMemory) }
    ensures err { OnErr result (Steps arena.old arena.new [] []) }
{
    if !has_room(arena) {
        return Err(GraphFault::NoMemory);
    }
    match arena.point_set(place, spans) {
        Ok(made) => Ok(made),
        Err(_) => Err(GraphFault::NoMemory),
    }
}

/// The graph of the keys at which a comparison of a column with a value can have this truth: all, where no part is that column.
pub(crate) fn compared(
    alloc: Global,
    arena: &mut Arena,
    parts: &[Part],
    sign: bool,
    op: Op,
    column: u32,
    value: &Value,
) -> Result<Handle, GraphFault>
    requires { length parts.now ≡ length arena.old.nullable }
    ensures ok { IfOk result (λ h. GivesTreeOf (λ ps. at_spot (compares sign op value.now) (spot_of column parts.now ps)) arena.old arena.new h) }
    ensures only { IfErr result (λ fault. fault ≡ GraphFault.NoMemory) }
    ensures err { OnErr result (Steps arena.old arena.new [] []) }
{
    let Some(spot) = spot_of(arena.parts(), parts, column) else {
        let all = all_or_none(arena, true)?;
        return Ok(all);
    };
    let Ok(spans) = comparison_spans(alloc, spot.nullable, spot.chars, sign, op, value) else {
        return Err(GraphFault::NoMemory);
    };
    let made = spans_at(arena, spot.place, spans)?;
    Ok(made)
}

/// The same for IN over a list of values.
pub(crate) fn listed(
    alloc: Global,
    arena: &mut Arena,
    parts: &[Part],
    sign: bool,
    column: u32,
    list: &[Value],
) -> Result<Handle, GraphFault>
    requires { length parts.now ≡ length arena.old.nullable }
    ensures ok { IfOk result (λ h. GivesTreeOf (λ ps. at_spot (lists sign list.now) (spot_of column parts.now ps)) arena.old arena.new h) }
    ensures only { IfErr result (λ fault. fault ≡ GraphFault.NoMemory) }
    ensures err { OnErr result (Steps arena.old arena.new [] []) }
{
    let Some(spot) = spot_of(arena.parts(), parts, column) else {
        let all = all_or_none(arena, true)?;
        return Ok(all);
    };
    let Ok(spans) = list_spans(alloc, spot.nullable, spot.chars, sign, list) else {
        return Err(GraphFault::NoMemory);
    };
    let made = spans_at(arena, spot.place, spans)?;
    Ok(made)
}

/// The graph of the keys at which LIKE of a column can be true.
pub(crate) fn patterned(
    alloc: Global,
    arena: &mut Arena,
    parts: &[Part],
    column: u32,
    pattern: &[u8],
) -> Result<Handle, GraphFault>
    requires { length parts.now ≡ length arena.old.nullable }
    ensures ok { IfOk result (λ h. GivesTreeOf (λ ps. at_spot (begins pattern.now) (spot_of column parts.now ps)) arena.old arena.new h) }
    ensures only { IfErr result (λ fault. fault ≡ GraphFault.NoMemory) }
    ensures err { OnErr result (Steps arena.old arena.new [] []) }
{
    let Some(spot) = spot_of(arena.parts(), parts, column) else {
        let all = all_or_none(arena, true)?;
        return Ok(all);
    };
    let Ok(spans) = pattern_spans(alloc, spot.nullable, spot.chars, pattern) else {
        return Err(GraphFault::NoMemory);
    };
    let made = spans_at(arena, spot.place, spans)?;
    Ok(made)
}
