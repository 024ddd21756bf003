//! Graphs made as either of two halves.

ghost use Rattle.std.specs.Prelude.{◌≡◌, ◌<◌, ◌≤◌, ◌-◌, ◌+◌, ◌^◌, ◌∷◌, List, [], IfOk, OnOk, OnErr};
ghost use Rattle.rx_graph.specs.Graph.{Steps, IsHeld, handle_count};

use crate::faults::Fault;
use crate::numbered::{LIMIT, Range, point, tell_end};
use rx_graph::{Arena, Handle};
use rx_or::or;
use std::alloc::{AllocError, Global};
use std::io::Print;

// The fewest points of a half of which a line tells.
const FEWEST_TOLD: u64 = 65_536;

// Prints how many items are live after two halves were put together, where both are large.
fn tell(rt: &impl Print, first: u64, second: u64, live: u64) -> Result<(), Fault> {
    if first < FEWEST_TOLD || second < FEWEST_TOLD {
        return Ok(());
    }
    match println!(rt; "{first} and {second} items: {live} live after") {
        Ok(()) => Ok(()),
        Err(_) => Err(Fault::NotPrinted),
    }
}

// Either of two halves, which are spent.
fn joined(
    rt: &impl Print,
    alloc: Global,
    arena: &mut Arena,
    g: Handle,
    h: Handle,
) -> Result<Handle, Fault>
    requires held { IsHeld arena.old (g ∷ h ∷ []) }
    ensures ok { IfOk result (λ r. Steps arena.old arena.new (g ∷ h ∷ []) (r ∷ [])) }
    ensures err { OnErr result (Steps arena.old arena.new (g ∷ h ∷ []) []) }
    ensures count { OnOk result (handle_count arena.new + 1 ≡ handle_count arena.old) }
    ensures err_count { OnErr result (handle_count arena.new + 2 ≡ handle_count arena.old) }
{
    let (first, second) = (arena.tree_size(&g), arena.tree_size(&h));
    let whole = match or(alloc, arena, g, h, LIMIT) {
        Ok(whole) => whole,
        Err(fault) => return Err(Fault::of(fault)),
    };
    match tell(rt, first, second, arena.live()) {
        Ok(()) => Ok(whole),
        Err(fault) => {
            arena.release(whole);
            Err(fault)
        }
    }
}

// The graph of the points of a range, as either of its two halves.
fn graph_of(
    rt: &impl Print,
    alloc: Global,
    arena: &mut Arena,
    range: Range,
) -> Result<Handle, Fault>
    requires few { handle_count arena.old + range.count < 2 ^ 32 - 1 }
    ensures ok { IfOk result (λ r. Steps arena.old arena.new [] (r ∷ [])) }
    ensures err { OnErr result (Steps arena.old arena.new [] []) }
    ensures count { OnOk result (handle_count arena.new ≡ handle_count arena.old + 1) }
    ensures err_count { OnErr result (handle_count arena.new ≡ handle_count arena.old) }
{
    let Range { from, count } = range;
    if count <= 1 {
        return point(alloc, arena, from);
    }
    let half = count / 2;
    let front = Range { from, count: half };
    let back = Range {
        from: from.saturating_add(half),
        count: count - half,
    };
    let g = match graph_of(rt, alloc, arena, front) {
        Ok(g) => g,
        Err(fault) => return Err(fault),
    };
    match graph_of(rt, alloc, arena, back) {
        Ok(h) => match joined(rt, alloc, arena, g, h) {
            Ok(whole) => Ok(whole),
            Err(fault) => Err(fault),
        },
        Err(fault) => {
            arena.release(g);
            Err(fault)
        }
    }
}

/// Makes the graph of so many points as either of two halves, which are made the same way, and gives all
/// back. Prints for each two halves of at least 65,536 points how many items are live after.
///
/// # Errors
///
/// OverLimit beyond 1,000,000 points, NotAccepted where the arena doesn't take a point, NotPrinted where a
/// line can't be printed, NoMemory where memory is wanting.
pub fn by_halves(rt: &impl Print, alloc: Global, count: u64) -> Result<(), Fault>
    requires { count < 2 ^ 32 - 1 }
{
    let mut arena = match Arena::new(alloc, &[false]) {
        Ok(arena) => arena,
        Err(AllocError) => return Err(Fault::NoMemory),
    };
    let range = Range { from: 0, count };
    let whole = match graph_of(rt, alloc, &mut arena, range) {
        Ok(whole) => whole,
        Err(fault) => return Err(fault),
    };
    let points = arena.tree_size(&whole);
    arena.release(whole);
    tell_end(rt, points, arena.live())
}
