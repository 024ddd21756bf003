//! The calls of a case, and what is left of them.

ghost use Rattle.std.specs.Prelude.{◌≡◌, ◌<◌, ◌-◌, ◌+◌, ◌^◌, List, [], ◌∷◌, IfOk, OnOk, OnErr};
ghost use Rattle.rx_graph.specs.Graph.{IsHeld, Steps, handle_count};

use crate::faults::Fault;
use crate::operands::operand;
use crate::told::Told;
use rx_and::and;
use rx_graph::{Arena, GraphFault, Handle};
use rx_or::or;
use std::alloc::Global;

/// Which call a case is about.
#[derive(Clone, Copy)]
pub enum Call {
    And,
    Or,
}

/// What two graphs have in common, or either. Both are spent in every case.
pub fn called(
    alloc: Global,
    arena: &mut Arena,
    call: Call,
    g: Handle,
    h: Handle,
    limit: u64,
) -> Result<Handle, GraphFault>
    requires held { IsHeld arena.old (g ∷ h ∷ []) }
    ensures ok { IfOk result (λ r. Steps arena.old arena.new (g ∷ h ∷ []) (r ∷ [])) }
    ensures err { OnErr result (Steps arena.old arena.new (g ∷ h ∷ []) []) }
    ensures count { OnOk result (handle_count arena.new + 1 ≡ handle_count arena.old) }
    ensures err_count { OnErr result (handle_count arena.new + 2 ≡ handle_count arena.old) }
{
    match call {
        Call::And => and(alloc, arena, g, h, limit),
        Call::Or => or(alloc, arena, g, h, limit),
    }
}

// Whether a graph is the same as nothing.
fn is_nothing(arena: &mut Arena, h: &Handle) -> bool
    requires held { IsHeld arena.old (h.now ∷ []) }
    requires few { handle_count arena.old < 2 ^ 32 - 1 }
    ensures step { Steps arena.old arena.new [] [] }
    ensures count { handle_count arena.new ≡ handle_count arena.old }
{
    let none = arena.nothing();
    let same = arena.same(h, &none);
    arena.release(none);
    same
}

// What is told of a graph, and of the one that was shared before the call. Both are spent.
fn told_of(arena: &mut Arena, whole: Handle, other: Handle) -> Result<Told, Fault>
    requires held { IsHeld arena.old (whole ∷ other ∷ []) }
    requires few { handle_count arena.old < 2 ^ 32 - 1 }
{
    let mut told = Told::new();
    told.first = arena.levels().count(whole.link());
    told.size = arena.tree_size(&whole);
    let items = arena.items(&whole);
    told.live = arena.live();
    told.handles = arena.handles();
    told.other = arena.tree_size(&other);
    arena.release(other);
    told.alone = arena.live();
    told.nothing = u64::from(is_nothing(arena, &whole));
    arena.release(whole);
    match items {
        Ok(items) => {
            told.items = items;
            Ok(told)
        }
        Err(_) => Err(Fault::NoMemory),
    }
}

/// What a call makes of two graphs, the first of which is shared once before.
pub fn call_told(
    alloc: Global,
    arena: &mut Arena,
    call: Call,
    g: &[&str],
    h: &[&str],
    limit: u64,
) -> Result<Told, Fault>
    requires few { handle_count arena.old < 2 ^ 32 - 4 }
{
    let g = match operand(alloc, arena, g) {
        Ok(g) => g,
        Err(fault) => return Err(fault),
    };
    let h = match operand(alloc, arena, h) {
        Ok(h) => h,
        Err(fault) => {
            arena.release(g);
            return Err(fault);
        }
    };
    let other = arena.share(&g);
    match called(alloc, arena, call, g, h, limit) {
        Ok(whole) => told_of(arena, whole, other),
        Err(fault) => {
            arena.release(other);
            Err(Fault::of(fault))
        }
    }
}

// What is told of two graphs that stay as they are. Both are spent.
fn both_told(arena: &mut Arena, g: Handle, h: Handle) -> Result<Told, Fault>
    requires held { IsHeld arena.old (g ∷ h ∷ []) }
    requires few { handle_count arena.old < 2 ^ 32 - 1 }
{
    let mut told = Told::new();
    told.size = arena.tree_size(&g);
    told.second = arena.tree_size(&h);
    told.same = u64::from(arena.same(&g, &h));
    told.live = arena.live();
    told.handles = arena.handles();
    let items = arena.items(&h);
    arena.release(h);
    told.alone = arena.live();
    arena.release(g);
    match items {
        Ok(items) => {
            told.items = items;
            Ok(told)
        }
        Err(_) => Err(Fault::NoMemory),
    }
}

/// What is told of two graphs side by side: the second's different items, and the items of the arena when it
/// is given back.
pub fn pair_told(alloc: Global, arena: &mut Arena, g: &[&str], h: &[&str]) -> Result<Told, Fault>
    requires few { handle_count arena.old < 2 ^ 32 - 4 }
{
    let g = match operand(alloc, arena, g) {
        Ok(g) => g,
        Err(fault) => return Err(fault),
    };
    match operand(alloc, arena, h) {
        Ok(h) => both_told(arena, g, h),
        Err(fault) => {
            arena.release(g);
            Err(fault)
        }
    }
}

// What all graphs from a place on have in common with one, which is spent, met one after the other. Gives how
// many there were before the limit was passed.
fn met_from(
    alloc: Global,
    arena: &mut Arena,
    g: Handle,
    graphs: &[&str],
    limit: u64,
) -> Result<u64, Fault>
    requires held { IsHeld arena.old (g ∷ []) }
    requires few { handle_count arena.old < 2 ^ 32 - 2 }
{
    let [next, rest @ ..] = graphs else {
        arena.release(g);
        return Ok(0);
    };
    let h = match operand(alloc, arena, &[*next]) {
        Ok(h) => h,
        Err(fault) => {
            arena.release(g);
            return Err(fault);
        }
    };
    match and(alloc, arena, g, h, limit) {
        Ok(whole) => Ok(met_from(alloc, arena, whole, rest, limit)?.saturating_add(1)),
        Err(GraphFault::OverLimit) => Ok(0),
        Err(GraphFault::NoMemory) => Err(Fault::NoMemory),
    }
}

/// How many graphs can be met one after the other before the limit is passed.
pub fn met_within(
    alloc: Global,
    arena: &mut Arena,
    graphs: &[&str],
    limit: u64,
) -> Result<u64, Fault>
    requires few { handle_count arena.old < 2 ^ 32 - 4 }
{
    let all = arena.everything();
    met_from(alloc, arena, all, graphs, limit)
}
