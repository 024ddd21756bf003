//! Lists of calls by chance, compared with plain sets of tuples.

ghost use Rattle.std.specs.Prelude.{◌≡◌, ◌<◌, ◌-◌, ◌+◌, ◌^◌, ℕ, List, [], ◌∷◌, IfOk, OnOk, OnErr};
ghost use Rattle.rx_level.specs.Step.{Lent};
ghost use Rattle.rx_graph.specs.Graph.{IsHeld, Steps, handle_count};

use crate::carried::{Call, called};
use crate::faults::Fault;
use crate::grids::{
    CELLS, cell_of, cells_span, chosen, combined, end_at, first_cell, is_chosen, is_full, is_tuple,
    items_of,
};
use rx_graph::{Arena, GraphFault, Handle, Root};
use rx_level::{Levels, Link};
use rx_value::{SpanList, is_at_most};
use std::alloc::{AllocError, Global};

// The most items on the way to a tuple's place.
const STEPS: u64 = 1_000;

// The limits of calls are below this.
const MOST_ITEMS: u64 = 60;

// Numbers by chance, the same for the same seed.
#[derive(Clone, Copy)]
struct Dice {
    state: u64,
}

impl Dice {
    // The next number below another.
    fn roll(&mut self, sides: u64) -> u64
        requires { 0 < sides }
        ensures { result < sides }
    {
        let state = self.state.wrapping_mul(6_364_136_223_846_793_005);
        self.state = state.wrapping_add(1_442_695_040_888_963_407);
        (self.state >> 33) % sides
    }
}

// Whether a lent level holds the tuple with a number, read item by item in so many steps at most. The parts behind
// that of the level have so many tuples.
fn level_holds(levels: &Levels, root: Link, tuple: usize, later: usize, steps: u64) -> bool
    requires { Lent levels.now [] root }
{
    let Some(seen) = levels.look(root) else {
        return false;
    };
    if steps == 0 || later == 0 {
        return false;
    }
    let cell = cell_of(tuple, later);
    if is_at_most(&end_at(cell.saturating_add(1)), &seen.span.lo) {
        return level_holds(levels, seen.left, tuple, later, steps - 1);
    }
    if is_at_most(&seen.span.hi, &end_at(cell)) {
        return level_holds(levels, seen.right, tuple, later, steps - 1);
    }
    match seen.child {
        Some(_) => level_holds(levels, seen.child, tuple, later / CELLS, steps - 1),
        None => true,
    }
}

// Whether a lent level holds the tuples of a set over these parts and no others.
fn level_like(levels: &Levels, root: Link, parts: &[bool], set: &[bool]) -> bool
    requires { Lent levels.now [] root }
{
    let later = set.len() / CELLS;
    for (tuple, held) in set.iter().enumerate() {
        if is_tuple(parts, tuple, later)
            && level_holds(levels, root, tuple, later, STEPS) != *held
        {
            return false;
        }
    }
    true
}

// Whether a graph holds the tuples of a set and no others, in as many items as that asks for.
fn is_like(arena: &Arena, h: &Handle, set: &[bool]) -> bool
    requires { IsHeld arena.now (h.now ∷ []) }
{
    let parts = arena.parts();
    if arena.tree_size(h) != items_of(parts, set) {
        return false;
    }
    match h.root() {
        Root::Everything => is_full(parts, set),
        Root::Nothing => !set.contains(&true),
        Root::Items(key) => level_like(arena.levels(), Some(key), parts, set),
    }
}

// The spans of the cells of a part that the bits of a number choose, touching ones as one.
fn spans_of(alloc: Global, nullable: bool, cells: u64) -> Result<SpanList, AllocError> {
    let mut spans = SpanList::new(alloc);
    let mut from = None;
    for cell in first_cell(nullable)..CELLS + 1 {
        let held = cell < CELLS && is_chosen(cells, cell);
        match from {
            None if held => from = Some(cell),
            Some(first) if !held => {
                spans.push(cells_span(first, cell))?;
                from = None;
            }
            _ => {}
        }
    }
    Ok(spans)
}

// The graph of some cells of a part.
fn points(alloc: Global, arena: &mut Arena, part: usize, cells: u64) -> Result<Handle, Fault>
    requires few { handle_count arena.old < 2 ^ 32 - 1 }
    ensures ok { IfOk result (λ h. Steps arena.old arena.new [] (h ∷ [])) }
    ensures err { OnErr result (Steps arena.old arena.new [] []) }
    ensures count { OnOk result (handle_count arena.new ≡ handle_count arena.old + 1) }
    ensures err_count { OnErr result (handle_count arena.new ≡ handle_count arena.old) }
{
    let nullable = arena.parts().get(part).copied().unwrap_or(false);
    let Ok(spans) = spans_of(alloc, nullable, cells) else {
        return Err(Fault::NoMemory);
    };
    let Ok(part) = u32::try_from(part) else {
        return Err(Fault::Unreadable);
    };
    if !arena.accepts(part, &spans) {
        return Err(Fault::Refused);
    }
    match arena.point_set(part, spans) {
        Ok(h) => Ok(h),
        Err(AllocError) => Err(Fault::NoMemory),
    }
}

// The graph of all keys, or of none.
fn all_or_none(arena: &mut Arena, all: bool) -> Handle
    requires few { handle_count arena.old < 2 ^ 32 - 1 }
    ensures step { Steps arena.old arena.new [] (result ∷ []) }
    ensures count { handle_count arena.new ≡ handle_count arena.old + 1 }
{
    if all {
        arena.everything()
    } else {
        arena.nothing()
    }
}

// The set of all tuples, or of none.
fn all_cells(alloc: Global, parts: &[bool], all: bool) -> Result<Vec<bool>, AllocError> {
    chosen(alloc, parts, 0, if all { u64::MAX } else { 0 })
}

// A call by chance: the cells of a part that it puts its graph together with, and the limit.
#[derive(Clone, Copy)]
struct Draw {
    call: Call,
    part: usize,
    cells: u64,
    limit: u64,
    all_next: bool,
}

// The next call, over so many parts.
fn drawn(dice: &mut Dice, parts: u64) -> Draw
    requires { 0 < parts }
{
    let call = if dice.roll(2) == 0 {
        Call::And
    } else {
        Call::Or
    };
    Draw {
        call,
        part: dice.roll(parts) as usize,
        cells: dice.roll(1 << CELLS),
        limit: dice.roll(MOST_ITEMS),
        all_next: dice.roll(2) == 0,
    }
}

// The set that a call makes of one.
fn wanted_of(
    alloc: Global,
    parts: &[bool],
    draw: Draw,
    set: &[bool],
) -> Result<Vec<bool>, AllocError> {
    let other = chosen(alloc, parts, draw.part, draw.cells)?;
    combined(alloc, matches!(draw.call, Call::And), set, other.as_slice())
}

// What a call made, which must be like a set.
fn judged(arena: &mut Arena, whole: Handle, fits: bool, wanted: &[bool]) -> Result<Handle, Fault>
    requires held { IsHeld arena.old (whole ∷ []) }
    ensures ok { IfOk result (λ h. Steps arena.old arena.new (whole ∷ []) (h ∷ [])) }
    ensures count { OnOk result (handle_count arena.new ≡ handle_count arena.old) }
{
    if fits && is_like(arena, &whole, wanted) {
        return Ok(whole);
    }
    arena.release(whole);
    Err(Fault::Differs)
}

// Carries out a call on a graph that is like a set, which somebody else holds too, and gives what it makes; where that
// passes the limit, a graph to go on with, and true.
fn step(
    alloc: Global,
    arena: &mut Arena,
    draw: Draw,
    g: Handle,
    set: &[bool],
    wanted: &[bool],
) -> Result<(Handle, bool), Fault>
    requires held { IsHeld arena.old (g ∷ []) }
    requires few { handle_count arena.old < 2 ^ 32 - 2 }
    ensures steps { IfOk result (λ made. Steps arena.old arena.new (g ∷ []) (made.0 ∷ [])) }
    ensures count { OnOk result (handle_count arena.new ≡ handle_count arena.old) }
{
    let h = match points(alloc, arena, draw.part, draw.cells) {
        Ok(h) => h,
        Err(fault) => {
            arena.release(g);
            return Err(fault);
        }
    };
    let twin = arena.share(&g);
    let made = called(alloc, arena, draw.call, g, h, draw.limit);
    let kept = is_like(arena, &twin, set);
    arena.release(twin);
    let fits = items_of(arena.parts(), wanted) <= draw.limit;
    match made {
        Ok(whole) => match judged(arena, whole, kept && fits, wanted) {
            Ok(whole) => Ok((whole, false)),
            Err(fault) => Err(fault),
        },
        Err(GraphFault::OverLimit) if kept && !fits => {
            let fresh = all_or_none(arena, draw.all_next);
            Ok((fresh, true))
        }
        Err(GraphFault::OverLimit) => Err(Fault::Differs),
        Err(GraphFault::NoMemory) => Err(Fault::NoMemory),
    }
}

// The set that the next call begins with.
fn next_of(
    alloc: Global,
    parts: &[bool],
    draw: Draw,
    over: bool,
    wanted: Vec<bool>,
) -> Result<Vec<bool>, AllocError> {
    if over {
        all_cells(alloc, parts, draw.all_next)
    } else {
        Ok(wanted)
    }
}

// Carries out so many calls on a graph that is like a set, one after the other.
fn calls(
    alloc: Global,
    arena: &mut Arena,
    dice: &mut Dice,
    g: Handle,
    set: &[bool],
    count: u64,
) -> Result<(), Fault>
    requires held { IsHeld arena.old (g ∷ []) }
    requires few { handle_count arena.old < 2 ^ 32 - 2 }
{
    let parts = arena.parts().len() as u64;
    if count == 0 || parts == 0 {
        arena.release(g);
        return Ok(());
    }
    let draw = drawn(dice, parts);
    let Ok(wanted) = wanted_of(alloc, arena.parts(), draw, set) else {
        arena.release(g);
        return Err(Fault::NoMemory);
    };
    let (made, over) = match step(alloc, arena, draw, g, set, wanted.as_slice()) {
        Ok(made) => made,
        Err(fault) => return Err(fault),
    };
    let Ok(next) = next_of(alloc, arena.parts(), draw, over, wanted) else {
        arena.release(made);
        return Err(Fault::NoMemory);
    };
    calls(alloc, arena, dice, made, next.as_slice(), count - 1)
}

/// Carries out so many calls by chance, and compares what each makes with a plain set: which tuples it holds, how many
/// items it has, whether it passes the limit, and that who shared it before the call keeps it.
///
/// # Errors
///
/// Differs where a graph isn't like its set, and those of the calls.
pub fn lists_within(alloc: Global, arena: &mut Arena, seed: u64, count: u64) -> Result<(), Fault>
    requires few { handle_count arena.old ≡ 0 }
{
    let Ok(set) = all_cells(alloc, arena.parts(), false) else {
        return Err(Fault::NoMemory);
    };
    let mut dice = Dice { state: seed };
    let none = arena.nothing();
    calls(alloc, arena, &mut dice, none, set.as_slice(), count)
}
