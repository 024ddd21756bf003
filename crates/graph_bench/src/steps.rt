//! Graphs made by laying one point after the other over nothing.

ghost use Rattle.std.specs.Prelude.{◌≡◌, ℕ, ◌<◌, ◌≤◌, ◌-◌, ◌+◌, ◌*◌, ◌^◌, ◌∷◌, List, [], max, IfOk, OnOk, OnErr};
ghost use Rattle.rx_graph.specs.Graph.{Steps, IsHeld, handle_count};

use crate::faults::Fault;
use crate::numbered::{LIMIT, Range, point, tell_end};
use rx_graph::{Arena, Handle};
use rx_or::or;
use std::alloc::{AllocError, Global};
use std::io::Print;

/// What the steps since the last line made.
#[derive(Clone, Copy)]
struct Pace {
    /// The greatest number of new items of one step.
    made: u64,
    /// How many items the graph of the last step had.
    items: u64,
    /// How many steps there were.
    steps: u64,
}

impl Pace {
    fn none() -> Pace
        ensures { result.made ≡ 0 }
    {
        Pace {
            made: 0,
            items: 0,
            steps: 0,
        }
    }

    // The pace with one more step, over a graph of so many items.
    fn with(self, items: u64, made: u64) -> Pace
        ensures made { result.made ≡ max self.made made }
        ensures items { result.items ≡ items }
    {
        Pace {
            made: self.made.max(made),
            items,
            steps: self.steps.saturating_add(1),
        }
    }
}

// How many bits a number has.
#[tactic(auto, using(crate::proofs::Bits::enough, crate::proofs::Bits::least))]
fn bits(n: u64) -> u64
    ensures few { result ≤ 64 }
    ensures enough { n < 2 ^ result }
    ensures least { 2 ^ result ≤ 2 * n + 1 }
{
    64 - n.leading_zeros() as u64
}

// How many new items a step over so many may make: no more than by any number of bits that they have.
fn allowed(items: u64) -> u64
    ensures least { (bits : ℕ) → items < 2 ^ bits → result ≤ 16 * bits + 16 }
    ensures enough { 16 ≤ result }
{
    16 * bits(items) + 16
}

// Prints one line of what the steps made.
fn tell(rt: &impl Print, pace: Pace) -> Result<(), Fault> {
    let Pace { made, items, .. } = pace;
    let allowed = allowed(items);
    match println!(rt; "{items} items: at most {made} new in one step, of {allowed} allowed") {
        Ok(()) => Ok(()),
        Err(_) => Err(Fault::NotPrinted),
    }
}

// Takes one more step into the pace, and prints it where the step was over a power of two of items. It is
// TooMany where the step made more new items than are allowed.
fn take_step(rt: &impl Print, pace: &mut Pace, items: u64, made: u64) -> Result<(), Fault>
    ensures allowed { OnOk result ((bits : ℕ) → items < 2 ^ bits → made ≤ 16 * bits + 16) }
{
    if made > allowed(items) {
        return Err(Fault::TooMany { made, items });
    }
    *pace = pace.with(items, made);
    if !items.is_power_of_two() {
        return Ok(());
    }
    let told = tell(rt, *pace);
    *pace = Pace::none();
    told
}

// Lays a point over a graph that somebody else holds too, so that each new item is one more. Gives the
// graph that holds it too.
fn with_point(
    rt: &impl Print,
    alloc: Global,
    arena: &mut Arena,
    g: Handle,
    number: u64,
    pace: &mut Pace,
) -> Result<Handle, Fault>
    requires held { IsHeld arena.old (g ∷ []) }
    requires few { handle_count arena.old < 2 ^ 32 - 2 }
    ensures ok { IfOk result (λ r. Steps arena.old arena.new (g ∷ []) (r ∷ [])) }
    ensures err { OnErr result (Steps arena.old arena.new (g ∷ []) []) }
    ensures count { OnOk result (handle_count arena.new ≡ handle_count arena.old) }
{
    let before = arena.live();
    let items = arena.tree_size(&g);
    let other = arena.share(&g);
    let h = match point(alloc, arena, number) {
        Ok(h) => h,
        Err(fault) => {
            arena.release(g);
            arena.release(other);
            return Err(fault);
        }
    };
    let made = or(alloc, arena, g, h, LIMIT);
    let new = arena.live().saturating_sub(before);
    arena.release(other);
    let whole = match made {
        Ok(whole) => whole,
        Err(fault) => return Err(Fault::of(fault)),
    };
    match take_step(rt, pace, items, new) {
        Ok(()) => Ok(whole),
        Err(fault) => {
            arena.release(whole);
            Err(fault)
        }
    }
}

// Lays the points of a range over a graph, one at a time.
fn with_points(
    rt: &impl Print,
    alloc: Global,
    arena: &mut Arena,
    g: Handle,
    range: Range,
    pace: &mut Pace,
) -> Result<Handle, Fault>
    requires held { IsHeld arena.old (g ∷ []) }
    requires few { handle_count arena.old < 2 ^ 32 - 2 }
    ensures ok { IfOk result (λ r. Steps arena.old arena.new (g ∷ []) (r ∷ [])) }
    ensures err { OnErr result (Steps arena.old arena.new (g ∷ []) []) }
    ensures count { OnOk result (handle_count arena.new ≡ handle_count arena.old) }
{
    let Range { from, count } = range;
    if count <= 1 {
        return with_point(rt, alloc, arena, g, from, pace);
    }
    let half = count / 2;
    let front = Range { from, count: half };
    let back = Range {
        from: from.saturating_add(half),
        count: count - half,
    };
    match with_points(rt, alloc, arena, g, front, pace) {
        Ok(first) => with_points(rt, alloc, arena, first, back, pace),
        Err(fault) => Err(fault),
    }
}

/// Lays so many points over nothing one at a time, and gives all back. Prints after each step over a power of
/// two of items, and after the last step, the greatest number of new items that a step made since the line
/// before, and how many a step over so many items may make.
///
/// # Errors
///
/// TooMany where a step makes more new items than are allowed, OverLimit beyond 1,000,000 points, NotAccepted
/// where the arena doesn't take a point, NotPrinted where a line can't be printed, NoMemory where memory is
/// wanting.
pub fn one_at_a_time(rt: &impl Print, alloc: Global, count: u64) -> Result<(), Fault> {
    let mut arena = match Arena::new(alloc, &[false]) {
        Ok(arena) => arena,
        Err(AllocError) => return Err(Fault::NoMemory),
    };
    let mut pace = Pace::none();
    let range = Range { from: 0, count };
    let none = arena.nothing();
    let whole = match with_points(rt, alloc, &mut arena, none, range, &mut pace) {
        Ok(whole) => whole,
        Err(fault) => return Err(fault),
    };
    let points = arena.tree_size(&whole);
    arena.release(whole);
    if pace.steps > 0 {
        tell(rt, pace)?;
    }
    tell_end(rt, points, arena.live())
}
