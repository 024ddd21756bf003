//! Points by number, and the graph of one.

ghost use Rattle.std.specs.Prelude.{◌≡◌, ◌<◌, ◌-◌, ◌+◌, ◌^◌, ◌∷◌, List, [], IfOk, OnOk, OnErr};
ghost use Rattle.rx_graph.specs.Graph.{Steps, handle_count};

use crate::faults::Fault;
use rx_graph::{Arena, Handle};
use rx_value::{End, Side, Span, SpanList, Value};
use std::alloc::{AllocError, Global};
use std::io::Print;

/// The most items that a graph may have.
pub const LIMIT: u64 = 1_000_000;

/// A range of the numbers of points.
#[derive(Clone, Copy)]
pub struct Range {
    /// The first number.
    pub from: u64,
    /// How many numbers there are.
    pub count: u64,
}

fn cut(n: i128, side: Side) -> End {
    End::Cut {
        at: Value::Int(n),
        side,
    }
}

// The value of a point by its number: neighbours by number lie far apart, and no two below 1,000,003 are
// the same.
fn value_of(number: u64) -> i128 {
    (number as u128 * 618_034 % 1_000_003) as i128
}

fn one_value(alloc: Global, n: i128) -> Result<SpanList, AllocError> {
    let mut spans = SpanList::new(alloc);
    spans.push(Span {
        lo: cut(n, Side::Below),
        hi: cut(n, Side::Above),
    })?;
    Ok(spans)
}

/// The graph of the point with a number.
///
/// # Errors
///
/// NotAccepted where the arena doesn't take the span of the point, NoMemory where memory is wanting.
pub fn point(alloc: Global, arena: &mut Arena, number: u64) -> Result<Handle, Fault>
    requires few { handle_count arena.old < 2 ^ 32 - 1 }
    ensures ok { IfOk result (λ h. Steps arena.old arena.new [] (h ∷ [])) }
    ensures err { OnErr result (Steps arena.old arena.new [] []) }
    ensures count { OnOk result (handle_count arena.new ≡ handle_count arena.old + 1) }
    ensures err_count { OnErr result (handle_count arena.new ≡ handle_count arena.old) }
{
    let Ok(spans) = one_value(alloc, value_of(number)) else {
        return Err(Fault::NoMemory);
    };
    if !arena.accepts(0, &spans) {
        return Err(Fault::NotAccepted);
    }
    match arena.point_set(0, spans) {
        Ok(h) => Ok(h),
        Err(AllocError) => Err(Fault::NoMemory),
    }
}

/// Prints how many points a graph had, and how many items there are after it was given back. The error is
/// NotPrinted.
pub fn tell_end(rt: &impl Print, points: u64, live: u64) -> Result<(), Fault> {
    match println!(rt; "{points} points, {live} live at the end") {
        Ok(()) => Ok(()),
        Err(_) => Err(Fault::NotPrinted),
    }
}
