//! Graphs as they are written.

ghost use Rattle.std.specs.Prelude.{◌≡◌, ◌<◌, ◌-◌, ◌+◌, ◌^◌, List, [], ◌∷◌, IfOk, OnOk, OnErr};
ghost use Rattle.rx_graph.specs.Graph.{Steps, handle_count};

use crate::faults::Fault;
use crate::spans::spans_of;
use rx_and::and;
use rx_graph::{Arena, Handle};
use std::alloc::{AllocError, Global};

// The most items of a graph that is written with '&'.
const LIMIT: u64 = 1_000_000;

// The part and the spans of 'PART=SPANS'.
fn part_and_spans(word: &str) -> Result<(u32, &str), Fault> {
    let Some((part, spans)) = word.split_once('=') else {
        return Err(Fault::Unreadable);
    };
    match part.parse::<u32>() {
        Ok(part) => Ok((part, spans)),
        Err(_) => Err(Fault::Unreadable),
    }
}

// The graph of one word: 'all', 'none', or 'PART=SPANS'.
fn graph_of(alloc: Global, arena: &mut Arena, word: &str) -> Result<Handle, Fault>
    requires few { handle_count arena.old < 2 ^ 32 - 1 }
    ensures ok { IfOk result (λ h. Steps arena.old arena.new [] (h ∷ [])) }
    ensures err { OnErr result (Steps arena.old arena.new [] []) }
    ensures count { OnOk result (handle_count arena.new ≡ handle_count arena.old + 1) }
    ensures err_count { OnErr result (handle_count arena.new ≡ handle_count arena.old) }
{
    if word == "all" {
        return Ok(arena.everything());
    }
    if word == "none" {
        return Ok(arena.nothing());
    }
    let (part, text) = match part_and_spans(word) {
        Ok(read) => read,
        Err(fault) => return Err(fault),
    };
    let spans = match spans_of(alloc, text) {
        Ok(spans) => spans,
        Err(fault) => return Err(fault),
    };
    if !arena.accepts(part, &spans) {
        return Err(Fault::Refused);
    }
    match arena.point_set(part, spans) {
        Ok(h) => Ok(h),
        Err(AllocError) => Err(Fault::NoMemory),
    }
}

/// The graph of the keys that all the words have in common, each 'all', 'none', or 'PART=SPANS'.
pub fn operand(alloc: Global, arena: &mut Arena, words: &[&str]) -> Result<Handle, Fault>
    requires few { handle_count arena.old < 2 ^ 32 - 2 }
    ensures ok { IfOk result (λ h. Steps arena.old arena.new [] (h ∷ [])) }
    ensures err { OnErr result (Steps arena.old arena.new [] []) }
    ensures count { OnOk result (handle_count arena.new ≡ handle_count arena.old + 1) }
    ensures err_count { OnErr result (handle_count arena.new ≡ handle_count arena.old) }
{
    let [rest @ .., last] = words else {
        return Ok(arena.everything());
    };
    let g = match operand(alloc, arena, rest) {
        Ok(g) => g,
        Err(fault) => return Err(fault),
    };
    match graph_of(alloc, arena, last) {
        Ok(h) => match and(alloc, arena, g, h, LIMIT) {
            Ok(whole) => Ok(whole),
            Err(fault) => Err(Fault::of(fault)),
        },
        Err(fault) => {
            arena.release(g);
            Err(fault)
        }
    }
}
