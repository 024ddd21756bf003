//! Cases as they are written, one in a line.

ghost use Rattle.std.specs.Prelude.{◌≡◌, ◌<◌, ◌-◌, ◌+◌, ◌^◌};
ghost use Rattle.rx_graph.specs.Graph.{handle_count};

use crate::carried::{Call, call_told, met_within, pair_told};
use crate::faults::Fault;
use crate::lists::lists_within;
use crate::lone_levels::levels_told;
use crate::told::Told;
use rx_graph::Arena;
use std::alloc::Global;

// The words of a text, with this sign between them.
fn split_at<'a>(alloc: Global, text: &'a str, sign: char) -> Result<Vec<&'a str>, Fault> {
    match text.split(sign).collect(alloc) {
        Ok(words) => Ok(words),
        Err(_) => Err(Fault::NoMemory),
    }
}

// Whether each part may be NULL, by a sign for each: 'n' where it may not, 'y' where it may.
fn parts_of(alloc: Global, word: &str) -> Result<Vec<bool>, Fault> {
    let mut parts = Vec::new(alloc);
    for sign in word.chars() {
        let nullable = match sign {
            'n' => false,
            'y' => true,
            _ => return Err(Fault::Unreadable),
        };
        if parts.push(nullable).is_err() {
            return Err(Fault::NoMemory);
        }
    }
    Ok(parts)
}

// The limit that a word is.
fn limit_of(word: &str) -> Result<u64, Fault> {
    match word.parse::<u64>() {
        Ok(limit) => Ok(limit),
        Err(_) => Err(Fault::Unreadable),
    }
}

// What is told of a call on two graphs.
fn call_case(
    alloc: Global,
    arena: &mut Arena,
    call: Call,
    g: &str,
    h: &str,
    limit: &str,
) -> Result<Told, Fault>
    requires few { handle_count arena.old ≡ 0 }
{
    let limit = limit_of(limit)?;
    let g = split_at(alloc, g, '&')?;
    let h = split_at(alloc, h, '&')?;
    call_told(alloc, arena, call, g.as_slice(), h.as_slice(), limit)
}

// What is told of two graphs side by side.
fn pair_case(alloc: Global, arena: &mut Arena, g: &str, h: &str) -> Result<Told, Fault>
    requires few { handle_count arena.old ≡ 0 }
{
    let g = split_at(alloc, g, '&')?;
    let h = split_at(alloc, h, '&')?;
    pair_told(alloc, arena, g.as_slice(), h.as_slice())
}

// How many graphs can be met before the limit is passed.
fn met_case(alloc: Global, arena: &mut Arena, graphs: &str, limit: &str) -> Result<Told, Fault>
    requires few { handle_count arena.old ≡ 0 }
{
    let limit = limit_of(limit)?;
    let graphs = split_at(alloc, graphs, '&')?;
    let mut told = Told::new();
    told.first = met_within(alloc, arena, graphs.as_slice(), limit)?;
    Ok(told)
}

// What is told of so many calls by chance.
fn lists_case(alloc: Global, arena: &mut Arena, seed: &str, count: &str) -> Result<Told, Fault>
    requires few { handle_count arena.old ≡ 0 }
{
    let seed = limit_of(seed)?;
    let count = limit_of(count)?;
    lists_within(alloc, arena, seed, count)?;
    let mut told = Told::new();
    told.first = count;
    Ok(told)
}

// What is told of the calls of a case in an arena without handles.
fn told_in(alloc: Global, arena: &mut Arena, words: &[&str]) -> Result<Told, Fault>
    requires few { handle_count arena.old ≡ 0 }
{
    match words {
        [kind, g, h] if *kind == "pair" => pair_case(alloc, arena, g, h),
        [kind, graphs, limit] if *kind == "met" => met_case(alloc, arena, graphs, limit),
        [kind, seed, count] if *kind == "lists" => lists_case(alloc, arena, seed, count),
        [kind, g, h, limit] if *kind == "and" => call_case(alloc, arena, Call::And, g, h, limit),
        [kind, g, h, limit] if *kind == "or" => call_case(alloc, arena, Call::Or, g, h, limit),
        _ => Err(Fault::Unreadable),
    }
}

/// What is told of a case: 'PARTS pair G H', 'PARTS and G H LIMIT', 'PARTS or G H LIMIT' and 'PARTS met G LIMIT' are
/// about an arena, as is 'PARTS lists SEED COUNT' for that many calls by chance, which is empty after the case; 'level SPANS SPANS' is about levels by themselves. A graph is
/// written as words with '&' between them, each 'all', 'none' or 'PART=SPANS', for what they have in common.
///
/// # Errors
///
/// Unreadable where the line is no case, Left where the arena isn't empty after the case, and those of the calls.
pub fn case_told(alloc: Global, words: &[&str]) -> Result<Told, Fault> {
    let [parts, rest @ ..] = words else {
        return Err(Fault::Unreadable);
    };
    if *parts == "level" {
        let [left, right] = rest else {
            return Err(Fault::Unreadable);
        };
        return levels_told(alloc, left, right);
    }
    let nullable = parts_of(alloc, parts)?;
    if nullable.is_empty() || nullable.len() > 16 {
        return Err(Fault::Unreadable);
    }
    let Ok(mut arena) = Arena::new(alloc, nullable.as_slice()) else {
        return Err(Fault::NoMemory);
    };
    let told = told_in(alloc, &mut arena, rest);
    if arena.handles() != 0 || arena.live() != 0 {
        return Err(Fault::Left);
    }
    told
}
