//! What cases ask of a table, and of ranges.

ghost use Rattle.std.specs.Prelude.{◌≡◌, ◌<◌, length, IfOk};
ghost use Rattle.rx_index.specs.Entries.{IsEntered};

use crate::values::{end_of, key_of, range_of, words_of};
use case_lines::Fault;
use rx_index::{Indexed, count_in, seek};
use rx_value::{BoolList, Bound, Bytes, End, Key, Rest, before};
use std::alloc::Global;

// The number of an index.
fn index_of(t: &Indexed, word: &str) -> Result<u32, Fault>
    ensures { IfOk result (λ n. n < length t.now.schema.indexes) }
{
    match word.parse::<u32>() {
        Ok(n) if (n as usize) < t.schema.indexes.len() => Ok(n),
        _ => Err(Fault::Unreadable),
    }
}

fn bound_at<'a>(points: &'a Key, end: &'a End) -> Bound<'a> {
    Bound {
        points,
        rest: Rest::Part(end),
    }
}

// Where the words of a rest stand: `start`, `finish`, or an end.
fn sought(alloc: Global, t: &Indexed, index: u32, points: &Key, rest: &[&str]) -> Result<u64, Fault>
    requires entered { IsEntered t.now }
    requires there { index < length t.now.schema.indexes }
{
    let start = Bound {
        points,
        rest: Rest::Start,
    };
    let finish = Bound {
        points,
        rest: Rest::Finish,
    };
    match rest {
        [word] if *word == "start" => Ok(seek(t, index, start)),
        [word] if *word == "finish" => Ok(seek(t, index, finish)),
        _ => {
            let end = end_of(alloc, rest)?;
            Ok(seek(t, index, bound_at(points, &end)))
        }
    }
}

fn add_number(alloc: Global, n: u64, into: &mut Bytes) -> Result<(), Fault> {
    into.append(format!(in alloc; "{n}")?.as_bytes())?;
    Ok(())
}

/// Adds how many entries of an index stand before a bound: the index's number, points, and what follows them.
pub fn add_seek(alloc: Global, t: &Indexed, text: &str, into: &mut Bytes) -> Result<(), Fault>
    requires { IsEntered t.now }
{
    let words = words_of(alloc, text)?;
    let [index, points, rest @ ..] = words.as_slice() else {
        return Err(Fault::Unreadable);
    };
    let index = index_of(t, index)?;
    let points = key_of(alloc, points)?;
    let n = sought(alloc, t, index, &points, rest)?;
    add_number(alloc, n, into)
}

/// Adds how many entries of an index a range holds: the index's number and the range.
pub fn add_count(alloc: Global, t: &Indexed, text: &str, into: &mut Bytes) -> Result<(), Fault>
    requires { IsEntered t.now }
{
    let words = words_of(alloc, text)?;
    let [index, range @ ..] = words.as_slice() else {
        return Err(Fault::Unreadable);
    };
    let index = index_of(t, index)?;
    let range = range_of(alloc, range)?;
    add_number(alloc, count_in(t, index, &range), into)
}

// For each part whether it falls, `f`, or rises, `r`.
fn falling_of(alloc: Global, word: &str) -> Result<BoolList, Fault> {
    let mut falling = BoolList::new(alloc);
    for byte in word.as_bytes() {
        falling.push(*byte == b'f')?;
    }
    Ok(falling)
}

fn is_before(alloc: Global, falling: &str, first: &str, second: &str) -> Result<bool, Fault> {
    let falling = falling_of(alloc, falling)?;
    let first = range_of(alloc, words_of(alloc, first)?.as_slice())?;
    let second = range_of(alloc, words_of(alloc, second)?.as_slice())?;
    Ok(before(&first, &second, falling.as_slice()))
}

/// Adds whether a range comes before another: which parts fall, and the two ranges with ` | ` between them.
pub fn add_before(alloc: Global, text: &str, into: &mut Bytes) -> Result<(), Fault> {
    let Some((falling, ranges)) = text.split_once(' ') else {
        return Err(Fault::Unreadable);
    };
    let Some((first, second)) = ranges.split_once(" | ") else {
        return Err(Fault::Unreadable);
    };
    let told: &[u8] = if is_before(alloc, falling, first, second)? {
        b"true"
    } else {
        b"false"
    };
    into.append(told)?;
    Ok(())
}
