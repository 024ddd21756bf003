//! Calls of a table, some of which fail.

ghost use Rattle.std.specs.Prelude.{◌<◌, IfOk};
ghost use Rattle.rx_store.specs.Tables.{HasIndex};

use crate::entered::stored;
use case_lines::Fault;
use rx_store::{Counts, Entry, Faulty, Table, TableFault};
use rx_value::{Bound, Bytes, End, Key, Rest, Side, Value};
use std::alloc::{AllocError, Global};

fn number_of(word: &str) -> Result<u64, Fault> {
    match word.parse::<u64>() {
        Ok(number) => Ok(number),
        Err(_) => Err(Fault::Unreadable),
    }
}

// The numbers between blanks, or none for `-`.
fn numbers_of(alloc: Global, text: &str) -> Result<Vec<u64>, Fault> {
    let mut numbers = Vec::new(alloc);
    if text == "-" {
        return Ok(numbers);
    }
    for word in text.split(' ') {
        if numbers.push(number_of(word)?).is_err() {
            return Err(Fault::NoMemory);
        }
    }
    Ok(numbers)
}

fn words_of<'a>(alloc: Global, text: &'a str) -> Result<Vec<&'a str>, Fault> {
    match text.split(' ').collect(alloc) {
        Ok(words) => Ok(words),
        Err(_) => Err(Fault::NoMemory),
    }
}

fn add_number(alloc: Global, number: u64, into: &mut Bytes) -> Result<(), AllocError> {
    into.append(format!(in alloc; "{number}")?.as_bytes())
}

fn add_value(alloc: Global, value: &Value, into: &mut Bytes) -> Result<(), AllocError> {
    match value {
        Value::Null => into.append(b"NULL"),
        Value::Int(n) => into.append(format!(in alloc; "{n}")?.as_bytes()),
        Value::Text(text) => into.append(text.as_slice()),
    }
}

// Values, a comma behind each.
fn add_values(alloc: Global, values: &[Value], into: &mut Bytes) -> Result<(), AllocError> {
    for value in values {
        add_value(alloc, value, into)?;
        into.push(b',')?;
    }
    Ok(())
}

fn add_fault(fault: &TableFault, into: &mut Bytes) -> Result<(), AllocError> {
    match fault {
        TableFault::ReadFault => into.append(b"read fault"),
        TableFault::Damaged { at: _ } => into.append(b"damaged"),
        TableFault::NoMemory => into.append(b"out of memory"),
    }
}

// Seeks, entries and rows so far.
fn add_counts(alloc: Global, counts: Counts, into: &mut Bytes) -> Result<(), AllocError> {
    into.append(b" (")?;
    add_number(alloc, counts.seeks, into)?;
    into.push(b'/')?;
    add_number(alloc, counts.entries, into)?;
    into.push(b'/')?;
    add_number(alloc, counts.rows, into)?;
    into.append(b");")
}

// The number of an index that is there.
fn index_of<T: Table>(table: &T, word: &str) -> Result<u32, Fault>
    ensures { IfOk result (HasIndex (T.means table.now)) }
{
    let Ok(index) = word.parse::<u32>() else {
        return Err(Fault::Unreadable);
    };
    if (index as usize) < table.shape().indexes.len() {
        Ok(index)
    } else {
        Err(Fault::Unreadable)
    }
}

// A number below that of the rows.
fn place_of<T: Table>(table: &T, word: &str) -> Result<u64, Fault>
    ensures { IfOk result (λ place. place < (T.means table.now).count) }
{
    let place = number_of(word)?;
    if place < table.rows() {
        Ok(place)
    } else {
        Err(Fault::Unreadable)
    }
}

fn add_row<T: Table>(
    alloc: Global,
    table: &mut T,
    word: &str,
    into: &mut Bytes,
) -> Result<(), Fault> {
    let id = place_of(table, word)?;
    match table.row(alloc, id) {
        Ok(row) => add_values(alloc, row.as_slice(), into)?,
        Err(fault) => add_fault(&fault, into)?,
    }
    Ok(())
}

fn add_entry_told(alloc: Global, entry: &Entry, into: &mut Bytes) -> Result<(), AllocError> {
    add_values(alloc, entry.key.as_slice(), into)?;
    into.append(b" of ")?;
    add_number(alloc, entry.id, into)
}

fn add_entry<T: Table>(
    alloc: Global,
    table: &mut T,
    index: &str,
    place: &str,
    into: &mut Bytes,
) -> Result<(), Fault> {
    let index = index_of(table, index)?;
    let place = place_of(table, place)?;
    match table.entry(alloc, index, place) {
        Ok(entry) => add_entry_told(alloc, &entry, into)?,
        Err(fault) => add_fault(&fault, into)?,
    }
    Ok(())
}

fn add_id<T: Table>(
    alloc: Global,
    table: &mut T,
    index: &str,
    place: &str,
    into: &mut Bytes,
) -> Result<(), Fault> {
    let index = index_of(table, index)?;
    let place = place_of(table, place)?;
    match table.entry_id(index, place) {
        Ok(id) => add_number(alloc, id, into)?,
        Err(fault) => add_fault(&fault, into)?,
    }
    Ok(())
}

// The cut below an integer.
fn cut_of(word: &str) -> Result<End, Fault> {
    match word.parse::<i128>() {
        Ok(n) => Ok(End::Cut {
            at: Value::Int(n),
            side: Side::Below,
        }),
        Err(_) => Err(Fault::Unreadable),
    }
}

fn add_seek<T: Table>(
    alloc: Global,
    table: &mut T,
    index: &str,
    word: &str,
    into: &mut Bytes,
) -> Result<(), Fault> {
    let index = index_of(table, index)?;
    let points = Key::new(alloc);
    let cut = cut_of(word)?;
    let bound = Bound {
        points: &points,
        rest: Rest::Part(&cut),
    };
    match table.seek(index, bound) {
        Ok(place) => add_number(alloc, place, into)?,
        Err(fault) => add_fault(&fault, into)?,
    }
    Ok(())
}

fn add_call<T: Table>(
    alloc: Global,
    table: &mut T,
    call: &str,
    into: &mut Bytes,
) -> Result<(), Fault> {
    let words = words_of(alloc, call)?;
    into.push(b' ')?;
    match words.as_slice() {
        ["row", id] => add_row(alloc, table, id, into),
        ["entry", index, place] => add_entry(alloc, table, index, place, into),
        ["id", index, place] => add_id(alloc, table, index, place, into),
        ["seek", index, value] => add_seek(alloc, table, index, value, into),
        _ => Err(Fault::Unreadable),
    }
}

/// Adds what calls of a table answer, and its counts behind each: `CALLS | CALL, CALL, ..`, where CALLS are the numbers of
/// those that fail, between blanks, or `-`.
pub fn add_calls(
    alloc: Global,
    create: &[u8],
    rows: &[u8],
    asked: &str,
    into: &mut Bytes,
) -> Result<(), Fault> {
    let Some((failing, calls)) = asked.split_once(" | ") else {
        return Err(Fault::Unreadable);
    };
    let failing = numbers_of(alloc, failing)?;
    let mut table = Faulty::new(stored(alloc, create, rows)?, failing);
    for call in calls.split(", ") {
        add_call(alloc, &mut table, call, into)?;
        add_counts(alloc, table.counts(), into)?;
    }
    Ok(())
}
