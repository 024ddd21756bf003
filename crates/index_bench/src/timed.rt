//! What is timed, and what is told of it: what was made on standard output, and the seconds on standard error.

ghost use Rattle.std.specs.Prelude.{IfOk, ◌<◌, length};
ghost use Rattle.rx_value.specs.Shape.{IsSchema};
ghost use Rattle.rx_index.specs.Entries.{IsEntered};

use crate::faults::Fault;
use crate::made::{ONE_KEY, TEN_KEYS, first_value, rows_of, schema_of};
use rx_index::{Indexed, build, seek};
use rx_value::{Bound, End, Key, MOST_ROWS, Rest, RowList, Schema, Side, Value};
use std::alloc::Global;
use std::io::Print;
use std::time::Instant;

// How many seeks are timed.
const SEEKS: u64 = 1_000_000;

fn table_of(alloc: Global, schema: Schema, rows: RowList) -> Result<Indexed, Fault>
    requires { IsSchema schema }
    ensures { IfOk result (λ t. IsEntered t) }
{
    if rows.len() > MOST_ROWS {
        return Err(Fault::NoTable);
    }
    match build(alloc, schema, rows) {
        Ok(t) => Ok(t),
        Err(fault) => Err(Fault::from(fault)),
    }
}

fn start(rt: &HostRuntime) -> Result<Instant, Fault> {
    match Instant::now(rt) {
        Ok(start) => Ok(start),
        Err(_) => Err(Fault::Broken),
    }
}

fn tell_time(rt: &HostRuntime, start: Instant, what: &str) -> Result<(), Fault> {
    let Ok(time) = start.elapsed(rt) else {
        return Err(Fault::Broken);
    };
    let milliseconds = time.as_millis();
    match eprintln!(rt; "{what}: {milliseconds} ms") {
        Ok(()) => Ok(()),
        Err(_) => Err(Fault::Broken),
    }
}

// The entry in the middle of each index.
fn tell_middles(rt: &impl Print, t: &Indexed) -> Result<(), Fault> {
    for order in t.orders.as_slice() {
        let ids = order.as_slice();
        let middle = ids.get(ids.len() / 2);
        let id = match middle {
            Some(id) => *id,
            None => 0,
        };
        if println!(rt; "{id}").is_err() {
            return Err(Fault::Broken);
        }
    }
    Ok(())
}

/// Builds ten indexes over so many rows, and tells the entry in the middle of each.
///
/// # Errors
///
/// NoTable where the rows are more than a table has, Broken where a line can't be printed or the clock can't be read,
/// NoMemory where memory is wanting.
pub fn ten_indexes(rt: &HostRuntime, alloc: Global, count: u64) -> Result<(), Fault> {
    let schema = schema_of(alloc, TEN_KEYS)?;
    let rows = rows_of(alloc, count)?;
    let start = start(rt)?;
    let t = table_of(alloc, schema, rows)?;
    tell_time(rt, start, "ten indexes")?;
    tell_middles(rt, &t)
}

fn bound_at<'a>(points: &'a Key, end: &'a End) -> Bound<'a> {
    Bound {
        points,
        rest: Rest::Part(end),
    }
}

// How many entries of the first index stand below a value of the first column.
fn below(t: &Indexed, none: &Key, at: i128) -> u64
    requires entered { IsEntered t.now }
    requires there { 0 < length t.now.schema.indexes }
{
    let end = End::Cut {
        at: Value::Int(at),
        side: Side::Below,
    };
    seek(t, 0, bound_at(none, &end))
}

// The sum of what so many seeks answer, as far as it goes.
fn sum_of_seeks(alloc: Global, t: &Indexed) -> u64
    requires entered { IsEntered t.now }
    requires there { 0 < length t.now.schema.indexes }
{
    let none = Key::new(alloc);
    let mut sum: u64 = 0;
    for number in 0..SEEKS {
        sum = sum.saturating_add(below(t, &none, first_value(number)));
    }
    sum
}

/// Builds an index over so many rows, seeks a million times in it, and tells the sum of the answers.
///
/// # Errors
///
/// NoTable where the rows are more than a table has, Broken where a line can't be printed or the clock can't be read,
/// NoMemory where memory is wanting.
pub fn many_seeks(rt: &HostRuntime, alloc: Global, count: u64) -> Result<(), Fault> {
    let schema = schema_of(alloc, ONE_KEY)?;
    let rows = rows_of(alloc, count)?;
    let t = table_of(alloc, schema, rows)?;
    if t.schema.indexes.len() == 0 {
        return Err(Fault::NoTable);
    }
    let start = start(rt)?;
    let sum = sum_of_seeks(alloc, &t);
    tell_time(rt, start, "1000000 seeks")?;
    match println!(rt; "{sum}") {
        Ok(()) => Ok(()),
        Err(_) => Err(Fault::Broken),
    }
}
