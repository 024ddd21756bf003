ghost use Rattle.std.specs.Prelude.{◌≡◌, ◌<◌, length, slice_get, Some, IfOk};
ghost use Rattle.rx_value.specs.Parts.{borrowed};
ghost use Rattle.rx_value.specs.Keys.{key_of};
ghost use Rattle.rx_index.specs.Entries.{IsEntered, entry_key, parts_at, ids_at};
ghost use Rattle.rx_store.specs.Stored.{IsStorable, in_memory, no_counts};

use crate::tables::{Counts, Entry, Table, TableFault};
use rx_index::Indexed;
use rx_stats::Statistics;
use rx_value::{Bound, Bytes, Key, Part, PartValue, Row, Schema, Value};
use std::alloc::{AllocError, Global};
use std::marker::Model;

/// A table in memory, with its entries and its statistics. No call of it fails but for want of memory, and it can't be
/// copied, so that its counts are those of its own calls.
#[derive(Drop)]
pub struct MemTable {
    table: Indexed,
    statistics: Statistics,
    counts: Counts,
}

impl Model for MemTable {
    ghost use Rattle.rx_store.specs.Stored.{Stored, IsStorable};

    ghost Value = { Stored };

    ghost view = { λ t. record { table = t.table; statistics = t.statistics; counts = t.counts } };

    ghost invariant = { λ t. IsStorable t.table t.statistics };
}

impl MemTable {
    /// A table of these rows and entries with these statistics, of which nothing was read yet. Takes no memory.
    pub fn new(t: Indexed, stats: Statistics) -> MemTable
        requires { IsStorable t stats }
        ensures { result ≡ record { table = t; statistics = stats; counts = no_counts } }
    {
        MemTable {
            table: t,
            statistics: stats,
            counts: Counts {
                seeks: 0,
                entries: 0,
                rows: 0,
            },
        }
    }
}

// A value of its own.
fn owned(alloc: Global, value: PartValue<'_>) -> Result<Value, AllocError>
    ensures { IfOk result (λ v. v ≡ borrowed value.entry) }
{
    match value {
        PartValue::Null => Ok(Value::Null),
        PartValue::Int(n) => Ok(Value::Int(n)),
        PartValue::Text(text) => Ok(Value::Text(Bytes::of(alloc, text)?)),
    }
}

// The key of a row on these parts.
fn key_of(alloc: Global, parts: &[Part], row: &Row) -> Result<Key, AllocError>
    ensures { IfOk result (λ key. key ≡ key_of parts.now row.now) }
{
    let mut key = Key::with_capacity(alloc, parts.len())?;
    for part in parts {
        key.push(owned(alloc, part.value(row))?)?;
    }
    Ok(key)
}

// The id of the entry at a place of an index.
fn id_at(t: &Indexed, index: u32, place: u64) -> u32
    requires entered { IsEntered t.now }
    requires there { index < length t.now.schema.indexes }
    requires place { place < length t.now.rows }
    ensures value { slice_get (ids_at t.now index) place ≡ Some result }
    ensures below { result < length t.now.rows }
{
    t.ids(index)[place as usize]
}

// The entry at a place of an index. The error is want of memory.
fn entry_at(alloc: Global, t: &Indexed, index: u32, place: u64) -> Result<Entry, AllocError>
    requires entered { IsEntered t.now }
    requires there { index < length t.now.schema.indexes }
    requires place { place < length t.now.rows }
    ensures id { IfOk result (λ e. slice_get (ids_at t.now index) place ≡ Some e.id) }
    ensures below { IfOk result (λ e. e.id < length t.now.rows) }
    ensures key { IfOk result (λ e. e.key ≡ entry_key (parts_at t.now index) t.now.rows e.id) }
{
    let id = id_at(t, index, place);
    let key = key_of(alloc, t.parts(index), &t.rows.as_slice()[id as usize])?;
    Ok(Entry {
        key,
        id: u64::from(id),
    })
}

impl Table for MemTable {
    ghost means = { λ t. in_memory t.table t.statistics };

    ghost tally = { λ t. record { counts = t.counts; faults = 0; damages = 0 } };

    ghost kept = { λ old new. Unit {0} };

    ghost spent = { λ old new. Unit {0} };

    ghost kept_chained = { record { same = λ t. tt; chain = λ a b c p q. tt } };

    ghost spent_chained = { record { same = λ t. tt; chain = λ a b c p q. tt } };

    fn shape(&self) -> &Schema {
        &self.table.schema
    }

    fn stats(&self) -> &Statistics {
        &self.statistics
    }

    fn rows(&self) -> u64 {
        self.table.rows.len() as u64
    }

    fn seek(&mut self, index: u32, bound: Bound<'_>) -> Result<u64, TableFault> {
        let place = rx_index::seek(&self.table, index, bound);
        self.counts.seeks = self.counts.seeks.saturating_add(1);
        Ok(place)
    }

    fn entry(&mut self, alloc: Global, index: u32, place: u64) -> Result<Entry, TableFault> {
        let Ok(entry) = entry_at(alloc, &self.table, index, place) else {
            return Err(TableFault::NoMemory);
        };
        self.counts.entries = self.counts.entries.saturating_add(1);
        Ok(entry)
    }

    fn entry_id(&mut self, index: u32, place: u64) -> Result<u64, TableFault> {
        let id = id_at(&self.table, index, place);
        self.counts.entries = self.counts.entries.saturating_add(1);
        Ok(u64::from(id))
    }

    fn row(&mut self, alloc: Global, id: u64) -> Result<Row, TableFault> {
        let Ok(row) = self.table.rows.as_slice()[id as usize].copy(alloc) else {
            return Err(TableFault::NoMemory);
        };
        self.counts.rows = self.counts.rows.saturating_add(1);
        Ok(row)
    }

    fn counts(&self) -> Counts {
        self.counts
    }
}
