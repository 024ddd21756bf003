ghost use Rattle.std.specs.Prelude.{◌≡◌, ◌<◌, ◌≤◌, Option, Some, None, IfOk, IfErr, OnOk, OnErr};
ghost use Rattle.rx_value.specs.Shape.{FitsRow};
ghost use Rattle.rx_store.specs.Tables.{Meaning as meaning, Tally as tally_record, IsMeaning, HasIndex, IsPlace, IsEntryId, IsEntry, FitsEntry, IsRow, with_seek, with_entry, with_row, IsOfReading, Keeps, IsChained};

use rx_stats::Statistics;
use rx_value::{Bound, Key, Row, Schema};
use std::alloc::Global;
use thiserror::Error;

/// Why a call of a table has no answer.
#[derive(Debug, Drop, Error)]
pub enum TableFault {
    /// A read failed.
    #[error("a read failed")]
    ReadFault,
    /// What was read at this offset is no part of a table.
    #[error("damaged at {at}")]
    Damaged { at: u64 },
    /// Memory ran out.
    #[error("out of memory")]
    NoMemory,
}

/// An entry of an index: the key of a row on it, and the id of the row.
#[derive(Drop)]
pub struct Entry {
    pub key: Key,
    pub id: u64,
}

/// How many seeks were answered, and how many entries and rows were read. Each count stays at its last value.
#[derive(Clone, Copy)]
pub struct Counts {
    pub seeks: u64,
    pub entries: u64,
    pub rows: u64,
}

/// The rows of one table, numbered from 0, the entries of its indexes in order, and the counts of what was read. A call that
/// answers raises its own count by one; one that is refused raises none. No call changes the rows, the entries, the shape or the
/// statistics.
pub trait Table {
    // what it means, which no call changes
    ghost means: { Self → meaning };
    // what its calls raise
    ghost tally: { Self → tally_record };
    // what each call keeps by the table's own law
    ghost kept: { Self → Self → Type 0 };
    // what is spent by calls that all answered, by the table's own law
    ghost spent: { Self → Self → Type 0 };

    /// The shape of the table.
    fn shape(&self) -> &Schema
        ensures value { result.now ≡ (means self.now).schema }
        ensures sound { IsMeaning (means self.now) };

    /// The records per key of each index.
    fn stats(&self) -> &Statistics
        ensures value { result.now ≡ (means self.now).statistics }
        ensures sound { IsMeaning (means self.now) };

    /// The number of rows.
    fn rows(&self) -> u64
        ensures value { result ≡ (means self.now).count }
        ensures sound { IsMeaning (means self.now) };

    /// How many entries of an index, by its number from 0, stand before a bound. It may fail to be read or be damaged; it
    /// takes no memory.
    fn seek(&mut self, index: u32, bound: Bound<'_>) -> Result<u64, TableFault>
        requires { HasIndex (means self.old) index }
        ensures told { IfOk result (IsPlace (means self.old) index bound.entry.points.now bound.entry.rest) }
        ensures within { IfOk result (λ place. place ≤ (means self.old).count) }
        ensures counts { OnOk result ((tally self.new).counts ≡ with_seek (tally self.old).counts) }
        ensures refused { OnErr result ((tally self.new).counts ≡ (tally self.old).counts) }
        ensures keeps { OnOk result (Keeps means tally kept spent None self.old self.new) }
        ensures cause { IfErr result (λ f. Keeps means tally kept spent (Some f) self.old self.new) }
        ensures memory { IfErr result IsOfReading };

    /// The entry at a place of an index, both numbered from 0. It may fail to be read, be damaged, or find no memory.
    fn entry(&mut self, alloc: Global, index: u32, place: u64) -> Result<Entry, TableFault>
        requires index { HasIndex (means self.old) index }
        requires place { place < (means self.old).count }
        ensures told { IfOk result (IsEntry (means self.old) index place) }
        ensures fits { IfOk result (FitsEntry (means self.old) index) }
        ensures counts { OnOk result ((tally self.new).counts ≡ with_entry (tally self.old).counts) }
        ensures refused { OnErr result ((tally self.new).counts ≡ (tally self.old).counts) }
        ensures keeps { OnOk result (Keeps means tally kept spent None self.old self.new) }
        ensures cause { IfErr result (λ f. Keeps means tally kept spent (Some f) self.old self.new) };

    /// The id of the row whose entry stands at a place of an index, both numbered from 0. It may fail to be read or be damaged;
    /// it takes no memory.
    fn entry_id(&mut self, index: u32, place: u64) -> Result<u64, TableFault>
        requires index { HasIndex (means self.old) index }
        requires place { place < (means self.old).count }
        ensures told { IfOk result (IsEntryId (means self.old) index place) }
        ensures fits { IfOk result (λ id. id < (means self.old).count) }
        ensures counts { OnOk result ((tally self.new).counts ≡ with_entry (tally self.old).counts) }
        ensures refused { OnErr result ((tally self.new).counts ≡ (tally self.old).counts) }
        ensures keeps { OnOk result (Keeps means tally kept spent None self.old self.new) }
        ensures cause { IfErr result (λ f. Keeps means tally kept spent (Some f) self.old self.new) }
        ensures memory { IfErr result IsOfReading };

    /// The row with this id. It may fail to be read, be damaged, or find no memory.
    fn row(&mut self, alloc: Global, id: u64) -> Result<Row, TableFault>
        requires { id < (means self.old).count }
        ensures told { IfOk result (IsRow (means self.old) id) }
        ensures fits { IfOk result (FitsRow (means self.old).schema) }
        ensures counts { OnOk result ((tally self.new).counts ≡ with_row (tally self.old).counts) }
        ensures refused { OnErr result ((tally self.new).counts ≡ (tally self.old).counts) }
        ensures keeps { OnOk result (Keeps means tally kept spent None self.old self.new) }
        ensures cause { IfErr result (λ f. Keeps means tally kept spent (Some f) self.old self.new) };

    /// What was read so far.
    fn counts(&self) -> Counts
        ensures { result ≡ (tally self.now).counts };

    // both laws hold where no call comes, and over calls that follow each other
    ghost kept_chained: { IsChained kept };

    ghost spent_chained: { IsChained spent };
}
