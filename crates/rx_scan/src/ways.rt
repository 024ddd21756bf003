ghost use Rattle.std.specs.Prelude.{◌≡◌, ◌<◌, None, Some, IfOk, IfErr, IfSome, OnOk, length};
ghost use Rattle.std.specs.List.{range_with_len};
ghost use Rattle.rx_store.specs.Tables.{HasIndex, Keeps, IsMeaning, add_counts};
ghost use Rattle.rx_scan.specs.Handed.{entry_value, entry_row, IsOfTypes};
ghost use Rattle.rx_estimate.specs.Estimates.{parts_in};
ghost use Rattle.rx_scan.specs.Visits.{row_by_entry};
ghost use Rattle.rx_scan.specs.Runs.{handed, reads_for, HasIndexFor};
ghost use Rattle.rx_scan.specs.declared.ways.Way.TheVariants.{EntryAndRow, Entry};

use rx_store::{Table, TableFault};
use rx_value::{Key, Part, Row, Value};
use std::alloc::{AllocError, Global};

/// What is read for each row that a scan hands out.
#[derive(Clone, Copy)]
pub enum Way {
    /// The row whose id is the place.
    Row,
    /// The entry at the place of an index, and the row that it is of.
    EntryAndRow { index: u32 },
    /// The entry at the place of an index alone.
    Entry { index: u32 },
}

// The value that an entry has in a column, NULL where no part is on it. The error is want of memory.
fn value_in(
    alloc: Global,
    parts: &[Part],
    key: &[Value],
    column: usize,
) -> Result<Value, AllocError>
    ensures { IfOk result (λ v. v ≡ entry_value parts.now key.now column) }
{
    let (Some((part, parts)), Some((value, key))) = (parts.split_first(), key.split_first()) else {
        return Ok(Value::Null);
    };
    if part.column as usize == column {
        value.copy(alloc)
    } else {
        value_in(alloc, parts, key, column)
    }
}

// The row of an entry with so many columns, NULL in those that are no part. The error is want of memory.
fn entry_row(alloc: Global, width: usize, parts: &[Part], key: &Key) -> Result<Row, AllocError>
    ensures { IfOk result (λ row. row ≡ entry_row width parts.now key.now) }
{
    let mut row = Row::with_capacity(alloc, width)?;
    for column in 0..width {
        row.push(value_in(alloc, parts, key.as_slice(), column)?)?;
    }
    Ok(row)
}

// The row of an entry of an index of a table. The error is want of memory.
fn row_of_entry<T: Table>(
    alloc: Global,
    table: &T,
    index: u32,
    key: &Key,
) -> Result<Row, AllocError>
    requires { HasIndex (T.means table.now) index }
    ensures row { IfOk result (λ row. row ≡ entry_row (length (T.means table.now).schema.columns) (parts_in (T.means table.now).schema index) key.now) }
    ensures sound { IsMeaning (T.means table.now) }
{
    let schema = table.shape();
    let parts = schema.indexes.as_slice()[index as usize].parts.as_slice();
    entry_row(alloc, schema.columns.len(), parts, key)
}

// The row of an entry of an index by its place, read as an entry alone.
fn read_entry<T: Table>(
    alloc: Global,
    table: &mut T,
    index: u32,
    place: u64,
) -> Result<Row, TableFault>
    requires index { HasIndex (T.means table.old) index }
    requires place { place < (T.means table.old).count }
    ensures told { IfOk result (λ row. IfSome (T.means table.old).told (λ t. row ≡ handed (Entry index) t place)) }
    ensures types { IfOk result (IsOfTypes (T.means table.old).schema) }
    ensures counts { OnOk result ((T.tally table.new).counts ≡ add_counts (reads_for (Entry index) 1) (T.tally table.old).counts) }
    ensures keeps { OnOk result (Keeps T.means T.tally T.kept T.spent None table.old table.new) }
    ensures cause { IfErr result (λ f. Keeps T.means T.tally T.kept T.spent (Some f) table.old table.new) }
{
    let entry = match table.entry(alloc, index, place) {
        Ok(entry) => entry,
        Err(fault) => return Err(fault),
    };
    match row_of_entry(alloc, table, index, &entry.key) {
        Ok(row) => Ok(row),
        Err(_) => Err(TableFault::NoMemory),
    }
}

// The row of an entry of an index by its place, read after the entry.
fn read_entry_and_row<T: Table>(
    alloc: Global,
    table: &mut T,
    index: u32,
    place: u64,
) -> Result<Row, TableFault>
    requires index { HasIndex (T.means table.old) index }
    requires place { place < (T.means table.old).count }
    ensures told { IfOk result (λ row. IfSome (T.means table.old).told (λ t. row ≡ handed (EntryAndRow index) t place)) }
    ensures types { IfOk result (IsOfTypes (T.means table.old).schema) }
    ensures counts { OnOk result ((T.tally table.new).counts ≡ add_counts (reads_for (EntryAndRow index) 1) (T.tally table.old).counts) }
    ensures keeps { OnOk result (Keeps T.means T.tally T.kept T.spent None table.old table.new) }
    ensures cause { IfErr result (λ f. Keeps T.means T.tally T.kept T.spent (Some f) table.old table.new) }
{
    let id = match table.entry_id(index, place) {
        Ok(id) => id,
        Err(fault) => return Err(fault),
    };
    match table.row(alloc, id) {
        Ok(row) => Ok(row),
        Err(fault) => Err(fault),
    }
}

/// The row that is handed out for a place. It may fail to be read, be damaged, or find no memory.
pub(crate) fn read<T: Table>(
    alloc: Global,
    table: &mut T,
    way: Way,
    place: u64,
) -> Result<Row, TableFault>
    requires index { HasIndexFor way (T.means table.old) }
    requires place { place < (T.means table.old).count }
    ensures told { IfOk result (λ row. IfSome (T.means table.old).told (λ t. row ≡ handed way t place)) }
    ensures types { IfOk result (IsOfTypes (T.means table.old).schema) }
    ensures counts { OnOk result ((T.tally table.new).counts ≡ add_counts (reads_for way 1) (T.tally table.old).counts) }
    ensures keeps { OnOk result (Keeps T.means T.tally T.kept T.spent None table.old table.new) }
    ensures cause { IfErr result (λ f. Keeps T.means T.tally T.kept T.spent (Some f) table.old table.new) }
{
    match way {
        Way::Row => match table.row(alloc, place) {
            Ok(row) => Ok(row),
            Err(fault) => Err(fault),
        },
        Way::EntryAndRow { index } => read_entry_and_row(alloc, table, index, place),
        Way::Entry { index } => read_entry(alloc, table, index, place),
    }
}
