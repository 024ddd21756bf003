//! Tables of a text of CREATE TABLE and a text of rows.

ghost use Rattle.std.specs.Prelude.{IfOk, All};
ghost use Rattle.rx_value.specs.Shape.{IsSchema, FitsRow};
ghost use Rattle.rx_index.specs.Entries.{IsEntered};

use case_lines::Fault;
use rx_data::read_rows;
use rx_index::Indexed;
use rx_load::{load, statistics};
use rx_schema::read_schema;
use rx_store::MemTable;
use std::alloc::Global;

/// Whether a text is a schema.
pub fn is_schema(alloc: Global, create: &[u8]) -> bool {
    read_schema(alloc, create).is_ok()
}

/// The table of these texts.
pub fn built(alloc: Global, create: &[u8], text: &[u8]) -> Result<Indexed, Fault>
    ensures limits { IfOk result (λ t. IsSchema t.schema) }
    ensures entered { IfOk result IsEntered }
    ensures fit { IfOk result (λ t. All (FitsRow t.schema) t.rows) }
{
    let Ok(schema) = read_schema(alloc, create) else {
        return Err(Fault::Unreadable);
    };
    let Ok(rows) = read_rows(alloc, text, &schema) else {
        return Err(Fault::Unreadable);
    };
    match load(alloc, schema, rows) {
        Ok(table) => Ok(table),
        Err(_) => Err(Fault::Unreadable),
    }
}

/// The table of these texts, in memory, with its own statistics.
pub fn stored(alloc: Global, create: &[u8], text: &[u8]) -> Result<MemTable, Fault> {
    let table = built(alloc, create, text)?;
    let numbers = statistics(alloc, &table)?;
    Ok(MemTable::new(table, numbers))
}
