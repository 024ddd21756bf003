//! What is told of a table.

use rx_index::Indexed;
use rx_value::{Bytes, Row, Value};
use std::alloc::{AllocError, Global};

fn add_value(alloc: Global, value: &Value, into: &mut Bytes) -> Result<(), AllocError> {
    match value {
        Value::Null => into.append(b"NULL"),
        Value::Int(n) => into.append(format!(in alloc; "{n}")?.as_bytes()),
        Value::Text(text) => into.append(text.as_slice()),
    }
}

fn add_row(alloc: Global, row: &Row, into: &mut Bytes) -> Result<(), AllocError> {
    into.push(b'(')?;
    for (column, value) in row.as_slice().iter().enumerate() {
        if column > 0 {
            into.push(b',')?;
        }
        add_value(alloc, value, into)?;
    }
    into.push(b')')
}

fn add_ids(alloc: Global, ids: &[u32], into: &mut Bytes) -> Result<(), AllocError> {
    for id in ids {
        let id = *id;
        into.append(format!(in alloc; " {id}")?.as_bytes())?;
    }
    Ok(())
}

/// Adds the rows of a table in the order of their ids, and behind each index's name the ids of its entries.
pub fn add_table(alloc: Global, table: &Indexed, into: &mut Bytes) -> Result<(), AllocError> {
    for row in table.rows.as_slice() {
        add_row(alloc, row, into)?;
    }
    for (index, ids) in table
        .schema
        .indexes
        .as_slice()
        .iter()
        .zip(table.orders.as_slice())
    {
        into.append(b" | ")?;
        into.append(index.name.as_slice())?;
        into.push(b':')?;
        add_ids(alloc, ids.as_slice(), into)?;
    }
    Ok(())
}
