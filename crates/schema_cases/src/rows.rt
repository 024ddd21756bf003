use rx_data::{DataFault, read_rows};
use rx_schema::read_schema;
use rx_value::{Row, RowList, Value};
use std::alloc::{AllocError, Global};

// The rows of a text in the table with these columns, or the refusal. Columns that aren't read are taken for want of
// memory.
fn read(alloc: Global, columns: &[u8], text: &[u8]) -> Result<RowList, DataFault> {
    let mut create = Vec::from_slice(alloc, b"create table t ")?;
    create.extend_from_slice(columns)?;
    match read_schema(alloc, create.as_slice()) {
        Ok(schema) => read_rows(alloc, text, &schema),
        Err(_) => Err(DataFault::NoMemory),
    }
}

fn show_row(alloc: Global, shown: &mut Vec<u8>, row: &Row) -> Result<(), AllocError> {
    for value in row.as_slice() {
        match value {
            Value::Null => shown.extend_from_slice(b"NULL")?,
            Value::Int(n) => shown.extend_from_slice(format!(in alloc; "{n}")?.as_bytes())?,
            Value::Text(text) => shown.extend_from_slice(text.as_slice())?,
        }
        shown.push(b' ')?;
    }
    shown.extend_from_slice(b"/")
}

/// The values of each row of a text, and `/` behind it, or the refusal.
pub(crate) fn rows(alloc: Global, columns: &[u8], text: &[u8]) -> Result<Vec<u8>, AllocError> {
    let mut shown = Vec::new(alloc);
    match read(alloc, columns, text) {
        Ok(rows) => for row in rows.as_slice() {
            show_row(alloc, &mut shown, row)?;
        },
        Err(fault) => shown.extend_from_slice(format!(in alloc; "{fault}")?.as_bytes())?,
    }
    Ok(shown)
}

/// How many rows a text has, or the refusal.
pub(crate) fn counted(alloc: Global, columns: &[u8], text: &[u8]) -> Result<Vec<u8>, AllocError> {
    let line = match read(alloc, columns, text) {
        Ok(rows) => {
            let count = rows.as_slice().len();
            let bytes = text.len();
            format!(in alloc; "{bytes} bytes: {count} rows")?
        }
        Err(fault) => format!(in alloc; "{fault}")?,
    };
    Vec::from_slice(alloc, line.as_bytes())
}
