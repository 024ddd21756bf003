//! The rows and the schemas that are timed.

ghost use Rattle.std.specs.Prelude.{IfOk};
ghost use Rattle.rx_value.specs.Shape.{IsSchema};

use crate::faults::Fault;
use rx_schema::{SchemaFault, read_schema};
use rx_value::{Bytes, Row, RowList, Schema, Value};
use std::alloc::{AllocError, Global};

/// The keys whose building is timed.
pub const TEN_KEYS: &str =
    "UNIQUE KEY k0 (a), KEY k1 (b), KEY k2 (c), UNIQUE KEY k3 (s), KEY k4 (u), KEY k5 (b, c, a), \
     UNIQUE KEY k6 (c, b, a), KEY k7 (u, s, b), UNIQUE KEY k8 (u, b, s), KEY k9 (b, u, c)";
/// The key whose seeks are timed.
pub const ONE_KEY: &str = "KEY k0 (a)";

/// The schema of the rows, with these keys.
pub fn schema_of(alloc: Global, keys: &str) -> Result<Schema, Fault>
    ensures { IfOk result (λ s. IsSchema s) }
{
    let text = format!(in alloc;
        "CREATE TABLE t (a int NOT NULL, b int NOT NULL, c int NOT NULL, s varchar(20) NOT NULL, u varchar(20) NOT NULL, {keys})"
    )?;
    match read_schema(alloc, text.as_bytes()) {
        Ok(schema) => Ok(schema),
        Err(SchemaFault::NoMemory) => Err(Fault::NoMemory),
        Err(_) => Err(Fault::NoTable),
    }
}

/// The value of the first column by the number of its row: neighbours by number lie far apart, and no two below
/// 1,000,003 are the same.
pub fn first_value(number: u64) -> i128 {
    (number as u128 * 618_034 % 1_000_003) as i128
}

fn text(alloc: Global, front: &str, number: u128) -> Result<Value, AllocError> {
    let text = format!(in alloc; "{front}{number}")?;
    Ok(Value::Text(Bytes::of(alloc, text.as_bytes())?))
}

fn row_of(alloc: Global, number: u64) -> Result<Row, AllocError> {
    let third = number as u128 * 2_654_435_761 % 2_147_483_647;
    let mut row = Row::with_capacity(alloc, 5)?;
    row.push(Value::Int(first_value(number)))?;
    row.push(Value::Int((third % 1_000) as i128))?;
    row.push(Value::Int(third as i128))?;
    row.push(text(alloc, "name ", third)?)?;
    row.push(text(alloc, "group ", third % 5_003)?)?;
    Ok(row)
}

/// So many rows: two integers and a text of which no two are the same, an integer of a thousand, a text of some
/// thousands, none of them in order.
pub fn rows_of(alloc: Global, count: u64) -> Result<RowList, AllocError> {
    let mut rows = RowList::new(alloc);
    for number in 0..count {
        rows.push(row_of(alloc, number)?)?;
    }
    Ok(rows)
}
