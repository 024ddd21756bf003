//! Tables of a text of CREATE TABLE and a text of rows.

ghost use Rattle.std.specs.Prelude.{IfOk, IfSome};
ghost use Rattle.rx_index.specs.Entries.{IsEntered};

use rx_data::read_rows;
use rx_index::{IndexFault, Indexed, build};
use rx_schema::read_schema;
use rx_value::Bytes;
use std::alloc::{AllocError, Global};

/// Adds `accepted`, or why a text is no schema.
pub fn add_schema(alloc: Global, create: &[u8], into: &mut Bytes) -> Result<(), AllocError> {
    match read_schema(alloc, create) {
        Ok(_) => into.append(b"accepted"),
        Err(fault) => into.append(format!(in alloc; "{fault}")?.as_bytes()),
    }
}

fn index_fault(alloc: Global, fault: &IndexFault) -> Result<String, AllocError> {
    match fault {
        IndexFault::DuplicateKey { index, row } => {
            format!(in alloc; "duplicate key: index {index} row {row}")
        }
        IndexFault::NoMemory => Err(AllocError),
    }
}

/// The table of these texts; where there is none, adds why.
pub fn built(
    alloc: Global,
    create: &[u8],
    text: &[u8],
    into: &mut Bytes,
) -> Result<Option<Indexed>, AllocError>
    ensures { IfOk result (λ t. IfSome t IsEntered) }
{
    let Ok(schema) = read_schema(alloc, create) else {
        into.append(b"no schema")?;
        return Ok(None);
    };
    let rows = match read_rows(alloc, text, &schema) {
        Ok(rows) => rows,
        Err(fault) => {
            into.append(format!(in alloc; "{fault}")?.as_bytes())?;
            return Ok(None);
        }
    };
    match build(alloc, schema, rows) {
        Ok(table) => Ok(Some(table)),
        Err(fault) => {
            into.append(index_fault(alloc, &fault)?.as_bytes())?;
            Ok(None)
        }
    }
}
