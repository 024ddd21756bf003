//! Schemas, indexes and conditions of texts.

use case_lines::Fault;
use rx_cond::Cond;
use rx_schema::{SchemaFault, read_schema};
use rx_token::tokens;
use rx_value::{Index, MOST_COLUMNS, Schema, same_name};
use rx_where::{ParseFault, RawCond, ResolveFault, parse, resolve};
use std::alloc::Global;

/// The schema of a CREATE TABLE statement.
pub fn schema_of(alloc: Global, text: &str) -> Result<Schema, Fault> {
    match read_schema(alloc, text.as_bytes()) {
        Ok(schema) => Ok(schema),
        Err(SchemaFault::NoMemory) => Err(Fault::NoMemory),
        Err(_) => Err(Fault::Unreadable),
    }
}

/// The index of a name.
pub fn index_of<'a>(schema: &'a Schema, name: &str) -> Result<&'a Index, Fault> {
    for index in schema.indexes.as_slice() {
        if same_name(index.name.as_slice(), name.as_bytes()) {
            return Ok(index);
        }
    }
    Err(Fault::Unreadable)
}

fn raw_of(alloc: Global, text: &[u8]) -> Result<RawCond, Fault> {
    let scanned = tokens(alloc, text)?;
    match parse(alloc, scanned.list.as_slice(), 0) {
        Ok((raw, end)) if end == scanned.list.len() && scanned.bad.is_none() => Ok(raw),
        Err(ParseFault::NoMemory) => Err(Fault::NoMemory),
        _ => Err(Fault::Unreadable),
    }
}

/// The condition of a text behind WHERE.
pub fn condition_of(alloc: Global, schema: &Schema, text: &[u8]) -> Result<Cond, Fault> {
    let raw = raw_of(alloc, text)?;
    if schema.columns.len() > MOST_COLUMNS {
        return Err(Fault::Unreadable);
    }
    match resolve(alloc, &raw, schema) {
        Ok(cond) => Ok(cond),
        Err(ResolveFault::NoMemory) => Err(Fault::NoMemory),
        Err(_) => Err(Fault::Unreadable),
    }
}
