use rx_schema::{SchemaFault, read_schema, write_schema};
use rx_value::{ColType, Column, Index, Part, Schema};
use std::alloc::{AllocError, Global};

// Appends a piece to a text.
fn show(text: &mut Vec<u8>, piece: &[u8]) -> Result<(), AllocError> {
    text.extend_from_slice(piece)
}

// `a int32`, `a uint8?` where it may be NULL, `s text5`.
fn show_column(alloc: Global, shown: &mut Vec<u8>, column: &Column) -> Result<(), AllocError> {
    show(shown, b" ")?;
    show(shown, column.name.as_slice())?;
    let (kind, size): (&[u8], u32) = match column.kind {
        ColType::Whole { bits, signed: true } => (b" int", bits),
        ColType::Whole {
            bits,
            signed: false,
        } => (b" uint", bits),
        ColType::VarChar { chars } => (b" text", chars),
    };
    show(shown, kind)?;
    show(shown, format!(in alloc; "{size}")?.as_bytes())?;
    if column.nullable {
        show(shown, b"?")?;
    }
    show(shown, b";")
}

// `0`, `0:3` with a prefix length, and `-` behind it where it falls.
fn show_part(alloc: Global, shown: &mut Vec<u8>, part: &Part) -> Result<(), AllocError> {
    let column = part.column;
    show(shown, format!(in alloc; "{column}")?.as_bytes())?;
    if let Some(chars) = part.chars {
        show(shown, format!(in alloc; ":{chars}")?.as_bytes())?;
    }
    if part.descending {
        show(shown, b"-")?;
    }
    Ok(())
}

// `k(0 1)`, `u!(0)` where it is unique, `PRIMARY!!(0)` where it is primary too.
fn show_index(alloc: Global, shown: &mut Vec<u8>, index: &Index) -> Result<(), AllocError> {
    show(shown, b" ")?;
    show(shown, index.name.as_slice())?;
    if index.unique {
        show(shown, b"!")?;
    }
    if index.primary {
        show(shown, b"!")?;
    }
    show(shown, b"(")?;
    for (place, part) in index.parts.as_slice().iter().enumerate() {
        if place > 0 {
            show(shown, b" ")?;
        }
        show_part(alloc, shown, part)?;
    }
    show(shown, b")")
}

fn show_schema(alloc: Global, shown: &mut Vec<u8>, schema: &Schema) -> Result<(), AllocError> {
    show(shown, schema.table.as_slice())?;
    show(shown, b":")?;
    for column in schema.columns.as_slice() {
        show_column(alloc, shown, column)?;
    }
    for index in schema.indexes.as_slice() {
        show_index(alloc, shown, index)?;
    }
    Ok(())
}

fn show_fault(alloc: Global, shown: &mut Vec<u8>, fault: &SchemaFault) -> Result<(), AllocError> {
    show(shown, format!(in alloc; "{fault}")?.as_bytes())?;
    match fault {
        SchemaFault::NotInProfile { which } => {
            show(shown, format!(in alloc; ": {which:?}")?.as_bytes())
        }
        SchemaFault::TooMany { which } => show(shown, format!(in alloc; ": {which:?}")?.as_bytes()),
        SchemaFault::Duplicate { name } | SchemaFault::UnknownColumn { name } => {
            show(shown, b": ")?;
            show(shown, name.as_slice())
        }
        _ => Ok(()),
    }
}

/// What a text declares, or the refusal.
pub(crate) fn schema(alloc: Global, text: &[u8]) -> Result<Vec<u8>, AllocError> {
    let mut shown = Vec::new(alloc);
    match read_schema(alloc, text) {
        Ok(schema) => show_schema(alloc, &mut shown, &schema)?,
        Err(fault) => show_fault(alloc, &mut shown, &fault)?,
    }
    Ok(shown)
}

/// The canonical text of what a text declares, or the refusal.
pub(crate) fn canonical_schema(alloc: Global, text: &[u8]) -> Result<Vec<u8>, AllocError> {
    let mut shown = Vec::new(alloc);
    match read_schema(alloc, text) {
        Ok(schema) => show(&mut shown, write_schema(alloc, &schema)?.as_slice())?,
        Err(fault) => show_fault(alloc, &mut shown, &fault)?,
    }
    Ok(shown)
}
