//! The table that conditions are about.

use rx_value::{Bytes, ColType, Column, ColumnList, Index, IndexList, Part, PartList, Schema};
use std::alloc::{AllocError, Global};

// Whole numbers of 32 bits.
const WHOLE: ColType = ColType::Whole {
    bits: 32,
    signed: true,
};

// Texts of at most nine characters.
const SHORT_TEXT: ColType = ColType::VarChar { chars: 9 };

// An index of one column.
fn index(alloc: Global, name: &[u8], column: u32) -> Result<Index, AllocError> {
    let mut parts = PartList::new(alloc);
    parts.push(Part {
        column,
        descending: false,
        chars: None,
    })?;
    Ok(Index {
        name: Bytes::of(alloc, name)?,
        primary: false,
        unique: false,
        parts,
    })
}

/// The table `t` of the integers `a`, `b` and `c`, the text `Name`, and the integer `d`, with the keys `ka` of `a`,
/// `kb` of `b` and `kc` of `c`.
pub fn table(alloc: Global) -> Result<Schema, AllocError> {
    let shapes = [
        ("a", WHOLE),
        ("b", WHOLE),
        ("c", WHOLE),
        ("Name", SHORT_TEXT),
        ("d", WHOLE),
    ];
    let mut columns = ColumnList::new(alloc);
    for (name, kind) in shapes {
        columns.push(Column {
            name: Bytes::of(alloc, name.as_bytes())?,
            kind,
            nullable: true,
        })?;
    }
    let mut indexes = IndexList::new(alloc);
    indexes.push(index(alloc, b"ka", 0)?)?;
    indexes.push(index(alloc, b"kb", 1)?)?;
    indexes.push(index(alloc, b"kc", 2)?)?;
    Ok(Schema {
        table: Bytes::of(alloc, b"t")?,
        columns,
        indexes,
    })
}
