use crate::bytes::Bytes;
use crate::list::List;

/// The type of a column.
#[derive(Clone, Copy)]
pub enum ColType {
    /// An integer of 8, 16, 24, 32 or 64 bits.
    Whole { bits: u32, signed: bool },
    /// A text of at most so many characters.
    VarChar { chars: u32 },
}

/// A column of a table.
#[derive(Drop)]
pub struct Column {
    /// As the schema spells it.
    pub name: Bytes,
    pub kind: ColType,
    /// False for each column of the primary key.
    pub nullable: bool,
}

/// A part of an index.
#[derive(Clone, Copy)]
pub struct Part {
    /// The number of the column, from 0.
    pub column: u32,
    pub descending: bool,
    /// The prefix length in characters.
    pub chars: Option<u32>,
}

/// An index. The primary key is named `PRIMARY`.
#[derive(Drop)]
pub struct Index {
    pub name: Bytes,
    pub primary: bool,
    pub unique: bool,
    pub parts: PartList,
}

/// The shape of a table. Its primary key has number 0, the other indexes follow in the order of the text.
#[derive(Drop)]
pub struct Schema {
    pub table: Bytes,
    pub columns: ColumnList,
    pub indexes: IndexList,
}

/// The parts of an index in order.
pub type PartList = List<Part>;
/// The columns of a table in order.
pub type ColumnList = List<Column>;
/// The indexes of a table by number.
pub type IndexList = List<Index>;
