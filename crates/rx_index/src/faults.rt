use thiserror::Error;

/// Why rows make no table.
#[derive(Debug, Drop, Error)]
pub enum IndexFault {
    /// A row of the file, numbered from 1, has the key of an earlier one on a unique index, without NULL
    /// (MySQL manual, "Unique Indexes"): the first such row, and the first such index for it.
    #[error("row {row} repeats a key of index {index}")]
    DuplicateKey { index: u32, row: u64 },
    /// Memory ran out.
    #[error("out of memory")]
    NoMemory,
}
