ghost use Rattle.std.specs.Prelude.{◌≡◌};

use std::alloc::AllocError;
use thiserror::Error;

/// Why the rows of a text were not read.
#[derive(Debug, Drop, Error)]
pub enum DataFault {
    /// The text has an odd number of quotes.
    #[error("not csv")]
    NotCsv { quotes: u64 },
    /// The first record isn't the names of the columns in order, or there is none.
    #[error("header mismatch")]
    HeaderMismatch,
    /// A row, from 1, hasn't as many fields as there are columns.
    #[error("field count: row {row}")]
    FieldCount { row: u64 },
    /// A field of a row, from 1, is no value of its column, which is numbered from 0.
    #[error("bad value: row {row} column {column}")]
    BadValue { row: u64, column: u32 },
    /// A field of a row, from 1, is NULL, where its column, which is numbered from 0, can't be.
    #[error("null not allowed: row {row} column {column}")]
    NullNotAllowed { row: u64, column: u32 },
    /// There are more rows than a table holds.
    #[error("too many rows")]
    TooManyRows,
    /// There was no memory for the rows.
    #[error("out of memory")]
    NoMemory,
}

impl From<AllocError> for DataFault {
    ghost use Rattle.rx_data.specs.declared.faults.DataFault.TheVariants.{NoMemory};

    ghost from_gives = { λ _ fault. fault ≡ NoMemory };

    fn from(_refused: AllocError) -> DataFault {
        DataFault::NoMemory
    }
}
