//! The limits of a table.

/// How many columns a table has at most.
pub const MOST_COLUMNS: usize = 256;

/// How many indexes a table has at most besides its primary key.
pub const MOST_INDEXES: usize = 64;

/// How many parts an index has at most.
pub const MOST_PARTS: usize = 16;

/// How many rows a table has at most.
pub const MOST_ROWS: usize = 1_000_000;
