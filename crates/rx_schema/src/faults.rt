use rx_value::Bytes;
use thiserror::Error;

/// What is outside the profile of tables that are read.
#[derive(Clone, Copy, Debug, PartialEq, Eq)]
pub enum Which {
    /// A type other than the integer types and `varchar`, or UNSIGNED on `varchar`.
    ColumnType,
    /// `varchar` without one number, or with one above 255.
    Length,
    Zerofill,
    /// A collation of a `varchar` column other than `utf8mb4_0900_bin`.
    Collation,
    /// A character set of a `varchar` column other than `utf8mb4`.
    CharacterSet,
    /// FULLTEXT, SPATIAL, or USING with another word than BTREE.
    KeyKind,
    /// A part of a key with a prefix length, on a column that is no `varchar`, or of 0 or more characters than
    /// the column's.
    Prefix,
}

/// What there is too much of.
#[derive(Clone, Copy, Debug, PartialEq, Eq)]
pub enum Many {
    /// More than 256 columns.
    Columns,
    /// More than 64 keys besides the primary one.
    Indexes,
    /// More than 16 parts of one key.
    Parts,
}

/// Why a text gives no schema. They are tested in this order.
#[derive(Debug, Drop, Error)]
pub enum SchemaFault {
    /// The text is no CREATE TABLE statement.
    #[error("not in grammar")]
    NotInGrammar,
    /// The first place, in the order of the text, that is outside the profile.
    #[error("not in profile")]
    NotInProfile { which: Which },
    /// A limit is passed: columns before indexes before parts.
    #[error("too many")]
    TooMany { which: Many },
    /// The first name that an earlier one equals without ASCII case: among the columns, else among the
    /// indexes, else within one key.
    #[error("duplicate")]
    Duplicate { name: Bytes },
    /// The first column of a key that is no column of the table.
    #[error("unknown column")]
    UnknownColumn { name: Bytes },
    /// There was no memory for the schema.
    #[error("out of memory")]
    NoMemory,
}
