use thiserror::Error;

/// Why a text was not read as a CREATE TABLE statement.
#[derive(Debug, Drop, Error)]
pub enum CreateFault {
    /// The text isn't in the grammar.
    #[error("not in grammar")]
    NotInGrammar,
    /// There was no memory for what it says.
    #[error("out of memory")]
    NoMemory,
}
