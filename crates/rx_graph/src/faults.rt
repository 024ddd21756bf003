use thiserror::Error;

/// Why two graphs aren't put together.
#[derive(Clone, Copy, Debug, PartialEq, Eq, Drop, Error)]
pub enum GraphFault {
    /// The tree of the result has more items than the limit.
    #[error("the tree has more items than the limit")]
    OverLimit,
    /// Memory is wanting.
    #[error("out of memory")]
    NoMemory,
}
