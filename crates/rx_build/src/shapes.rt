//! What the graph of a condition asks of the parts of an index.

ghost use Rattle.std.specs.Prelude.{◌≡◌, IfOk};
ghost use Rattle.rx_ranges.specs.Answers.{may_be_null, nullables, fallings};

use rx_value::{Column, Part};
use std::alloc::{AllocError, Global};

/// Whether a column may be NULL. So may one that isn't there.
pub(crate) fn may_be_null(columns: &[Column], column: u32) -> bool
    ensures { result ≡ may_be_null columns.now column }
{
    match columns.get(column as usize) {
        Some(column) => column.nullable,
        None => true,
    }
}

/// Of each part, whether it may be NULL. The error is want of memory.
pub(crate) fn nullables(
    alloc: Global,
    columns: &[Column],
    parts: &[Part],
) -> Result<Vec<bool>, AllocError>
    ensures { IfOk result (λ list. list.items ≡ nullables columns.now parts.now) }
{
    parts
        .iter()
        .map(|part| may_be_null(columns, part.column))
        .collect(alloc)
}

/// Of each part, whether it falls. The error is want of memory.
pub(crate) fn fallings(alloc: Global, parts: &[Part]) -> Result<Vec<bool>, AllocError>
    ensures { IfOk result (λ list. list.items ≡ fallings parts.now) }
{
    parts.iter().map(|part| part.descending).collect(alloc)
}
