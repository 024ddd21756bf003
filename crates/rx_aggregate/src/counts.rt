ghost use Rattle.std.specs.Prelude.{◌≡◌, filter, length, IfOk};
ghost use Rattle.std.specs.List.{list_any};
ghost use Rattle.rx_cond.specs.Test.{column_value, is_null_value};
ghost use Rattle.rx_group.specs.Classes.{rows_of};
ghost use Rattle.rx_aggregate.specs.Aggregates.{present, is_whole_at, distinct_count};

use crate::columns::is_null;
use rx_group::classes;
use rx_value::Row;
use std::alloc::{AllocError, Global};

/// How many values of a column aren't NULL.
pub(crate) fn present_count(rows: &[&Row], column: u32) -> usize
    ensures { result ≡ length (present column (rows_of rows.now)) }
{
    let mut count = 0;
    for row in rows {
        if !is_null(*row, column) {
            count += 1;
        }
    }
    count
}

// Whether a column of a row is NULL.
fn has_null(row: &Row, columns: &[u32]) -> bool
    ensures { result ≡ list_any (λ column. is_null_value (column_value column row.now)) columns.now }
{
    columns.iter().any(|column| is_null(row, *column))
}

// The rows of which no column is NULL.
fn whole_rows<'a>(
    alloc: Global,
    rows: &[&'a Row],
    columns: &[u32],
) -> Result<Vec<&'a Row>, AllocError>
    ensures { IfOk result (λ whole. rows_of whole.items ≡ filter (is_whole_at columns.now) (rows_of rows.now)) }
{
    let mut whole = Vec::new(alloc);
    for row in rows {
        if !has_null(*row, columns) {
            whole.push(*row)?;
        }
    }
    Ok(whole)
}

/// How many different rows these columns have, of those without a NULL there. The error is want of memory.
pub(crate) fn distinct_count(
    alloc: Global,
    rows: &[&Row],
    columns: &[u32],
) -> Result<usize, AllocError>
    ensures { IfOk result (λ count. count ≡ distinct_count columns.now (rows_of rows.now)) }
{
    let whole = whole_rows(alloc, rows, columns)?;
    let made = classes(alloc, whole.as_slice(), columns)?;
    Ok(made.len())
}
