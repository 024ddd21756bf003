ghost use Rattle.std.specs.Prelude.{◌≡◌, Bool, option_copied, unwrap_or, IfOk};
ghost use Rattle.std.specs.List.{reduce};
ghost use Rattle.rx_value.specs.declared.values.Value.TheVariants.{Null};
ghost use Rattle.rx_cond.specs.Test.{column_value, is_null_value};
ghost use Rattle.rx_group.specs.Classes.{rows_of};
ghost use Rattle.rx_aggregate.specs.Aggregates.{present, pick, picked};

use rx_value::{Row, Value, compare};
use std::alloc::{AllocError, Global};
use std::cmp::Ordering;

/// The value of a column, None where the row lacks it.
pub(crate) fn column_value(row: &Row, column: u32) -> Option<&Value>
    ensures { unwrap_or (option_copied result) Null ≡ column_value column row.now }
{
    row.as_slice().get(column as usize)
}

/// A value in memory of its own, NULL where there is none. The error is want of memory.
pub(crate) fn copy_found(alloc: Global, value: Option<&Value>) -> Result<Value, AllocError>
    ensures { IfOk result (λ v. v ≡ unwrap_or (option_copied value.entry) Null) }
{
    match value {
        None => Ok(Value::Null),
        Some(value) => value.copy(alloc),
    }
}

/// Whether a column is NULL.
pub(crate) fn is_null(row: &Row, column: u32) -> bool
    ensures { result ≡ is_null_value (column_value column row.now) }
{
    match column_value(row, column) {
        None | Some(Value::Null) => true,
        Some(_) => false,
    }
}

// The lesser of two values, or the greater; the first where they are equal.
fn pick<'a>(greatest: bool, best: &'a Value, value: &'a Value) -> &'a Value
    ensures { result.now ≡ pick greatest best.now value.now }
{
    let order = if greatest {
        compare(best, value)
    } else {
        compare(value, best)
    };
    match order {
        Ordering::Less => value,
        _ => best,
    }
}

// The better of the best so far and a value, which counts unless it is NULL.
fn picked<'a>(
    greatest: bool,
    best: Option<&'a Value>,
    value: Option<&'a Value>,
) -> Option<&'a Value>
    ensures { option_copied result ≡ picked greatest (option_copied best.entry) (unwrap_or (option_copied value.entry) Null) }
{
    match (best, value) {
        (best, None | Some(Value::Null)) => best,
        (None, value) => value,
        (Some(best), Some(value)) => Some(pick(greatest, best, value)),
    }
}

/// The least value of a column that isn't NULL, or the greatest.
pub(crate) fn extreme<'a>(greatest: bool, rows: &[&'a Row], column: u32) -> Option<&'a Value>
    ensures { option_copied result ≡ reduce (pick greatest) (present column (rows_of rows.now)) }
{
    let mut best = None;
    for row in rows {
        best = picked(greatest, best, column_value(*row, column));
    }
    best
}
