ghost use Rattle.std.specs.Prelude.{◌≡◌, IfOk, option_copied, unwrap_or};
ghost use Rattle.rx_value.specs.declared.values.Value.TheVariants.{Null};
ghost use Rattle.rx_cond.specs.Test.{column_value};
ghost use Rattle.rx_group.specs.Classes.{rows_of};
ghost use Rattle.rx_aggregate.specs.Aggregates.{first_row, item_over, integer_value, AreSmall};

use crate::columns::{column_value, copy_found, extreme};
use crate::counts::{distinct_count, present_count};
use crate::sums::sum;
use rx_query::Item;
use rx_value::{Row, Value};
use std::alloc::{AllocError, Global};

// The value of a column at the first row of a group.
fn first_value<'a>(rows: &[&'a Row], column: u32) -> Option<&'a Value>
    ensures { unwrap_or (option_copied result) Null ≡ column_value column (first_row (rows_of rows.now)) }
{
    match rows {
        [] => None,
        [row, ..] => column_value(*row, column),
    }
}

fn integer_value(n: Option<i128>) -> Value
    ensures { result ≡ integer_value n }
{
    match n {
        None => Value::Null,
        Some(n) => Value::Int(n),
    }
}

/// What an item of a select list is over a group of rows (MySQL manual, "Aggregate Function Descriptions"): the value of a
/// column is that of the first row. COUNT of columns, SUM, MIN and MAX pass NULL over; the last three are NULL over
/// nothing. The error is want of memory.
pub fn item_over(alloc: Global, rows: &[&Row], item: &Item) -> Result<Value, AllocError>
    requires { AreSmall (rows_of rows.now) }
    ensures { IfOk result (λ v. v ≡ item_over (rows_of rows.now) item.now) }
{
    match item {
        Item::Column(column) => copy_found(alloc, first_value(rows, *column)),
        Item::CountRows => Ok(Value::Int(rows.len() as i128)),
        Item::Count(column) => Ok(Value::Int(present_count(rows, *column) as i128)),
        Item::CountDistinct(columns) => {
            let count = distinct_count(alloc, rows, columns.as_slice())?;
            Ok(Value::Int(count as i128))
        }
        Item::Sum(column) => Ok(integer_value(sum(rows, *column))),
        Item::Min(column) => copy_found(alloc, extreme(false, rows, *column)),
        Item::Max(column) => copy_found(alloc, extreme(true, rows, *column)),
    }
}
