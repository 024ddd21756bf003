ghost use Rattle.std.specs.Prelude.{◌≡◌, ◌≤◌, ◌+ℤ◌, All, length, option_copied, unwrap_or};
ghost use Rattle.std.specs.List.{reduce};
ghost use Rattle.std.specs.Option.{ForSome};
ghost use Rattle.std.specs.Int.RustNames.{FitsSigned};
ghost use mir.Syntax.{w128};
ghost use Rattle.rx_cond.specs.Test.{column_value};
ghost use Rattle.rx_group.specs.Classes.{rows_of};
ghost use Rattle.rx_aggregate.specs.Aggregates.{integer_of, integers, summed, AreSmall};

use crate::columns::column_value;
use rx_value::{Row, Value};

// The integer of a column, where it is one.
fn integer(row: &Row, column: u32) -> Option<i128>
    ensures { result ≡ integer_of (column_value column row.now) }
{
    match column_value(row, column) {
        Some(Value::Int(n)) => Some(*n),
        _ => None,
    }
}

// The sum so far and an integer, where there is one.
fn summed(total: Option<i128>, integer: Option<i128>) -> Option<i128>
    requires { ForSome total (λ t. ForSome integer (λ n. FitsSigned w128 (t +ℤ n))) }
    ensures { result ≡ summed total integer }
{
    match (total, integer) {
        (total, None) => total,
        (None, integer) => integer,
        (Some(sum), Some(n)) => Some(sum + n),
    }
}

/// The sum of the integers of a column, None where there are none.
pub(crate) fn sum(rows: &[&Row], column: u32) -> Option<i128>
    requires { AreSmall (rows_of rows.now) }
    ensures { result ≡ reduce (λ a b. a +ℤ b) (integers column (rows_of rows.now)) }
{
    let mut total = None;
    for row in rows {
        total = summed(total, integer(*row, column));
    }
    total
}
