ghost use Rattle.std.specs.Prelude.{◌≡◌, [], ◌∷◌, map, All, IfOk};
ghost use Rattle.rx_group.specs.Classes.{rows_of, lists_of};
ghost use Rattle.rx_aggregate.specs.Aggregates.{first_row, item_over, AreSmall};
ghost use Rattle.rx_rows.specs.Finish.{output_of};

use rx_aggregate::item_over;
use rx_order::Output;
use rx_query::Item;
use rx_value::{List, Row, Value};
use std::alloc::{AllocError, Global};

// The first row of a group, without columns where it has none.
fn first_row<'a>(rows: &[&'a Row]) -> &'a [Value]
    ensures { result.now ≡ first_row (rows_of rows.now) }
{
    match rows {
        [] => &[],
        [row, ..] => row.as_slice(),
    }
}

// The select list over a group.
fn values_over(alloc: Global, items: &[Item], rows: &[&Row]) -> Result<Row, AllocError>
    requires { AreSmall (rows_of rows.now) }
    ensures { IfOk result (λ values. values ≡ map (item_over (rows_of rows.now)) items.now) }
{
    let mut values = Row::with_capacity(alloc, items.len())?;
    for item in items {
        values.push(item_over(alloc, rows, item)?)?;
    }
    Ok(values)
}

/// The output row of a group, beside its first row. The error is want of memory.
pub(crate) fn output_of<'a>(
    alloc: Global,
    items: &[Item],
    rows: &[&'a Row],
) -> Result<Output<'a>, AllocError>
    requires { AreSmall (rows_of rows.now) }
    ensures { IfOk result (λ output. output ≡ output_of items.now (rows_of rows.now)) }
{
    let values = values_over(alloc, items, rows)?;
    Ok(Output::new(values, first_row(rows)))
}

/// The output row of each row. The error is want of memory.
pub(crate) fn outputs_of_rows<'a>(
    alloc: Global,
    items: &[Item],
    rows: &[&'a Row],
) -> Result<Vec<Output<'a>>, AllocError>
    requires { AreSmall (rows_of rows.now) }
    ensures { IfOk result (λ outputs. outputs.items ≡ map (output_of items.now) (map (λ row. row ∷ []) (rows_of rows.now))) }
{
    let mut outputs = Vec::with_capacity(alloc, rows.len())?;
    for row in rows {
        outputs.push(output_of(alloc, items, &[*row])?)?;
    }
    Ok(outputs)
}

/// The output row of each group. The error is want of memory.
pub(crate) fn outputs_of_groups<'a>(
    alloc: Global,
    items: &[Item],
    groups: &[List<&'a Row>],
) -> Result<Vec<Output<'a>>, AllocError>
    requires { All AreSmall (lists_of groups.now) }
    ensures { IfOk result (λ outputs. outputs.items ≡ map (output_of items.now) (lists_of groups.now)) }
{
    let mut outputs = Vec::with_capacity(alloc, groups.len())?;
    for group in groups {
        outputs.push(output_of(alloc, items, group.as_slice())?)?;
    }
    Ok(outputs)
}
