ghost use Rattle.std.specs.Prelude.{◌≡◌, [], ◌∷◌, map, IfOk};
ghost use Rattle.rx_query.specs.Steps.{question_of};
ghost use Rattle.rx_group.specs.Classes.{rows_of};
ghost use Rattle.rx_aggregate.specs.Aggregates.{AreSmall};
ghost use Rattle.rx_order.specs.Order.{distinct_if};
ghost use Rattle.rx_rows.specs.Finish.{groups_by, groups_if, output_of, outputs_of, finish};

use crate::outputs::{output_of, outputs_of_groups, outputs_of_rows};
use rx_group::classes;
use rx_order::{Output, distinct_outputs, sort};
use rx_query::{Item, Select, makes_groups};
use rx_value::{Row, RowList};
use std::alloc::{AllocError, Global};

// The rows, lent.
fn lent(alloc: Global, rows: &[Row]) -> Result<Vec<&Row>, AllocError>
    ensures { IfOk result (λ lent. rows_of lent.items ≡ rows.now) }
{
    let mut lent = Vec::with_capacity(alloc, rows.len())?;
    for row in rows {
        lent.push(row)?;
    }
    Ok(lent)
}

// The one output row of an aggregate query without GROUP BY.
fn output_of_all<'a>(
    alloc: Global,
    items: &[Item],
    rows: &[&'a Row],
) -> Result<Vec<Output<'a>>, AllocError>
    requires { AreSmall (rows_of rows.now) }
    ensures { IfOk result (λ outputs. outputs.items ≡ output_of items.now (rows_of rows.now) ∷ []) }
{
    let mut outputs = Vec::new(alloc);
    outputs.push(output_of(alloc, items, rows)?)?;
    Ok(outputs)
}

// The output rows of an aggregate query.
fn outputs_by<'a>(
    alloc: Global,
    items: &[Item],
    group: &'a [u32],
    rows: &[&'a Row],
) -> Result<Vec<Output<'a>>, AllocError>
    requires { AreSmall (rows_of rows.now) }
    ensures { IfOk result (λ outputs. outputs.items ≡ map (output_of items.now) (groups_by group.now (rows_of rows.now))) }
{
    if group.is_empty() {
        return output_of_all(alloc, items, rows);
    }
    let groups = classes(alloc, rows, group)?;
    outputs_of_groups(alloc, items, groups.as_slice())
}

// An output row for each group.
fn outputs_if<'a>(
    alloc: Global,
    grouped: bool,
    items: &[Item],
    group: &'a [u32],
    rows: &[&'a Row],
) -> Result<Vec<Output<'a>>, AllocError>
    requires { AreSmall (rows_of rows.now) }
    ensures { IfOk result (λ outputs. outputs.items ≡ map (output_of items.now) (groups_if grouped group.now (rows_of rows.now))) }
{
    if grouped {
        outputs_by(alloc, items, group, rows)
    } else {
        outputs_of_rows(alloc, items, rows)
    }
}

fn distinct_if<'a>(
    alloc: Global,
    distinct: bool,
    outputs: Vec<Output<'a>>,
) -> Result<Vec<Output<'a>>, AllocError>
    ensures { IfOk result (λ kept. kept.items ≡ distinct_if distinct outputs.entry.items) }
{
    if distinct {
        distinct_outputs(alloc, outputs)
    } else {
        Ok(outputs)
    }
}

// The output rows of a query before ORDER BY.
fn outputs_of<'a>(
    alloc: Global,
    q: &'a Select,
    rows: &'a [Row],
) -> Result<Vec<Output<'a>>, AllocError>
    requires { AreSmall rows.now }
    ensures { IfOk result (λ outputs. outputs.items ≡ outputs_of (question_of q.now) rows.now) }
{
    let items = q.items.as_slice();
    let group = q.group.as_slice();
    let rows = lent(alloc, rows)?;
    let grouped = makes_groups(items, group);
    let outputs = outputs_if(alloc, grouped, items, group, rows.as_slice())?;
    distinct_if(alloc, q.distinct, outputs)
}

// The output rows alone.
fn values_of(alloc: Global, outputs: Vec<Output<'_>>) -> Result<RowList, AllocError>
    ensures { IfOk result (λ rows. rows ≡ map (λ o. o.0) outputs.entry.items) }
{
    let mut rows = RowList::with_capacity(alloc, outputs.len())?;
    for output in outputs {
        rows.push(output.into_values())?;
    }
    Ok(rows)
}

/// What a query answers over the rows that it selects, in the order in which they come (MySQL manual, "SELECT Statement"
/// and "Aggregate Function Descriptions"): without GROUP BY and aggregates the select list at each row; with an aggregate
/// and no GROUP BY that of all rows, also of none; with GROUP BY that of each class of equal values, NULL equal to NULL, in
/// the order of their first rows. DISTINCT keeps the first of equal output rows. ORDER BY is stable, NULL first where it
/// rises. Takes time in proportion to n log n. The error is want of memory.
pub fn finish(alloc: Global, q: &Select, rows: RowList) -> Result<RowList, AllocError>
    requires { AreSmall rows }
    ensures { IfOk result (λ out. out ≡ finish (question_of q.now) rows) }
{
    let mut outputs = outputs_of(alloc, q, rows.as_slice())?;
    sort(&mut outputs, q.order.as_slice())?;
    values_of(alloc, outputs)
}
