ghost use Rattle.std.specs.Prelude.{◌≡◌, ◌<◌, ◌∷◌, ◌++◌, [], IfOk, OnOk};
ghost use Rattle.rx_value.specs.Limits.{most_rows};
ghost use Rattle.rx_query.specs.Steps.{question_of};
ghost use Rattle.rx_aggregate.specs.Aggregates.{AreSmall};
ghost use Rattle.rx_rows.specs.Answer.{answer, selected};
ghost use Rattle.rx_rows.specs.Finish.{finish};
ghost use Rattle.rx_engine.specs.Printed.{Adds, IsPrinted};

use rx_query::Select;
use rx_rows::{finish, is_selected, print_projected, print_row, project};
use rx_value::{Bytes, Row, RowList};
use std::alloc::{AllocError, Global};

/// The lines of output rows, and how many they are.
#[derive(Drop)]
pub(crate) struct Printed {
    pub text: Bytes,
    pub rows: u64,
}

/// Adds the line of a row where the query selects it. The error is want of memory.
pub(crate) fn print_if_selected(
    query: &Select,
    row: &Row,
    printed: &mut Printed,
) -> Result<(), AllocError>
    requires { printed.old.rows < most_rows }
    ensures { OnOk result (Adds (answer (question_of query.now) (row.now ∷ [])) printed.old printed.new) }
{
    if !is_selected(&query.cond, row) {
        return Ok(());
    }
    print_projected(&project(query.items.as_slice(), row), &mut printed.text)?;
    printed.rows += 1;
    Ok(())
}

/// Keeps a row where the query selects it. The error is want of memory.
pub(crate) fn keep_if_selected(
    query: &Select,
    row: Row,
    kept: &mut RowList,
) -> Result<(), AllocError>
    ensures { OnOk result (kept.new ≡ kept.old ++ selected (question_of query.now).cond (row ∷ [])) }
{
    if !is_selected(&query.cond, &row) {
        return Ok(());
    }
    kept.push(row)
}

/// The lines of what a query makes of the rows that it selected. The error is want of memory.
pub(crate) fn print_finished(
    alloc: Global,
    query: &Select,
    rows: RowList,
) -> Result<Printed, AllocError>
    requires { AreSmall rows }
    ensures { IfOk result (IsPrinted (finish (question_of query.now) rows)) }
{
    let finished = finish(alloc, query, rows)?;
    print_rows(alloc, finished.as_slice())
}

// The lines of rows.
fn print_rows(alloc: Global, rows: &[Row]) -> Result<Printed, AllocError>
    ensures { IfOk result (IsPrinted rows.now) }
{
    let mut text = Bytes::new(alloc);
    for row in rows {
        print_row(row, &mut text)?;
    }
    Ok(Printed {
        text,
        rows: rows.len() as u64,
    })
}
