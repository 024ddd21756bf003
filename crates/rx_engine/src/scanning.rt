ghost use Rattle.std.specs.Prelude.{◌≡◌, None, Some, IfOk, IfErr, OnOk};
ghost use Rattle.rx_store.specs.Tables.{Keeps, WhereTold, add_counts};
ghost use Rattle.rx_query.specs.Steps.{question_of};
ghost use Rattle.rx_aggregate.specs.Aggregates.{AreSmall};
ghost use Rattle.rx_scan.specs.Runs.{IsRunOver, reads_left};
ghost use Rattle.rx_engine.specs.Printed.{IsShort, PrintsPlain, Selects, PrintsAnswer};

use crate::plain::is_plain;
use crate::printing::{Printed, keep_if_selected, print_finished, print_if_selected};
use rx_query::Select;
use rx_scan::ScanRun;
use rx_store::{Table, TableFault};
use rx_value::{Bytes, RowList};
use std::alloc::Global;

/// The lines of what a query answers, and how many rows were handed out for them.
#[derive(Drop)]
pub(crate) struct Handed {
    pub printed: Printed,
    pub count: u64,
}

/// The rows that a query selects, and how many were handed out.
#[derive(Drop)]
struct Kept {
    rows: RowList,
    count: u64,
}

/// The lines of what a query answers over the rows that a run hands out. No more rows are taken of it than the table has.
#[tactic(auto, using(crate::proofs::Scans::plain_answers, crate::proofs::Scans::finish_answers))]
pub(crate) fn print_answer<T: Table>(
    alloc: Global,
    query: &Select,
    run: ScanRun,
    table: &mut T,
) -> Result<Handed, TableFault>
    requires over { IsRunOver (T.means table.old) run }
    requires short { IsShort (T.means table.old) run }
    ensures told { IfOk result (PrintsAnswer (question_of query.now) (T.means table.old) run) }
    ensures counts { OnOk result (WhereTold (T.means table.old) ((T.tally table.new).counts ≡ add_counts (reads_left run) (T.tally table.old).counts)) }
    ensures keeps { OnOk result (Keeps T.means T.tally T.kept T.spent None table.old table.new) }
    ensures cause { IfErr result (λ f. Keeps T.means T.tally T.kept T.spent (Some f) table.old table.new) }
{
    if is_plain(query) {
        return print_plain(alloc, query, run, table);
    }
    let Kept { rows, count } = match select_rows(alloc, query, run, table) {
        Ok(kept) => kept,
        Err(fault) => return Err(fault),
    };
    match print_finished(alloc, query, rows) {
        Ok(printed) => Ok(Handed { printed, count }),
        Err(_) => Err(TableFault::NoMemory),
    }
}

// The lines of a plain query's rows, each printed as it is handed out.
fn print_plain<T: Table>(
    alloc: Global,
    query: &Select,
    run: ScanRun,
    table: &mut T,
) -> Result<Handed, TableFault>
    requires over { IsRunOver (T.means table.old) run }
    requires short { IsShort (T.means table.old) run }
    ensures told { IfOk result (PrintsPlain (question_of query.now) (T.means table.old) run) }
    ensures counts { OnOk result (WhereTold (T.means table.old) ((T.tally table.new).counts ≡ add_counts (reads_left run) (T.tally table.old).counts)) }
    ensures keeps { OnOk result (Keeps T.means T.tally T.kept T.spent None table.old table.new) }
    ensures cause { IfErr result (λ f. Keeps T.means T.tally T.kept T.spent (Some f) table.old table.new) }
{
    let mut left = run;
    let mut printed = Printed {
        text: Bytes::new(alloc),
        rows: 0,
    };
    let most = table.rows();
    for count in 0..most {
        let row = match left.next(alloc, table) {
            Ok(Some(row)) => row,
            Ok(None) => return Ok(Handed { printed, count }),
            Err(fault) => return Err(fault),
        };
        let Ok(()) = print_if_selected(query, &row, &mut printed) else {
            return Err(TableFault::NoMemory);
        };
    }
    Ok(Handed {
        printed,
        count: most,
    })
}

// The rows that a query selects of those that a run hands out, in their order.
fn select_rows<T: Table>(
    alloc: Global,
    query: &Select,
    run: ScanRun,
    table: &mut T,
) -> Result<Kept, TableFault>
    requires over { IsRunOver (T.means table.old) run }
    requires short { IsShort (T.means table.old) run }
    ensures told { IfOk result (Selects (question_of query.now) (T.means table.old) run) }
    ensures small { IfOk result (λ kept. AreSmall kept.rows) }
    ensures counts { OnOk result (WhereTold (T.means table.old) ((T.tally table.new).counts ≡ add_counts (reads_left run) (T.tally table.old).counts)) }
    ensures keeps { OnOk result (Keeps T.means T.tally T.kept T.spent None table.old table.new) }
    ensures cause { IfErr result (λ f. Keeps T.means T.tally T.kept T.spent (Some f) table.old table.new) }
{
    let mut left = run;
    let mut rows = RowList::new(alloc);
    let most = table.rows();
    for count in 0..most {
        let row = match left.next(alloc, table) {
            Ok(Some(row)) => row,
            Ok(None) => return Ok(Kept { rows, count }),
            Err(fault) => return Err(fault),
        };
        let Ok(()) = keep_if_selected(query, row, &mut rows) else {
            return Err(TableFault::NoMemory);
        };
    }
    Ok(Kept { rows, count: most })
}
