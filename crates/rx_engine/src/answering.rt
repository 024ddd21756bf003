//! The rows of a query, read in the way of a candidate, as lines.

ghost use Rattle.std.specs.Prelude.{◌≡◌, ◌≤◌, None, Some, IfOk, IfErr, OnOk, length};
ghost use Rattle.rx_store.specs.Tables.{Keeps, WhereTold, add_counts};
ghost use Rattle.rx_query.specs.Steps.{question_of};
ghost use Rattle.rx_cost.specs.Costs.{most_counted};
ghost use Rattle.rx_scan.specs.Handing.{IsScan};
ghost use Rattle.rx_scan.specs.Visits.{visits, range_visits, is_primary, index_of, ranges_of};
ghost use Rattle.rx_engine.specs.Plan.{HasFewRanges};
ghost use Rattle.rx_engine.specs.Answers.{IsAnswerBy, IsFinished, reads_for_rows};

use crate::printing::Printed;
use crate::scanning::{Handed, print_answer};
use rx_cost::{Candidate, Kind};
use rx_query::Select;
use rx_rows::print_footer;
use rx_scan::open_scan;
use rx_store::{Counts, Table, TableFault};
use rx_value::{Bytes, Schema};
use std::alloc::{AllocError, Global};

/// The lines of a query's rows and the line that counts them, with how many rows were printed, and what was read for them.
#[derive(Drop)]
pub(crate) struct Answer {
    pub text: Bytes,
    pub rows: u64,
    pub reads: Counts,
}

// Whether the index of a candidate's first scan is the primary key.
fn is_by_id(schema: &Schema, candidate: &Candidate) -> bool
    ensures { result ≡ is_primary schema.now (index_of candidate.now) }
{
    let index = match candidate.scans.as_slice() {
        [scan, ..] => scan.index,
        [] => 0,
    };
    match schema.indexes.as_slice().get(index as usize) {
        Some(index) => index.primary,
        None => false,
    }
}

// How many ranges the first scan of a candidate has.
fn count_ranges(candidate: &Candidate) -> u64
    ensures { result ≡ length (ranges_of candidate.now) }
{
    match candidate.scans.as_slice() {
        [scan, ..] => scan.ranges.len() as u64,
        [] => 0,
    }
}

// What a range scan of so many ranges reads for so many rows.
fn reads_in_ranges(primary: bool, index_only: bool, ranges: u64, rows: u64) -> Counts
    requires { ranges ≤ most_counted }
    ensures { result ≡ range_visits primary index_only ranges rows }
{
    Counts {
        seeks: 2 * ranges,
        entries: if primary { 0 } else { rows },
        rows: if !primary && index_only { 0 } else { rows },
    }
}

// What a candidate reads for so many rows, by whether its first scan is of the primary key.
fn reads_for_rows(primary: bool, candidate: &Candidate, rows: u64) -> Counts
    requires { HasFewRanges candidate.now }
    ensures { result ≡ reads_for_rows primary candidate.now rows }
{
    match candidate.kind {
        Kind::Index => Counts {
            seeks: 0,
            entries: rows,
            rows: 0,
        },
        Kind::Range => {
            reads_in_ranges(primary, candidate.index_only, count_ranges(candidate), rows)
        }
        _ => Counts {
            seeks: 0,
            entries: 0,
            rows,
        },
    }
}

/// The lines of a query's rows and how many they are, the rows read in the way of a candidate. It may fail to be read, be
/// damaged, or find no memory.
#[tactic(auto, using(crate::proofs::Short::opened_short, crate::proofs::Running::counts_run, crate::proofs::Running::answers_run))]
pub(crate) fn run_candidate<T: Table>(
    alloc: Global,
    candidate: &Candidate,
    query: &Select,
    table: &mut T,
) -> Result<Answer, TableFault>
    requires few { HasFewRanges candidate.now }
    requires scan { IsScan (T.means table.old).schema candidate.now }
    ensures told { IfOk result (IsAnswerBy candidate.now (question_of query.now) (T.means table.old)) }
    ensures counts { OnOk result (WhereTold (T.means table.old)
        ((T.tally table.new).counts ≡ add_counts (visits candidate.now (T.means table.old)) (T.tally table.old).counts)) }
    ensures keeps { OnOk result (Keeps T.means T.tally T.kept T.spent None table.old table.new) }
    ensures cause { IfErr result (λ f. Keeps T.means T.tally T.kept T.spent (Some f) table.old table.new) }
{
    let primary = is_by_id(table.shape(), candidate);
    let run = match open_scan(alloc, table, candidate) {
        Ok(run) => run,
        Err(fault) => return Err(fault),
    };
    let Handed { printed, count } = match print_answer(alloc, query, run, table) {
        Ok(handed) => handed,
        Err(fault) => return Err(fault),
    };
    let reads = reads_for_rows(primary, candidate, count);
    match finished(printed, reads) {
        Ok(answer) => Ok(answer),
        Err(_) => Err(TableFault::NoMemory),
    }
}

// Printed rows with the line that counts them. The error is want of memory.
fn finished(printed: Printed, reads: Counts) -> Result<Answer, AllocError>
    ensures { IfOk result (IsFinished printed reads) }
{
    let Printed { mut text, rows } = printed;
    print_footer(rows, &mut text)?;
    Ok(Answer { text, rows, reads })
}
