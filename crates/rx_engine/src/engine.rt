ghost use Rattle.std.specs.Prelude.{◌≡◌, ◌∷◌, [], ◌<◌, None, Some, IfOk, IfErr, IfSome, OnOk, length};
ghost use Rattle.rx_store.specs.Tables.{Keeps, WhereTold, add_counts};
ghost use Rattle.rx_query.specs.Steps.{question_of};
ghost use Rattle.rx_engine.specs.Seen.{sink_seen};
ghost use Rattle.rx_engine.specs.Candidates.{reads_of};
ghost use Rattle.rx_engine.specs.Blocks.{block_for};
ghost use Rattle.rx_engine.specs.Running.{Puts, Stops};
ghost use Rattle.rx_engine.specs.Select.{IsBlockOf, IsReportOf, IsReportBy, IsTraced, table_fault, select_fault};

use crate::answering::{Answer, run_candidate};
use crate::plans::{Plan, make_plan};
use rx_cost::Kind;
use rx_outside::{Sink, write_all};
use rx_query::{Select, Settings};
use rx_store::{Table, TableFault};
use rx_trace::{Traced, trace};
use rx_value::{Bytes, Schema};
use std::alloc::{AllocError, Global};

/// Why a SELECT has no answer.
#[derive(Drop)]
pub enum SelectFault {
    /// A read of the table failed.
    ReadFault,
    /// A put failed.
    WriteFault,
    /// What was read of the table at this offset is no part of one.
    Damaged { at: u64 },
    /// Memory ran out.
    NoMemory,
}

/// What ran for a SELECT.
#[derive(Clone, Copy, Drop)]
pub struct Report {
    /// The kind of the candidate that ran.
    pub kind: Kind,
    /// Its number among the candidates, from 1.
    pub n: u64,
    pub cost: u64,
    /// How many rows were printed.
    pub rows: u64,
}

/// Answers the query of the statement with this number over a table, by its first candidate of least cost (MySQL manual,
/// "Range Optimization", "The Optimizer Cost Model"), and puts its block: a line per row, the line that counts them, and the
/// trace where that is on.
///
/// All reads come before the first put, so where the answer is a fault of the table or `NoMemory`, nothing was put. Where it is
/// `WriteFault`, a front of the block was.
#[tactic(auto, using(crate::proofs::Made::block_told, crate::proofs::Made::report_told, crate::proofs::Blocks::puts_block, crate::proofs::Blocks::cut_block, crate::proofs::Blocks::stops_untouched, crate::proofs::Blocks::table_fault_of))]
pub fn select<T: Table, O: Sink>(
    alloc: Global,
    number: u64,
    query: &Select,
    settings: Settings,
    table: &mut T,
    out: &mut O,
) -> Result<Report, SelectFault>
    ensures puts { OnOk result (Puts (T.means table.old) (block_for settings number (question_of query.now) (T.means table.old) ∷ [])
        (sink_seen O.text O.faults O.room out.old) (sink_seen O.text O.faults O.room out.new)) }
    ensures report { IfOk result (IsReportOf settings (question_of query.now) (T.means table.old)) }
    ensures stopped { IfErr result (Stops (T.means table.old) (block_for settings number (question_of query.now) (T.means table.old) ∷ [])
        (sink_seen O.text O.faults O.room out.old) (sink_seen O.text O.faults O.room out.new)) }
    ensures untouched { IfErr result (λ f. IfSome (table_fault f) (λ _. out.new ≡ out.old)) }
    ensures counts { OnOk result (WhereTold (T.means table.old)
        ((T.tally table.new).counts ≡ add_counts (reads_of settings (question_of query.now) (T.means table.old)) (T.tally table.old).counts)) }
    ensures keeps { OnOk result (Keeps T.means T.tally T.kept T.spent None table.old table.new) }
    ensures cause { IfErr result (λ f. Keeps T.means T.tally T.kept T.spent (table_fault f) table.old table.new) }
{
    let Block { text, report } = match make_block(alloc, number, query, settings, table) {
        Ok(made) => made,
        Err(fault) => return Err(fault_of(fault)),
    };
    match write_all(out, text.as_slice()) {
        Ok(()) => Ok(report),
        Err(_) => Err(SelectFault::WriteFault),
    }
}

fn fault_of(fault: TableFault) -> SelectFault
    ensures { result ≡ select_fault fault }
{
    match fault {
        TableFault::ReadFault => SelectFault::ReadFault,
        TableFault::Damaged { at } => SelectFault::Damaged { at },
        TableFault::NoMemory => SelectFault::NoMemory,
    }
}

/// The text of a statement's block, and its report.
#[derive(Drop)]
struct Block {
    text: Bytes,
    report: Report,
}

// The block of a statement: the lines of its rows and how many they are, and its trace where that is on.
fn make_block<T: Table>(
    alloc: Global,
    number: u64,
    query: &Select,
    settings: Settings,
    table: &mut T,
) -> Result<Block, TableFault>
    ensures told { IfOk result (IsBlockOf settings number (question_of query.now) (T.means table.old)) }
    ensures counts { OnOk result (WhereTold (T.means table.old)
        ((T.tally table.new).counts ≡ add_counts (reads_of settings (question_of query.now) (T.means table.old)) (T.tally table.old).counts)) }
    ensures keeps { OnOk result (Keeps T.means T.tally T.kept T.spent None table.old table.new) }
    ensures cause { IfErr result (λ f. Keeps T.means T.tally T.kept T.spent (Some f) table.old table.new) }
{
    let plan = match make_plan(alloc, query, &settings, table) {
        Ok(plan) => plan,
        Err(fault) => return Err(fault),
    };
    let mut answer = match run_candidate(alloc, plan.candidate(), query, table) {
        Ok(answer) => answer,
        Err(fault) => return Err(fault),
    };
    let Ok(()) = print_plan(alloc, number, settings, table.shape(), &plan, &mut answer) else {
        return Err(TableFault::NoMemory);
    };
    Ok(Block {
        report: report_of(&plan, answer.rows),
        text: answer.text,
    })
}

// What ran, by its plan and the number of rows that were printed.
fn report_of(plan: &Plan, rows: u64) -> Report
    requires { plan.now.chosen < length plan.now.all }
    ensures { IsReportBy plan.now rows result }
{
    let all = plan.all.as_slice();
    let candidate = &all[plan.chosen];
    Report {
        kind: candidate.kind,
        n: plan.chosen as u64 + 1,
        cost: candidate.cost,
        rows,
    }
}

// Adds the trace of a plan where the trace is on. The error is want of memory.
fn print_plan(
    alloc: Global,
    number: u64,
    settings: Settings,
    schema: &Schema,
    plan: &Plan,
    answer: &mut Answer,
) -> Result<(), AllocError>
    requires chosen { plan.now.chosen < length plan.now.all }
    requires reasons { length plan.now.reasons ≡ length schema.now.indexes }
    ensures { OnOk result (IsTraced settings number schema.now plan.now answer.old answer.new) }
{
    if !settings.trace {
        return Ok(());
    }
    let traced = Traced {
        statement: number,
        all: plan.all.as_slice(),
        chosen: plan.chosen,
        answers: plan.reasons.as_slice(),
        dive_seeks: plan.dives,
        reads: answer.reads,
    };
    let line = trace(alloc, schema, &traced)?;
    answer.text.append(line.as_slice())
}
