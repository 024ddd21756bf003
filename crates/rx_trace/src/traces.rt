ghost use Rattle.std.specs.Prelude.{◌≡◌, ◌<◌, ◌+◌, Some, IfOk, length, slice_get, string_bytes};
ghost use Rattle.serde_json.specs.View.{view};
ghost use Rattle.serde_json.specs.Written.{compact_text};
ghost use Rattle.rx_trace.specs.Trace.{summary_data, reads_data, as_trace, trace_data, trace_line};

use crate::analysis::analysis_value;
use crate::names::kind_name;
use rx_cost::{Candidate, Reason};
use rx_store::Counts;
use rx_value::{Bytes, Schema};
use serde_json::{Value, json};
use std::alloc::{AllocError, Global};

/// What the trace of a statement tells.
#[derive(Clone, Copy)]
pub struct Traced<'a> {
    /// The number of the statement in its script, from 1.
    pub statement: u64,
    /// The candidates in order. They are numbered from 1.
    pub all: &'a [Candidate],
    /// The place of the one that ran, from 0.
    pub chosen: usize,
    /// What the condition says of each index, in the order of their numbers.
    pub answers: &'a [Reason],
    /// The seeks that counted the rows in ranges.
    pub dive_seeks: u64,
    /// What the chosen candidate read.
    pub reads: Counts,
}

/// The line of a trace with its line feed, in compact JSON whose members stand in the order of their names: the chosen
/// candidate in short, the candidates sorted by kind, what was read, and the number of the statement (MySQL manual,
/// "Tracing the Optimizer"). The error is want of memory.
#[tactic(auto, unfolding(crate::specs::Trace::trace_line))]
pub fn trace(alloc: Global, schema: &Schema, traced: &Traced<'_>) -> Result<Bytes, AllocError>
    requires chosen { traced.now.chosen < length traced.now.all.now }
    requires answers { length traced.now.answers.now ≡ length schema.now.indexes }
    ensures { IfOk result (λ line. line ≡ trace_line schema.now (as_trace traced.now)) }
{
    let text = trace_text(alloc, schema, traced)?;
    let mut line = Bytes::from_vec(text.into_bytes());
    line.push(b'\n')?;
    Ok(line)
}

#[tactic(auto, using(crate::proofs::Floats::plain_trace))]
fn trace_text(alloc: Global, schema: &Schema, traced: &Traced<'_>) -> Result<String, AllocError>
    requires chosen { traced.now.chosen < length traced.now.all.now }
    requires answers { length traced.now.answers.now ≡ length schema.now.indexes }
    ensures { IfOk result (λ s. string_bytes s ≡ compact_text (trace_data schema.now (as_trace traced.now))) }
{
    let value = trace_value(alloc, schema, traced)?;
    value.to_string(alloc)
}

#[tactic(auto, unfolding(crate::specs::Trace::trace_data))]
fn trace_value(alloc: Global, schema: &Schema, traced: &Traced<'_>) -> Result<Value, AllocError>
    requires chosen { traced.now.chosen < length traced.now.all.now }
    requires answers { length traced.now.answers.now ≡ length schema.now.indexes }
    ensures { IfOk result (λ v. view v ≡ trace_data schema.now (as_trace traced.now)) }
{
    let summary = chosen_value(alloc, traced)?;
    let analysis = analysis_value(alloc, schema, traced.all, traced.answers)?;
    let reads = reads_value(alloc, traced.dive_seeks, traced.reads)?;
    json!(in alloc; {
        "chosen_range_access_summary": summary,
        "range_analysis": analysis,
        "reads": reads,
        "statement": traced.statement
    })
}

// The chosen candidate and its number.
#[tactic(auto, using(crate::proofs::Places::there))]
fn chosen_value(alloc: Global, traced: &Traced<'_>) -> Result<Value, AllocError>
    requires { traced.now.chosen < length traced.now.all.now }
    ensures { IfOk result (λ v.
        view v ≡ summary_data (slice_get traced.now.all.now traced.now.chosen) (traced.now.chosen + 1)) }
{
    summary_value(alloc, &traced.all[traced.chosen], traced.chosen as u64 + 1)
}

// A candidate in short.
fn summary_value(alloc: Global, candidate: &Candidate, n: u64) -> Result<Value, AllocError>
    ensures { IfOk result (λ v. view v ≡ summary_data (Some candidate.now) n) }
{
    json!(in alloc; {
        "cost": candidate.cost,
        "n": n,
        "type": kind_name(candidate.kind)
    })
}

// The four numbers of reads.
fn reads_value(alloc: Global, dive_seeks: u64, reads: Counts) -> Result<Value, AllocError>
    ensures { IfOk result (λ v. view v ≡ reads_data dive_seeks reads) }
{
    json!(in alloc; {
        "dive_seeks": dive_seeks,
        "entries": reads.entries,
        "rows": reads.rows,
        "seeks": reads.seeks
    })
}
