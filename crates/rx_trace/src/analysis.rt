ghost use Rattle.std.specs.Prelude.{◌≡◌, IfOk, length, map};
ghost use Rattle.std.specs.List.{zip};
ghost use Rattle.serde_json.specs.View.{view};
ghost use Rattle.rx_trace.specs.Trace.{potential_data, potentials_data, analysis_data};

use crate::listing::{Listing, first_value, list_value};
use crate::names::{index_name, reason_name};
use rx_cost::{Candidate, Reason};
use rx_value::{Index, Schema};
use serde_json::{Value, json};
use std::alloc::{AllocError, Global};

// An index beside what the condition says of it.
fn potential_value(alloc: Global, index: &Index, reason: Reason) -> Result<Value, AllocError>
    ensures { IfOk result (λ v. view v ≡ potential_data (index.now, reason)) }
{
    let name = index_name(alloc, index)?;
    json!(in alloc; {
        "answer": reason_name(reason),
        "index": name
    })
}

// Each index beside what the condition says of it, by number.
fn potentials(
    alloc: Global,
    indexes: &[Index],
    answers: &[Reason],
) -> Result<Vec<Value>, AllocError>
    requires { length answers.now ≡ length indexes.now }
    ensures { IfOk result (λ values. map view values.items ≡ map potential_data (zip indexes.now answers.now)) }
{
    let mut values = Vec::with_capacity(alloc, indexes.len())?;
    for i in 0..indexes.len() {
        values.push(potential_value(alloc, &indexes[i], answers[i])?)?;
    }
    Ok(values)
}

// The same as a list.
fn potentials_value(alloc: Global, schema: &Schema, answers: &[Reason]) -> Result<Value, AllocError>
    requires { length answers.now ≡ length schema.now.indexes }
    ensures { IfOk result (λ v. view v ≡ potentials_data schema.now answers.now) }
{
    let values = potentials(alloc, schema.indexes.as_slice(), answers)?;
    Ok(Value::Array(values))
}

/// The candidates, sorted by kind. The error is want of memory.
pub(crate) fn analysis_value(
    alloc: Global,
    schema: &Schema,
    all: &[Candidate],
    answers: &[Reason],
) -> Result<Value, AllocError>
    requires { length answers.now ≡ length schema.now.indexes }
    ensures { IfOk result (λ v. view v ≡ analysis_data schema.now all.now answers.now) }
{
    let unions = list_value(alloc, schema, Listing::Unions, all)?;
    let intersections = list_value(alloc, schema, Listing::Intersections, all)?;
    let coverings = list_value(alloc, schema, Listing::Coverings, all)?;
    let groups = list_value(alloc, schema, Listing::Groups, all)?;
    let potentials = potentials_value(alloc, schema, answers)?;
    let ranges = list_value(alloc, schema, Listing::Ranges, all)?;
    let skips = list_value(alloc, schema, Listing::Skips, all)?;
    let table = first_value(alloc, schema, Listing::Tables, all)?;
    json!(in alloc; {
        "analyzing_index_merge_union": unions,
        "analyzing_roworder_intersect": intersections,
        "covering_index_scans": coverings,
        "group_index_range": groups,
        "potential_range_indexes": potentials,
        "range_scan_alternatives": ranges,
        "skip_scan_range": skips,
        "table_scan": table
    })
}
