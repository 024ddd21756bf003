ghost use Rattle.std.specs.Prelude.{◌≡◌, map, IfOk};
ghost use Rattle.serde_json.specs.View.{view};
ghost use Rattle.rx_trace.specs.Trace.{parts_at, range_data, ranges_data, scan_data, scans_data, candidate_data};

use crate::names::{kind_name, name_at, role_name};
use crate::ranges::range_text;
use rx_cost::{Candidate, Scan};
use rx_value::{KeyRange, Part, Schema};
use serde_json::{Value, json};
use std::alloc::{AllocError, Global};

// The parts of an index by its number, none where it isn't there.
fn parts_at(schema: &Schema, n: u32) -> &[Part]
    ensures { result.now ≡ parts_at schema.now n }
{
    match schema.indexes.as_slice().get(n as usize) {
        Some(index) => index.parts.as_slice(),
        None => &[],
    }
}

// A range of a scan.
fn range_value(
    alloc: Global,
    schema: &Schema,
    parts: &[Part],
    from: u32,
    range: &KeyRange,
) -> Result<Value, AllocError>
    ensures { IfOk result (λ v. view v ≡ range_data schema.now parts.now from range.now) }
{
    let text = range_text(alloc, schema, parts, from, range)?;
    Ok(Value::String(text))
}

// The ranges of a scan in order.
fn ranges_value(alloc: Global, schema: &Schema, scan: &Scan) -> Result<Value, AllocError>
    ensures { IfOk result (λ v. view v ≡ ranges_data schema.now scan.now) }
{
    let parts = parts_at(schema, scan.index);
    let ranges = scan.ranges.as_slice();
    let mut values = Vec::with_capacity(alloc, ranges.len())?;
    for range in ranges {
        values.push(range_value(alloc, schema, parts, scan.part, range)?)?;
    }
    Ok(Value::Array(values))
}

// A scan of a candidate.
fn scan_value(alloc: Global, schema: &Schema, scan: &Scan) -> Result<Value, AllocError>
    ensures { IfOk result (λ v. view v ≡ scan_data schema.now scan.now) }
{
    let index = name_at(alloc, schema, scan.index)?;
    let ranges = ranges_value(alloc, schema, scan)?;
    json!(in alloc; {
        "dives": scan.dives,
        "index": index,
        "member": scan.member,
        "ranges": ranges,
        "role": role_name(scan.role),
        "rows": scan.rows
    })
}

// The scans of a candidate in order.
fn scans_value(alloc: Global, schema: &Schema, scans: &[Scan]) -> Result<Value, AllocError>
    ensures { IfOk result (λ v. view v ≡ scans_data schema.now scans.now) }
{
    let mut values = Vec::with_capacity(alloc, scans.len())?;
    for scan in scans {
        values.push(scan_value(alloc, schema, scan)?)?;
    }
    Ok(Value::Array(values))
}

/// A candidate with its number. The error is want of memory.
pub(crate) fn candidate_value(
    alloc: Global,
    schema: &Schema,
    n: u64,
    candidate: &Candidate,
) -> Result<Value, AllocError>
    ensures { IfOk result (λ v. view v ≡ candidate_data schema.now (n, candidate.now)) }
{
    let scans = scans_value(alloc, schema, candidate.scans.as_slice())?;
    json!(in alloc; {
        "cost": candidate.cost,
        "index_only": candidate.index_only,
        "n": n,
        "rows": candidate.rows,
        "scans": scans,
        "type": kind_name(candidate.kind)
    })
}
