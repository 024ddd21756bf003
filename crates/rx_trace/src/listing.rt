ghost use Rattle.std.specs.Prelude.{◌≡◌, map, IfOk};
ghost use Rattle.serde_json.specs.View.{view};
ghost use Rattle.rx_trace.specs.Trace.{is_in, listed, list_data, first_data};

use crate::scans::candidate_value;
use rx_cost::{Candidate, Kind};
use rx_value::Schema;
use serde_json::Value;
use std::alloc::{AllocError, Global};

/// The lists of a trace, each of which has the candidates of one kind, the last those of two.
#[derive(Clone, Copy)]
pub(crate) enum Listing {
    Tables,
    Coverings,
    Groups,
    Skips,
    Ranges,
    Intersections,
    Unions,
}

// Whether a kind stands in a list.
fn is_in(list: Listing, kind: Kind) -> bool
    ensures { result ≡ is_in list kind }
{
    matches!(
        (list, kind),
        (Listing::Tables, Kind::Table)
            | (Listing::Coverings, Kind::Index)
            | (Listing::Groups, Kind::Group)
            | (Listing::Skips, Kind::SkipScan)
            | (Listing::Ranges, Kind::Range)
            | (Listing::Intersections, Kind::Intersect)
            | (Listing::Unions, Kind::Union | Kind::SortUnion)
    )
}

// The candidates of a list in order, numbered from 1 among all.
fn listed(
    alloc: Global,
    schema: &Schema,
    list: Listing,
    all: &[Candidate],
) -> Result<Vec<Value>, AllocError>
    ensures { IfOk result (λ values. map view values.items ≡ listed schema.now list all.now) }
{
    let mut values = Vec::new(alloc);
    for i in 0..all.len() {
        let candidate = &all[i];
        if is_in(list, candidate.kind) {
            values.push(candidate_value(alloc, schema, 1 + i as u64, candidate)?)?;
        }
    }
    Ok(values)
}

/// A list of candidates. The error is want of memory.
pub(crate) fn list_value(
    alloc: Global,
    schema: &Schema,
    list: Listing,
    all: &[Candidate],
) -> Result<Value, AllocError>
    ensures { IfOk result (λ v. view v ≡ list_data schema.now list all.now) }
{
    let values = listed(alloc, schema, list, all)?;
    Ok(Value::Array(values))
}

// The first, or null where there is none.
fn first_of(mut values: Vec<Value>) -> Value
    ensures { view result ≡ first_data (map view values.items) }
{
    if values.is_empty() {
        return Value::Null;
    }
    values.swap_remove(0)
}

/// The first candidate of a list, or null where there is none. The error is want of memory.
pub(crate) fn first_value(
    alloc: Global,
    schema: &Schema,
    list: Listing,
    all: &[Candidate],
) -> Result<Value, AllocError>
    ensures { IfOk result (λ v. view v ≡ first_data (listed schema.now list all.now)) }
{
    let values = listed(alloc, schema, list, all)?;
    Ok(first_of(values))
}
