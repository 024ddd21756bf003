ghost use Rattle.std.specs.Prelude.{◌≡◌, IfOk, IfErr, Ok, length};
ghost use Rattle.serde_json.specs.View.{view, members_view};
ghost use Rattle.rx_value.specs.Shape.{IsSchema};
ghost use Rattle.rx_stats.specs.Statistics.{IsStatistics};
ghost use Rattle.rx_stats_file.specs.Members.{listed};
ghost use Rattle.rx_stats_file.specs.Outcomes.{FaultOf};
ghost use Rattle.rx_stats_file.specs.Statistics.{numbers_for, replaced, given, stats_in, stats_of, TellsLeast};

use crate::faults::StatsFault;
use crate::numbers::{first_bad, numbers_of, value_named};
use crate::records::{fault_of, json_of, records_in};
use rx_stats::Statistics;
use rx_value::{Index, NumberList, Schema};
use serde_json::{Map, Value};
use std::alloc::{AllocError, Global};

// The numbers of an index: those of the member of its name, or else its own.
fn numbers_for(
    alloc: Global,
    records: &Map<String, Value>,
    index: &Index,
    own: &NumberList,
) -> Result<NumberList, AllocError>
    ensures { IfOk result (λ numbers. numbers ≡ numbers_for (listed (members_view records.now.entries)) index.now own.now) }
{
    match value_named(records, index) {
        Some(value) => numbers_of(alloc, value),
        None => own.copy(alloc),
    }
}

// The numbers of all indexes.
fn replaced(
    alloc: Global,
    indexes: &[Index],
    base: &[NumberList],
    records: &Map<String, Value>,
) -> Result<Statistics, AllocError>
    ensures { IfOk result (λ statistics. statistics ≡ replaced indexes.now base.now (listed (members_view records.now.entries))) }
{
    let mut statistics = Statistics::with_capacity(alloc, indexes.len())?;
    for (index, own) in indexes.iter().zip(base) {
        statistics.push(numbers_for(alloc, records, index, own)?)?;
    }
    Ok(statistics)
}

// What records per key give the indexes in place of their own numbers.
fn given(
    alloc: Global,
    indexes: &[Index],
    base: &[NumberList],
    records: &Map<String, Value>,
) -> Result<Statistics, StatsFault>
    ensures ok { IfOk result (λ statistics. given indexes.now base.now (listed (members_view records.now.entries)) ≡ Ok statistics) }
    ensures err { IfErr result (FaultOf (given indexes.now base.now (listed (members_view records.now.entries)))) }
{
    if let Some(name) = first_bad(indexes, records) {
        return Err(fault_of(alloc, name.as_bytes()));
    }
    Ok(replaced(alloc, indexes, base, records)?)
}

// What a value gives a table.
fn stats_in(
    alloc: Global,
    value: &Value,
    schema: &Schema,
    base: &Statistics,
) -> Result<Statistics, StatsFault>
    ensures ok { IfOk result (λ statistics. stats_in schema.now base.now (view value.now) ≡ Ok statistics) }
    ensures err { IfErr result (FaultOf (stats_in schema.now base.now (view value.now))) }
{
    match records_in(value) {
        Some(records) => given(alloc, schema.indexes.as_slice(), base.as_slice(), records),
        None => Err(fault_of(alloc, b"records_per_key")),
    }
}

/// The statistics of a table after a text of JSON, `{"records_per_key":{"NAME":[n1,n2]}}`: the numbers of records per key
/// that it names stand in place of those of the named indexes. A name is that of an index, by the same bytes, and its list
/// has a whole number from 1 to 1,000,000,000 for each part of that. Of a member that stands twice the last counts.
///
/// - `BadStats`: the field is `json` where the text isn't JSON in UTF-8; `records_per_key` where its value isn't an object
///   with this one member, that is an object; else the first name by bytes that no index is spelled as, or that has no
///   list for that index.
/// - `NoMemory`: there was no memory for the statistics.
pub fn read_stats(
    alloc: Global,
    text: &[u8],
    schema: &Schema,
    base: Statistics,
) -> Result<Statistics, StatsFault>
    requires limits { IsSchema schema.now }
    requires suits { IsStatistics schema.now base }
    ensures ok { IfOk result (λ statistics. stats_of schema.now base text.now ≡ Ok statistics) }
    ensures err { IfErr result (FaultOf (stats_of schema.now base text.now)) }
    ensures least { IfErr result (TellsLeast schema.now text.now) }
    ensures suits { IfOk result (IsStatistics schema.now) }
{
    match json_of(alloc, text)? {
        Some(value) => stats_in(alloc, &value, schema, &base),
        None => Err(fault_of(alloc, b"json")),
    }
}
