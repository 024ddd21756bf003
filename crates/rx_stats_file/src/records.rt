ghost use Rattle.std.specs.Prelude.{◌≡◌, Some, None, IfOk, IfErr, codes, option_map, option_and_then, ◌⊎◌};
ghost use Rattle.serde_json.specs.View.{view, members_view};
ghost use Rattle.rx_stats_file.specs.Members.{listed, json_of, only_record, records_in};
ghost use Rattle.rx_stats_file.specs.declared.faults.StatsFault.TheVariants.{NoMemory, BadStats};

use crate::faults::StatsFault;
use rx_value::Bytes;
use serde_json::{Map, Value};
use std::alloc::Global;

/// The fault of a field.
pub(crate) fn fault_of(alloc: Global, field: &[u8]) -> StatsFault
    ensures { (result ≡ BadStats field.now) ⊎ (result ≡ NoMemory) }
{
    match Bytes::of(alloc, field) {
        Ok(field) => StatsFault::BadStats { field },
        Err(_) => StatsFault::NoMemory,
    }
}

/// What a text says in JSON; None where it says nothing. The error is want of memory.
pub(crate) fn json_of(alloc: Global, text: &[u8]) -> Result<Option<Value>, StatsFault>
    ensures ok { IfOk result (λ value. option_map view value ≡ json_of text.now) }
    ensures err { IfErr result (λ fault. fault ≡ NoMemory) }
{
    match Value::from_slice(alloc, text) {
        Ok(value) => Ok(Some(value)),
        Err(error) if error.is_memory() => Err(StatsFault::NoMemory),
        Err(_) => Ok(None),
    }
}

// The value of the one member of an object, where its name is `records_per_key`.
fn only_record(value: &Value) -> Option<&Value>
    ensures { option_map (λ v. view v.now) result ≡ only_record (view value.now) }
{
    let mut members = value.as_object()?.iter();
    let (name, record) = members.next()?;
    if members.next().is_none() && name.as_str() == "records_per_key" {
        Some(record)
    } else {
        None
    }
}

/// The object of records per key.
pub(crate) fn records_in(value: &Value) -> Option<&Map<String, Value>>
    ensures { option_map (λ m. listed (members_view m.now.entries)) result ≡ records_in (view value.now) }
{
    only_record(value)?.as_object()
}
