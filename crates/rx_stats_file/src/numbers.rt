ghost use Rattle.std.specs.Prelude.{◌≡◌, map, not, is_some, option_map, IfOk, find};
ghost use Rattle.std.specs.List.{list_any, list_all};
ghost use Rattle.serde_json.specs.View.{view, members_view};
ghost use Rattle.rx_stats_file.specs.Members.{listed};
ghost use Rattle.rx_stats_file.specs.Statistics.{number_of, are_numbers_for, is_list_for, numbers_of, is_named, fits, is_good};

use rx_value::{Index, NumberList};
use serde_json::{Map, Value};
use std::alloc::{AllocError, Global};

// The most records per key.
const MOST_PER_KEY: u64 = 1_000_000_000;

// The number of records per key that a value is.
#[tactic(auto, unfolding(crate::specs::Statistics::number_of))]
fn number_of(value: &Value) -> Option<u32>
    ensures { result ≡ number_of (view value.now) }
{
    match value.as_u64() {
        Some(n) if 1 <= n && n <= MOST_PER_KEY => Some(n as u32),
        _ => None,
    }
}

fn is_number(value: &Value) -> bool
    ensures { result ≡ is_some (number_of (view value.now)) }
{
    number_of(value).is_some()
}

fn are_numbers(items: &[Value]) -> bool
    ensures { result ≡ list_all (λ item. is_some (number_of (view item))) items.now }
{
    items.iter().all(|item| is_number(item))
}

// Whether items are one number for each part of an index.
#[tactic(auto, using(crate::proofs::Finding::as_many_items, crate::proofs::Finding::other_count))]
fn are_numbers_for(index: &Index, items: &[Value]) -> bool
    ensures { result ≡ are_numbers_for index.now (map view items.now) }
{
    items.len() == index.parts.len() && are_numbers(items)
}

// Whether a value is a list of one number for each part of an index.
fn is_list_for(index: &Index, value: &Value) -> bool
    ensures { result ≡ is_list_for index.now (view value.now) }
{
    match value.as_array() {
        Some(items) => are_numbers_for(index, items.as_slice()),
        None => false,
    }
}

fn is_named(name: &[u8], index: &Index) -> bool
    ensures { result ≡ is_named name.now index.now }
{
    name == index.name.as_slice()
}

// Whether a member has a list for an index, or another name.
fn fits(name: &[u8], value: &Value, index: &Index) -> bool
    ensures { result ≡ fits (name.now, view value.now) index.now }
{
    !is_named(name, index) || is_list_for(index, value)
}

fn any_named(indexes: &[Index], name: &[u8]) -> bool
    ensures { result ≡ list_any (is_named name.now) indexes.now }
{
    indexes.iter().any(|index| is_named(name, index))
}

fn all_fit(indexes: &[Index], name: &[u8], value: &Value) -> bool
    ensures { result ≡ list_all (fits (name.now, view value.now)) indexes.now }
{
    indexes.iter().all(|index| fits(name, value, index))
}

// Whether an index is spelled as a member's name, and has its list there.
fn is_good(indexes: &[Index], name: &[u8], value: &Value) -> bool
    ensures { result ≡ is_good indexes.now (name.now, view value.now) }
{
    any_named(indexes, name) && all_fit(indexes, name, value)
}

/// The name of the first member that no index is spelled as, or that has no list for that index.
pub(crate) fn first_bad<'a>(indexes: &[Index], records: &'a Map<String, Value>) -> Option<&'a str>
    ensures { option_map (λ name. name.now) result ≡ option_map (λ m. m.0) (find (λ m. not (is_good indexes.now m)) (listed (members_view records.now.entries))) }
{
    for (name, value) in records.iter() {
        if !is_good(indexes, name.as_bytes(), value) {
            return Some(name.as_str());
        }
    }
    None
}

/// The value of the member of an index's name.
pub(crate) fn value_named<'a>(records: &'a Map<String, Value>, index: &Index) -> Option<&'a Value>
    ensures { option_map (λ value. view value.now) result ≡ option_map (λ m. m.1) (find (λ m. is_named m.0 index.now) (listed (members_view records.now.entries))) }
{
    for (name, value) in records.iter() {
        if is_named(name.as_bytes(), index) {
            return Some(value);
        }
    }
    None
}

/// The numbers of a list. The error is want of memory.
pub(crate) fn numbers_of(alloc: Global, value: &Value) -> Result<NumberList, AllocError>
    ensures { IfOk result (λ numbers. numbers ≡ numbers_of (view value.now)) }
{
    let mut numbers = NumberList::new(alloc);
    let Some(items) = value.as_array() else {
        return Ok(numbers);
    };
    for item in items {
        if let Some(number) = number_of(item) {
            numbers.push(number)?;
        }
    }
    Ok(numbers)
}
