ghost use Rattle.std.specs.Prelude.{◌≡◌, ◌-◌, ◌<◌, ◌≤◌, get_or, length};
ghost use Rattle.std.specs.List.{list_any};
ghost use Rattle.rx_value.specs.Keys.{key_of};
ghost use Rattle.rx_value.specs.Parts.{borrowed};
ghost use Rattle.rx_index.specs.Placed.{IsOrdered, ids_in};
ghost use Rattle.rx_index.specs.Duplicates.{is_null, Repeats, IsFirst};
ghost use Rattle.rx_index.specs.Steps.{pairs_up, least_of};

use crate::orders::{Placed, has_same_words};
use rx_value::{Part, PartValue, Row, compare_keys};
use std::cmp::Ordering;

fn is_null(value: PartValue<'_>) -> bool
    ensures { result ≡ is_null (borrowed value.entry) }
{
    matches!(value, PartValue::Null)
}

fn has_null(parts: &[Part], row: &Row) -> bool
    ensures { result ≡ list_any is_null (key_of parts.now row.now) }
{
    let Some((part, parts)) = parts.split_first() else {
        return false;
    };
    is_null(part.value(row)) || has_null(parts, row)
}

// Whether the second of two entries has the key of the first, without NULL.
fn has_same_key(parts: &[Part], rows: &[Row], a: u32, b: u32) -> bool
    requires first { a < length rows.now }
    requires second { b < length rows.now }
    ensures { result ≡ pairs_up parts.now rows.now a b }
{
    let (first, second) = (&rows[a as usize], &rows[b as usize]);
    match compare_keys(parts, first, second) {
        Ordering::Equal => !has_null(parts, second),
        _ => false,
    }
}

// Whether the entry at a place has the key of the one before, without NULL; keys are looked up where the words are the same.
fn repeats_at(parts: &[Part], rows: &[Row], list: &[Placed], place: usize) -> bool
    requires ordered { IsOrdered parts.now rows.now list.now }
    requires behind { 1 ≤ place }
    requires within { place < length list.now }
    ensures { result ≡ pairs_up parts.now rows.now (get_or (ids_in list.now) (place - 1) 0) (get_or (ids_in list.now) place 0) }
{
    let (a, b) = (list[place - 1], list[place]);
    has_same_words(&a, &b) && has_same_key(parts, rows, a.id, b.id)
}

fn least_of(first: Option<u32>, row: u32) -> u32
    ensures { result ≡ least_of first row }
{
    match first {
        Some(first) => first.min(row),
        None => row,
    }
}

/// The first row, from 0, that has the key of an earlier one without NULL; the list has the entries of the index.
pub(crate) fn first_repeat(parts: &[Part], rows: &[Row], list: &[Placed]) -> Option<u32>
    requires { IsOrdered parts.now rows.now list.now }
    ensures { IsFirst (Repeats parts.now rows.now) result }
{
    let mut first = None;
    for place in 1..list.len() {
        if repeats_at(parts, rows, list, place) {
            first = Some(least_of(first, list[place].id));
        }
    }
    first
}
