//! How many different keys an index has on its first parts.

ghost use Rattle.std.specs.Prelude.{◌≡◌, ◌≤◌, ◌<◌, map, length, IfOk, OnOk, All};
ghost use Rattle.std.specs.Ordering.{is_eq};
ghost use Rattle.rx_value.specs.Parts.{borrowed};
ghost use Rattle.rx_value.specs.Limits.{most_rows};
ghost use Rattle.rx_value.specs.Keys.{part_cmp};
ghost use Rattle.rx_index.specs.Entries.{IsOrder};
ghost use Rattle.rx_index.specs.Different.{HasDifferent, fronts, AreDifferentTo, AreDifferent};
ghost use Rattle.rx_index.specs.Marks.{values_of, count_marked, count_new_words, has_new_words, IsFirstMarked, AreMarkedTo};

use crate::orders::{Placed, has_same_words};
use rx_value::{NumberList, Part, PartValue, Row};
use std::alloc::{AllocError, Global};
use std::cmp::Ordering;

// The values that the rows of entries have on a part, in the order of the entries. They are taken out first, so that the rows,
// which lie anywhere in memory, are waited for together.
fn values_on<'a>(
    alloc: Global,
    part: &Part,
    rows: &'a [Row],
    ids: &[u32],
) -> Result<Vec<PartValue<'a>>, AllocError>
    requires { All (λ id. id < length rows.now) ids.now }
    ensures { IfOk result (λ values. map borrowed values.items ≡ values_of part.now rows.now ids.now) }
{
    let mut values = Vec::with_capacity(alloc, ids.len())?;
    for id in ids {
        values.push(part.value(&rows[*id as usize]))?;
    }
    Ok(values)
}

fn is_same(falling: bool, a: PartValue<'_>, b: PartValue<'_>) -> bool
    ensures { result ≡ is_eq (part_cmp falling (borrowed a.entry) (borrowed b.entry)) }
{
    match a.compare(b, falling) {
        Ordering::Equal => true,
        _ => false,
    }
}

// Marks the entries that have another value on a part than the one before them.
fn mark(falling: bool, values: &[PartValue<'_>], marks: &mut [bool])
    requires { length values.now ≡ length marks.old }
    ensures { AreMarkedTo falling (map borrowed values.now) (length marks.old) marks.old marks.new }
{
    for place in 1..marks.len() {
        if !is_same(falling, values[place - 1], values[place]) {
            marks[place] = true;
        }
    }
}

// Marks the entries of which the rows have another value on a part than that of the one before them. The error is want of memory.
fn mark_part(
    alloc: Global,
    part: &Part,
    rows: &[Row],
    ids: &[u32],
    marks: &mut [bool],
) -> Result<(), AllocError>
    requires ids { All (λ id. id < length rows.now) ids.now }
    requires as_many { length marks.old ≡ length ids.now }
    ensures { OnOk result (AreMarkedTo part.now.descending (values_of part.now rows.now ids.now) (length marks.old) marks.old marks.new) }
{
    let values = values_on(alloc, part, rows, ids)?;
    mark(part.descending, values.as_slice(), marks);
    Ok(())
}

// The marks of so many entries of which the first alone is one.
fn first_marks(alloc: Global, count: usize) -> Result<Vec<bool>, AllocError>
    ensures { IfOk result (λ marks. IsFirstMarked count marks.items) }
{
    let mut marks = vec![in alloc; false; count]?;
    if count > 0 {
        marks[0] = true;
    }
    Ok(marks)
}

fn count_marks(marks: &[bool]) -> u32
    requires { length marks.now ≤ most_rows }
    ensures { result ≡ count_marked marks.now }
{
    marks.iter().filter(|mark| **mark).count() as u32
}

/// How many different keys the entries of an index have on its first part, on its first two, and so on up to so many parts.
/// The error is want of memory.
pub(crate) fn different_to(
    alloc: Global,
    parts: &[Part],
    rows: &[Row],
    ids: &[u32],
    count: usize,
) -> Result<NumberList, AllocError>
    requires order { IsOrder parts.now rows.now ids.now }
    requires few { length rows.now ≤ most_rows }
    requires within { count ≤ length parts.now }
    ensures { IfOk result (λ counts. AreDifferentTo parts.now rows.now count counts) }
{
    let mut counts = NumberList::with_capacity(alloc, parts.len())?;
    let mut marks = first_marks(alloc, ids.len())?;
    for n in 0..count {
        mark_part(alloc, &parts[n], rows, ids, marks.as_mut_slice())?;
        counts.push(count_marks(marks.as_slice()))?;
    }
    Ok(counts)
}

/// The same on each number of first parts, where it is known how many different keys there are on all parts. The error is want
/// of memory.
pub(crate) fn different_with(
    alloc: Global,
    parts: &[Part],
    rows: &[Row],
    ids: &[u32],
    all: u32,
) -> Result<NumberList, AllocError>
    requires order { IsOrder parts.now rows.now ids.now }
    requires few { length rows.now ≤ most_rows }
    requires all { HasDifferent (fronts parts.now (length parts.now) rows.now) all }
    ensures { IfOk result (AreDifferent parts.now rows.now) }
{
    let Some(count) = parts.len().checked_sub(1) else {
        return different_to(alloc, parts, rows, ids, 0);
    };
    let mut counts = different_to(alloc, parts, rows, ids, count)?;
    counts.push(all)?;
    Ok(counts)
}

// Whether the row at a place is the first, or has other words than the one before it.
fn has_new_words(list: &[Placed], place: usize) -> bool
    requires { place < length list.now }
    ensures { result ≡ has_new_words list.now place }
{
    place == 0 || !has_same_words(&list[place - 1], &list[place])
}

/// How many rows have other words than the one before them, the first among them.
pub(crate) fn count_new_words(list: &[Placed]) -> u32
    requires { length list.now ≤ most_rows }
    ensures { result ≡ count_new_words list.now (length list.now) }
{
    let mut count = 0;
    for place in 0..list.len() {
        if has_new_words(list, place) {
            count += 1;
        }
    }
    count
}
