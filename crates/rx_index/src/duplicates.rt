ghost use Rattle.std.specs.Prelude.{◌≡◌, ◌≤◌, ◌<◌, ◌^◌, true, length, IfOk};
ghost use Rattle.rx_value.specs.Limits.{most_rows};
ghost use Rattle.rx_index.specs.Entries.{AreOrders};
ghost use Rattle.rx_index.specs.Different.{AreDifferent, AreAllDifferent};
ghost use Rattle.rx_index.specs.Duplicates.{IsFirst, RepeatsUnique};
ghost use Rattle.rx_index.specs.Marks.{DoRise};
ghost use Rattle.rx_index.specs.Placed.{ids_in, IsOrdered, TellApart};
ghost use Rattle.rx_index.specs.Soonest.{IsSoonest, IsEnteredOn, sooner};

use crate::different::{count_new_words, different_to, different_with};
use crate::in_place::do_rise;
use crate::orders::{Numbered, Placed, all_ids, ids_of, in_order};
use crate::repeats::first_repeat;
use rx_value::{Column, Index, NumberList, OrderLists, Part, Row};
use std::alloc::{AllocError, Global};

/// A row, from 0, that has the key of an earlier one, and the unique index on which it has.
#[derive(Clone, Copy)]
pub(crate) struct Duplicate {
    pub index: u32,
    pub row: u32,
}

/// The entries of indexes, how many different keys these have, and the first duplicate.
#[derive(Drop)]
pub(crate) struct Entries {
    pub orders: OrderLists,
    pub different: OrderLists,
    pub first: Option<Duplicate>,
}

// The entries of an index, the first row that repeats a key where it is unique, and how many different keys there are.
#[derive(Drop)]
struct Entered {
    ids: NumberList,
    repeat: Option<u32>,
    different: NumberList,
}

// The first row that repeats a key of an index, where this is unique; the list has its entries.
fn repeat_of(index: &Index, rows: &[Row], list: &[Placed]) -> Option<u32>
    requires { IsOrdered index.now.parts rows.now list.now }
    ensures { IsFirst (RepeatsUnique index.now rows.now) result }
{
    if index.unique {
        first_repeat(index.parts.as_slice(), rows, list)
    } else {
        None
    }
}

// How many different keys an index has on its first parts: on all of them as many as there are different words, where these tell
// keys apart.
fn different_in(
    alloc: Global,
    parts: &[Part],
    rows: &[Row],
    ids: &[u32],
    numbered: &Numbered,
) -> Result<NumberList, AllocError>
    requires few { length rows.now ≤ most_rows }
    requires ids { ids.now ≡ ids_in numbered.now.list.items }
    requires ordered { IsOrdered parts.now rows.now numbered.now.list.items }
    requires whole { numbered.now.whole ≡ true → TellApart parts.now rows.now numbered.now.list.items }
    ensures { IfOk result (AreDifferent parts.now rows.now) }
{
    if numbered.whole {
        let all = count_new_words(numbered.list.as_slice());
        different_with(alloc, parts, rows, ids, all)
    } else {
        different_to(alloc, parts, rows, ids, parts.len())
    }
}

// What is entered by sorting.
fn enter_sorted(
    alloc: Global,
    columns: &[Column],
    index: &Index,
    rows: &[Row],
) -> Result<Entered, AllocError>
    requires { length rows.now ≤ most_rows }
    ensures { IfOk result (IsEnteredOn index.now rows.now) }
{
    let parts = index.parts.as_slice();
    let numbered = in_order(alloc, parts, columns, rows)?;
    let repeat = repeat_of(index, rows, numbered.list.as_slice());
    let ids = ids_of(alloc, numbered.list.as_slice())?;
    let different = different_in(alloc, parts, rows, ids.as_slice(), &numbered)?;
    Ok(Entered {
        ids,
        repeat,
        different,
    })
}

// What is entered where each row is before the next one by its key, so that nothing is to be sorted.
fn enter_risen(alloc: Global, index: &Index, rows: &[Row]) -> Result<Entered, AllocError>
    requires few { length rows.now ≤ most_rows }
    requires risen { DoRise index.now.parts rows.now }
    ensures { IfOk result (IsEnteredOn index.now rows.now) }
{
    let ids = all_ids(alloc, rows.len())?;
    let parts = index.parts.as_slice();
    let different = different_with(alloc, parts, rows, ids.as_slice(), rows.len() as u32)?;
    Ok(Entered {
        ids,
        repeat: None,
        different,
    })
}

fn enter(
    alloc: Global,
    columns: &[Column],
    index: &Index,
    rows: &[Row],
) -> Result<Entered, AllocError>
    requires { length rows.now ≤ most_rows }
    ensures { IfOk result (IsEnteredOn index.now rows.now) }
{
    if do_rise(index.parts.as_slice(), rows) {
        enter_risen(alloc, index, rows)
    } else {
        enter_sorted(alloc, columns, index, rows)
    }
}

// The sooner of a duplicate and the row that one more index has, the former where they are equal.
fn sooner(first: Option<Duplicate>, index: u32, row: Option<u32>) -> Option<Duplicate>
    ensures { result ≡ sooner first index row }
{
    let Some(row) = row else {
        return first;
    };
    match first {
        Some(first) if first.row <= row => Some(first),
        _ => Some(Duplicate { index, row }),
    }
}

/// The entries of indexes over rows, and the first row that repeats a key of one that is unique, with the first such index
/// for it; the columns are those of the table. The error is want of memory.
pub(crate) fn entries_of(
    alloc: Global,
    columns: &[Column],
    indexes: &[Index],
    rows: &[Row],
) -> Result<Entries, AllocError>
    requires rows { length rows.now ≤ most_rows }
    requires indexes { length indexes.now < 2 ^ 32 }
    ensures orders { IfOk result (λ e. AreOrders indexes.now rows.now e.orders) }
    ensures different { IfOk result (λ e. AreAllDifferent indexes.now rows.now e.different) }
    ensures first { IfOk result (λ e. IsSoonest indexes.now rows.now (length indexes.now) e.first) }
{
    let mut first = None;
    let mut orders = OrderLists::with_capacity(alloc, indexes.len())?;
    let mut different = OrderLists::with_capacity(alloc, indexes.len())?;
    for n in 0..indexes.len() {
        let entered = enter(alloc, columns, &indexes[n], rows)?;
        first = sooner(first, n as u32, entered.repeat);
        orders.push(entered.ids)?;
        different.push(entered.different)?;
    }
    Ok(Entries {
        orders,
        different,
        first,
    })
}
