ghost use Rattle.std.specs.Prelude.{◌≡◌, ◌≤◌, ◌↔◌, IsTrue, true, false, [], length, IfOk, IfSome};
ghost use Rattle.std.specs.List.{range_with_len};
ghost use Rattle.rx_value.specs.Limits.{most_rows};
ghost use Rattle.rx_index.specs.Steps.{row_or, cmp_with};
ghost use Rattle.rx_index.specs.Placed.{placed_cmp, words_cmp, ids_in, IsPlacedAs, ArePlaced, IsNumbered, IsOrdered, TellApart};
ghost use Rattle.rx_index.specs.Heads.{IsHead, HasSpace};
ghost use Rattle.rx_index.specs.Marks.{same_words};

use crate::fields::{Texts, Words, words_of};
use crate::heads::{has_space, head};
use crate::packed::in_packed_order;
use rx_value::{Column, NumberList, Part, Row, compare_keys};
use std::alloc::{AllocError, Global};
use std::cmp::Ordering;

// The row with an id, and another where there is none.
fn row_or<'a>(rows: &'a [Row], id: u32, other: &'a Row) -> &'a Row
    ensures { result.now ≡ row_or other.now rows.now id }
{
    match rows.get(id as usize) {
        Some(row) => row,
        None => other,
    }
}

// By key on these parts, and then by rising id; an id without a row has the key of another row.
fn compare_entries(parts: &[Part], rows: &[Row], other: &Row, a: u32, b: u32) -> Ordering
    ensures { result ≡ cmp_with other.now parts.now rows.now a b }
{
    match compare_keys(parts, row_or(rows, a, other), row_or(rows, b, other)) {
        Ordering::Equal => a.cmp(&b),
        order => order,
    }
}

// A row's id, and the words that its key begins with.
#[derive(Clone, Copy)]
pub(crate) struct Placed {
    pub head: u128,
    pub next: u128,
    pub id: u32,
}

/// Rows with their words, and whether keys with the same words are equal.
#[derive(Drop)]
pub(crate) struct Numbered {
    pub list: Vec<Placed>,
    pub whole: bool,
}

// By the words first, so that few keys are looked up.
fn compare_placed(parts: &[Part], rows: &[Row], other: &Row, a: &Placed, b: &Placed) -> Ordering
    ensures { result ≡ placed_cmp other.now parts.now rows.now a.now b.now }
{
    match a.head.cmp(&b.head).then(a.next.cmp(&b.next)) {
        Ordering::Equal => compare_entries(parts, rows, other, a.id, b.id),
        order => order,
    }
}

fn compare_words(a: &Placed, b: &Placed) -> Ordering
    ensures { result ≡ words_cmp a.now b.now }
{
    match a.head.cmp(&b.head) {
        Ordering::Equal => a.next.cmp(&b.next).then(a.id.cmp(&b.id)),
        order => order,
    }
}

/// Whether rows have the same words.
pub(crate) fn has_same_words(a: &Placed, b: &Placed) -> bool
    ensures value { result ≡ same_words a.now b.now }
    ensures same { IsTrue result ↔ ((a.now.head ≡ b.now.head) × (a.now.next ≡ b.now.next)) }
{
    a.head == b.head && a.next == b.next
}

fn second_word(words: &Words, row: &Row) -> Option<u128>
    requires { HasSpace 0 words.now.second.items }
    ensures { IfSome result (λ n. IsHead 0 words.now.second.items row.now n) }
{
    head(0, words.second.as_slice(), row)
}

fn place_of(words: &Words, row: &Row, id: u32) -> Option<Placed>
    requires first { HasSpace 0 words.now.first.items }
    requires second { HasSpace 0 words.now.second.items }
    ensures { IfSome result (λ p. IsPlacedAs words.now.first.items words.now.second.items row.now id p) }
{
    let head = head(0, words.first.as_slice(), row)?;
    let next = second_word(words, row)?;
    Some(Placed { head, next, id })
}

// Whether both words have room for their fields.
fn have_space(words: &Words) -> bool
    ensures first { result ≡ true → HasSpace 0 words.now.first.items }
    ensures second { result ≡ true → HasSpace 0 words.now.second.items }
{
    has_space(words.first.as_slice()) && has_space(words.second.as_slice())
}

// The rows with their words, none where a key has none.
fn placed_by(alloc: Global, words: &Words, rows: &[Row]) -> Result<Option<Vec<Placed>>, AllocError>
    requires { length rows.now ≤ most_rows }
    ensures { IfOk result (λ o. IfSome o (λ list. ArePlaced words.now.first.items words.now.second.items rows.now (length rows.now) list.items)) }
{
    if !have_space(words) {
        return Ok(None);
    }
    let mut list = Vec::with_capacity(alloc, rows.len())?;
    for id in 0..rows.len() {
        let Some(place) = place_of(words, &rows[id], id as u32) else {
            return Ok(None);
        };
        list.push(place)?;
    }
    Ok(Some(list))
}

// The rows with no words.
fn unnumbered(alloc: Global, rows: &[Row]) -> Result<Vec<Placed>, AllocError>
    requires { length rows.now ≤ most_rows }
    ensures { IfOk result (λ list. ArePlaced [] [] rows.now (length rows.now) list.items) }
{
    let mut list = Vec::with_capacity(alloc, rows.len())?;
    for id in 0..rows.len() {
        list.push(Placed {
            head: 0,
            next: 0,
            id: id as u32,
        })?;
    }
    Ok(list)
}

fn numbered_by(
    alloc: Global,
    parts: &[Part],
    columns: &[Column],
    rows: &[Row],
    texts: Texts,
) -> Result<Option<Numbered>, AllocError>
    requires { length rows.now ≤ most_rows }
    ensures { IfOk result (λ o. IfSome o (λ n. IsNumbered parts.now rows.now n.list.items n.whole)) }
{
    let words = words_of(alloc, parts, columns, texts)?;
    let Some(list) = placed_by(alloc, &words, rows)? else {
        return Ok(None);
    };
    Ok(Some(Numbered {
        list,
        whole: words.whole,
    }))
}

#[tactic(auto, using(crate::proofs::Numbering::none_numbered))]
fn with_words(
    alloc: Global,
    parts: &[Part],
    columns: &[Column],
    rows: &[Row],
) -> Result<Numbered, AllocError>
    requires { length rows.now ≤ most_rows }
    ensures { IfOk result (λ n. IsNumbered parts.now rows.now n.list.items n.whole) }
{
    if let Some(numbered) = numbered_by(alloc, parts, columns, rows, Texts::Whole)? {
        return Ok(numbered);
    }
    if let Some(numbered) = numbered_by(alloc, parts, columns, rows, Texts::Front)? {
        return Ok(numbered);
    }
    let list = unnumbered(alloc, rows)?;
    Ok(Numbered { list, whole: false })
}

fn by_entries(
    alloc: Global,
    parts: &[Part],
    rows: &[Row],
    list: Vec<Placed>,
) -> Result<Vec<Placed>, AllocError>
    requires { IsNumbered parts.now rows.now list.items false }
    ensures { IfOk result (λ sorted. IsOrdered parts.now rows.now sorted.items) }
{
    let mut sorted = list;
    let none = Row::new(alloc);
    sorted.sort_by(|a, b| compare_placed(parts, rows, &none, a, b))?;
    Ok(sorted)
}

fn by_words(parts: &[Part], rows: &[Row], list: Vec<Placed>) -> Result<Vec<Placed>, AllocError>
    requires { IsNumbered parts.now rows.now list.items true }
    ensures ordered { IfOk result (λ sorted. IsOrdered parts.now rows.now sorted.items) }
    ensures whole { IfOk result (λ sorted. TellApart parts.now rows.now sorted.items) }
{
    let mut sorted = list;
    sorted.sort_by(|a, b| compare_words(a, b))?;
    Ok(sorted)
}

#[tactic(auto, using(crate::proofs::Numbering::any_numbered))]
fn sorted(
    alloc: Global,
    parts: &[Part],
    rows: &[Row],
    numbered: Numbered,
) -> Result<Vec<Placed>, AllocError>
    requires { IsNumbered parts.now rows.now numbered.list.items numbered.whole }
    ensures ordered { IfOk result (λ sorted. IsOrdered parts.now rows.now sorted.items) }
    ensures whole { IfOk result (λ sorted. numbered.whole ≡ true → TellApart parts.now rows.now sorted.items) }
{
    if numbered.whole {
        by_words(parts, rows, numbered.list)
    } else {
        by_entries(alloc, parts, rows, numbered.list)
    }
}

/// All ids of so many rows, rising. The error is want of memory.
pub(crate) fn all_ids(alloc: Global, count: usize) -> Result<NumberList, AllocError>
    requires { count ≤ most_rows }
    ensures { IfOk result (λ ids. ids ≡ range_with_len 0 count) }
{
    let mut ids = NumberList::with_capacity(alloc, count)?;
    for id in 0..count {
        ids.push(id as u32)?;
    }
    Ok(ids)
}

/// The ids of a list in its order. The error is want of memory.
pub(crate) fn ids_of(alloc: Global, list: &[Placed]) -> Result<NumberList, AllocError>
    ensures { IfOk result (λ ids. ids ≡ ids_in list.now) }
{
    let mut ids = NumberList::with_capacity(alloc, list.len())?;
    for place in list {
        ids.push(place.id)?;
    }
    Ok(ids)
}

/// Rows in the order of the entries of an index, with the words that their keys begin with; the columns are those of the
/// table. The error is want of memory.
pub(crate) fn in_order(
    alloc: Global,
    parts: &[Part],
    columns: &[Column],
    rows: &[Row],
) -> Result<Numbered, AllocError>
    requires { length rows.now ≤ most_rows }
    ensures ordered { IfOk result (λ n. IsOrdered parts.now rows.now n.list.items) }
    ensures whole { IfOk result (λ n. n.whole ≡ true → TellApart parts.now rows.now n.list.items) }
{
    if let Some(list) = in_packed_order(alloc, parts, columns, rows)? {
        return Ok(Numbered { list, whole: true });
    }
    let numbered = with_words(alloc, parts, columns, rows)?;
    let whole = numbered.whole;
    let list = sorted(alloc, parts, rows, numbered)?;
    Ok(Numbered { list, whole })
}
