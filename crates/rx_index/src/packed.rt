//! Rows with one short word, as single numbers, which are sorted as they are.

ghost use Rattle.std.specs.Prelude.{◌≡◌, ◌≤◌, ◌<◌, ◌^◌, true, [], map, length, take, IfOk, IfSome};
ghost use Rattle.rx_value.specs.Limits.{most_rows};
ghost use Rattle.rx_index.specs.Heads.{sizes};
ghost use Rattle.rx_index.specs.Placed.{IsWords, IsOrdered, TellApart};
ghost use Rattle.rx_index.specs.Packed.{packed, unpacked, ArePackedTo, AreSorted};

use crate::fields::{Texts, words_of};
use crate::heads::{Field, head, is_brief};
use crate::orders::Placed;
use rx_value::{Column, Part, Row};
use std::alloc::{AllocError, Global};

// A row's word and its id as one number.
fn packed(head: u128, id: u32) -> u128
    requires { head < 2 ^ 96 }
    ensures { result ≡ packed (record { head = head; next = 0; id = id }) }
{
    head * 4_294_967_296 + u128::from(id)
}

// The row of such a number.
fn unpacked(number: u128) -> Placed
    ensures { result ≡ unpacked number }
{
    Placed {
        head: number / 4_294_967_296,
        next: 0,
        id: (number % 4_294_967_296) as u32,
    }
}

// The fields of the one word that keys on these parts consist of, where it is short and tells all keys apart. The error is want
// of memory.
fn brief_fields(
    alloc: Global,
    parts: &[Part],
    columns: &[Column],
) -> Result<Option<Vec<Field>>, AllocError>
    ensures words { IfOk result (λ o. IfSome o (λ fields. IsWords parts.now fields.items [] true)) }
    ensures brief { IfOk result (λ o. IfSome o (λ fields. sizes fields.items ≤ 2 ^ 96)) }
{
    let words = words_of(alloc, parts, columns, Texts::Brief)?;
    if words.whole && words.second.is_empty() && is_brief(words.first.as_slice()) {
        return Ok(Some(words.first));
    }
    Ok(None)
}

// The rows by their ids as numbers, none where a key has no word.
fn packed_by(alloc: Global, fields: &[Field], rows: &[Row]) -> Result<Option<Vec<u128>>, AllocError>
    requires few { length rows.now ≤ most_rows }
    requires brief { sizes fields.now ≤ 2 ^ 96 }
    ensures { IfOk result (λ o. IfSome o (λ numbers. ArePackedTo fields.now rows.now (length rows.now) numbers.items)) }
{
    let mut numbers = Vec::with_capacity(alloc, rows.len())?;
    for id in 0..rows.len() {
        let Some(word) = head(0, fields, &rows[id]) else {
            return Ok(None);
        };
        numbers.push(packed(word, id as u32))?;
    }
    Ok(Some(numbers))
}

// The rows of numbers. The error is want of memory.
fn unpack(alloc: Global, numbers: &[u128]) -> Result<Vec<Placed>, AllocError>
    ensures { IfOk result (λ list. list.items ≡ map unpacked numbers.now) }
{
    let mut list = Vec::with_capacity(alloc, numbers.len())?;
    for number in numbers {
        list.push(unpacked(*number))?;
    }
    Ok(list)
}

// The rows of numbers in the order of these. The error is want of memory.
fn sorted(alloc: Global, numbers: Vec<u128>) -> Result<Vec<Placed>, AllocError>
    ensures { IfOk result (λ list. AreSorted numbers.items list.items) }
{
    let mut numbers = numbers;
    numbers.sort_unstable();
    unpack(alloc, numbers.as_slice())
}

/// Rows in the order of the entries of an index, whose words tell keys apart, where its keys consist of one short word each.
/// The error is want of memory.
pub(crate) fn in_packed_order(
    alloc: Global,
    parts: &[Part],
    columns: &[Column],
    rows: &[Row],
) -> Result<Option<Vec<Placed>>, AllocError>
    requires { length rows.now ≤ most_rows }
    ensures ordered { IfOk result (λ o. IfSome o (λ list. IsOrdered parts.now rows.now list.items)) }
    ensures whole { IfOk result (λ o. IfSome o (λ list. TellApart parts.now rows.now list.items)) }
{
    let Some(fields) = brief_fields(alloc, parts, columns)? else {
        return Ok(None);
    };
    let Some(numbers) = packed_by(alloc, fields.as_slice(), rows)? else {
        return Ok(None);
    };
    let list = sorted(alloc, numbers)?;
    Ok(Some(list))
}
