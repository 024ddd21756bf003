//! Values in order, and rows as they are printed.

use crate::faults::Fault;
use crate::texts::{add_shown, bytes_of, words_of};
use rx_query::{Item, ItemList};
use rx_rows::{print_projected, print_row, project};
use rx_value::{Bytes, Row, Value, compare};
use std::alloc::Global;
use std::cmp::Ordering;

/// The value of a word: `NULL`, an integer, or a text behind a quote.
pub fn value_of(alloc: Global, word: &str) -> Result<Value, Fault> {
    if word == "NULL" {
        return Ok(Value::Null);
    }
    if let Some(text) = word.strip_prefix('\'') {
        return Ok(Value::Text(bytes_of(alloc, text)?));
    }
    match word.parse::<i128>() {
        Ok(n) => Ok(Value::Int(n)),
        Err(_) => Err(Fault::Unreadable),
    }
}

/// The values of the words of a field.
pub fn row_of(alloc: Global, field: &str) -> Result<Row, Fault> {
    let mut row = Row::new(alloc);
    for word in field.split_whitespace() {
        row.push(value_of(alloc, word)?)?;
    }
    Ok(row)
}

fn sign_of(order: Ordering) -> u8 {
    match order {
        Ordering::Less => b'<',
        Ordering::Equal => b'=',
        Ordering::Greater => b'>',
    }
}

/// Adds how each value stands to each, copied.
pub fn add_order(alloc: Global, field: &str, into: &mut Bytes) -> Result<(), Fault> {
    let row = row_of(alloc, field)?;
    let copied = row.copy(alloc)?;
    for value in row.as_slice() {
        for other in copied.as_slice() {
            into.push(sign_of(compare(value, other)))?;
        }
        into.push(b' ')?;
    }
    Ok(())
}

/// Adds the line of these columns of a row, of the whole row where they are `*`.
pub fn add_row(alloc: Global, columns: &str, values: &str, into: &mut Bytes) -> Result<(), Fault> {
    let row = row_of(alloc, values)?;
    let mut line = Bytes::new(alloc);
    if columns == "*" {
        print_row(&row, &mut line)?;
    } else {
        print_columns(alloc, columns, &row, &mut line)?;
    }
    add_shown(line.as_slice(), into)?;
    Ok(())
}

fn print_columns(alloc: Global, columns: &str, row: &Row, line: &mut Bytes) -> Result<(), Fault> {
    let items = items_of(alloc, columns)?;
    print_projected(&project(items.as_slice(), row), line)?;
    Ok(())
}

fn items_of(alloc: Global, columns: &str) -> Result<ItemList, Fault> {
    let mut items = ItemList::new(alloc);
    for word in words_of(alloc, columns)?.as_slice() {
        match word.parse::<u32>() {
            Ok(column) => items.push(Item::Column(column))?,
            Err(_) => return Err(Fault::Unreadable),
        }
    }
    Ok(items)
}
