//! Values, ends and ranges as cases spell them.

use case_lines::Fault;
use rx_value::{Bytes, End, Key, KeyRange, Side, Span, Value};
use std::alloc::Global;

/// The words of a text, which stand between blanks.
pub fn words_of<'a>(alloc: Global, text: &'a str) -> Result<Vec<&'a str>, Fault> {
    match text.split_whitespace().collect(alloc) {
        Ok(words) => Ok(words),
        Err(_) => Err(Fault::NoMemory),
    }
}

fn text_of(alloc: Global, word: &str) -> Result<Value, Fault> {
    let Some(text) = word.strip_suffix('\'') else {
        return Err(Fault::Unreadable);
    };
    match Bytes::of(alloc, text.as_bytes()) {
        Ok(text) => Ok(Value::Text(text)),
        Err(_) => Err(Fault::NoMemory),
    }
}

// `NULL`, an integer, or a text between quotes.
fn value_of(alloc: Global, word: &str) -> Result<Value, Fault> {
    if word == "NULL" {
        return Ok(Value::Null);
    }
    if let Some(text) = word.strip_prefix('\'') {
        return text_of(alloc, text);
    }
    match word.parse::<i128>() {
        Ok(n) => Ok(Value::Int(n)),
        Err(_) => Err(Fault::Unreadable),
    }
}

/// Values between commas, or `-` for none.
pub fn key_of(alloc: Global, word: &str) -> Result<Key, Fault> {
    let mut key = Key::new(alloc);
    if word == "-" {
        return Ok(key);
    }
    for value in word.split(',') {
        key.push(value_of(alloc, value)?)?;
    }
    Ok(key)
}

fn cut_of(alloc: Global, word: &str, side: Side) -> Result<End, Fault> {
    match value_of(alloc, word) {
        Ok(at) => Ok(End::Cut { at, side }),
        Err(fault) => Err(fault),
    }
}

/// `below V`, `above V` or `last`.
pub fn end_of(alloc: Global, words: &[&str]) -> Result<End, Fault> {
    match words {
        [word] if *word == "last" => Ok(End::Last),
        [word, value] if *word == "below" => cut_of(alloc, value, Side::Below),
        [word, value] if *word == "above" => cut_of(alloc, value, Side::Above),
        _ => Err(Fault::Unreadable),
    }
}

// How many words the end takes with which words begin.
fn end_size(words: &[&str]) -> usize {
    match words {
        [word, ..] if *word == "last" => 1,
        _ => 2,
    }
}

fn span_of(alloc: Global, words: &[&str]) -> Result<Span, Fault> {
    let Some((lo, hi)) = words.split_at_checked(end_size(words)) else {
        return Err(Fault::Unreadable);
    };
    let lo = end_of(alloc, lo)?;
    let hi = end_of(alloc, hi)?;
    Ok(Span { lo, hi })
}

/// Points, and the two ends of a span behind them where there is one.
pub fn range_of(alloc: Global, words: &[&str]) -> Result<KeyRange, Fault> {
    let Some((points, ends)) = words.split_first() else {
        return Err(Fault::Unreadable);
    };
    let points = key_of(alloc, points)?;
    if ends.is_empty() {
        return Ok(KeyRange { points, last: None });
    }
    let span = span_of(alloc, ends)?;
    Ok(KeyRange {
        points,
        last: Some(span),
    })
}
