//! Which texts of a part a LIKE pattern can match.

use crate::regions::cut;
use rx_like::prefix_of;
use rx_value::{Bytes, Value};
use std::alloc::{AllocError, Global};
use std::str::from_utf8;

/// The texts of a part that a pattern can match.
#[derive(Drop)]
pub enum Reach {
    /// One text.
    Point(Value),
    /// The texts from one on and before another.
    Span { from: Value, to: Value },
    /// All texts.
    All,
}

// How many characters a text has, none where it is no UTF-8.
fn character_count(text: &[u8]) -> usize {
    match from_utf8(text) {
        Ok(text) => text.chars().count(),
        Err(_) => 0,
    }
}

// The text with its last byte raised by one.
fn raised(alloc: Global, text: &[u8]) -> Result<Bytes, AllocError> {
    let mut raised = Bytes::new(alloc);
    if let Some((last, front)) = text.split_last() {
        raised.append(front)?;
        raised.push(last.saturating_add(1))?;
    }
    Ok(raised)
}

/// The texts that a pattern can match on a part of which texts are cut to so many characters, where there is a number.
pub fn reach_of(alloc: Global, pattern: &[u8], chars: Option<u32>) -> Result<Reach, AllocError> {
    let (front, is_exact) = prefix_of(alloc, pattern)?;
    let front = front.as_slice();
    let fills_part = match chars {
        Some(count) => character_count(front) >= count as usize,
        None => false,
    };
    let from = Value::Text(Bytes::of(alloc, front)?);
    if is_exact || fills_part {
        return Ok(Reach::Point(cut(alloc, &from, chars)?));
    }
    if front.is_empty() {
        return Ok(Reach::All);
    }
    let to = Value::Text(raised(alloc, front)?);
    Ok(Reach::Span { from, to })
}
