//! Ends, spans and ranges of keys.

use crate::faults::Fault;
use crate::texts::words_of;
use crate::values::{row_of, value_of};
use rx_value::{Bytes, End, Key, KeyRange, Side, Span, Value, meet, touches};
use std::alloc::Global;

// The end of a word: `<5` and `>5` are the cuts below and above 5, and `last` is the last end.
fn end_of(alloc: Global, word: &str) -> Result<End, Fault> {
    if word == "last" {
        return Ok(End::Last);
    }
    if let Some(value) = word.strip_prefix('<') {
        return Ok(End::Cut {
            at: value_of(alloc, value)?,
            side: Side::Below,
        });
    }
    match word.strip_prefix('>') {
        Some(value) => Ok(End::Cut {
            at: value_of(alloc, value)?,
            side: Side::Above,
        }),
        None => Err(Fault::Unreadable),
    }
}

fn span_of(alloc: Global, field: &str) -> Result<Span, Fault> {
    let words = words_of(alloc, field)?;
    let [lo, hi] = words.as_slice() else {
        return Err(Fault::Unreadable);
    };
    Ok(Span {
        lo: end_of(alloc, lo)?,
        hi: end_of(alloc, hi)?,
    })
}

fn add_end(alloc: Global, end: &End, into: &mut Bytes) -> Result<(), Fault> {
    match end {
        End::Last => into.append(b" last")?,
        End::Cut { at, side } => {
            into.append(match side {
                Side::Below => b" <",
                Side::Above => b" >",
            })?;
            if let Value::Int(n) = at {
                let digits = format!(in alloc; "{n}")?;
                into.append(digits.as_bytes())?;
            }
        }
    }
    Ok(())
}

fn add_common(alloc: Global, a: &Span, b: &Span, into: &mut Bytes) -> Result<(), Fault> {
    match meet(a, b) {
        None => into.append(b" none")?,
        Some((lo, hi)) => {
            add_end(alloc, lo, into)?;
            add_end(alloc, hi, into)?;
        }
    }
    Ok(())
}

/// Adds what two spans have in common, either way, and whether the first touches the second.
pub fn add_spans(alloc: Global, left: &str, right: &str, into: &mut Bytes) -> Result<(), Fault> {
    let (a, b) = (span_of(alloc, left)?, span_of(alloc, right)?);
    into.append(b"common")?;
    add_common(alloc, &a, &b, into)?;
    into.append(b" and")?;
    add_common(alloc, &b, &a, into)?;
    into.append(if touches(&a, &b) {
        b" touches"
    } else {
        b" apart"
    })?;
    Ok(())
}

/// Adds for each key whether the range of a point and a span holds it.
pub fn add_range(
    alloc: Global,
    point: &str,
    span: &str,
    keys: &str,
    into: &mut Bytes,
) -> Result<(), Fault> {
    let range = KeyRange {
        points: row_of(alloc, point)?,
        last: Some(span_of(alloc, span)?),
    };
    for text in keys.split(',') {
        let key: Key = row_of(alloc, text)?;
        into.append(if range.contains(&key) {
            b" in"
        } else {
            b" out"
        })?;
    }
    Ok(())
}
