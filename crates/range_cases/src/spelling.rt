//! Conditions as a line of cases writes them.

use case_lines::Fault;
use rx_value::Bytes;
use std::alloc::{AllocError, Global};

// Adds the numbers of a range, with commas between them.
fn add_numbers(alloc: Global, first: u32, last: u32, into: &mut Bytes) -> Result<(), AllocError> {
    for number in first..=last {
        if number > first {
            into.append(b", ")?;
        }
        into.append(format!(in alloc; "{number}")?.as_bytes())?;
    }
    Ok(())
}

// Adds what stands between braces: a byte by its number, or the numbers of a range.
fn add_braced(alloc: Global, inside: &str, into: &mut Bytes) -> Result<(), Fault> {
    if let Some((first, last)) = inside.split_once("..") {
        let (Ok(first), Ok(last)) = (first.parse::<u32>(), last.parse::<u32>()) else {
            return Err(Fault::Unreadable);
        };
        add_numbers(alloc, first, last, into)?;
        return Ok(());
    }
    let Ok(byte) = inside.parse::<u8>() else {
        return Err(Fault::Unreadable);
    };
    into.push(byte)?;
    Ok(())
}

/// The text that is written so: `{127}` is the byte of this number, `{1..3}` is `1, 2, 3`, and all else stands for
/// itself.
pub fn text_of(alloc: Global, written: &str) -> Result<Bytes, Fault> {
    let mut text = Bytes::new(alloc);
    for piece in written.split('{') {
        match piece.split_once('}') {
            Some((inside, behind)) => {
                add_braced(alloc, inside, &mut text)?;
                text.append(behind.as_bytes())?;
            }
            None => text.append(piece.as_bytes())?,
        }
    }
    Ok(text)
}
