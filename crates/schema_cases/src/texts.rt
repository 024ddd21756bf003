use case_lines::Fault;
use rx_value::Bytes;
use std::alloc::{AllocError, Global};

// What the next byte of a text stands for.
#[derive(Clone, Copy)]
enum Next {
    Itself,
    Escape,
    High,
    Low { high: u8 },
}

fn digit(byte: u8) -> u8 {
    match byte {
        b'1' => 1,
        b'2' => 2,
        b'3' => 3,
        b'4' => 4,
        b'5' => 5,
        b'6' => 6,
        b'7' => 7,
        b'8' => 8,
        b'9' => 9,
        b'a' => 10,
        b'b' => 11,
        b'c' => 12,
        b'd' => 13,
        b'e' => 14,
        b'f' => 15,
        _ => 0,
    }
}

// Adds the bytes of a piece: `\n`, `\r`, `\\` and `\x` with two hexadecimal digits stand for one byte, and in a piece
// that is repeated `#` stands for the number of the repetition.
fn push_piece(
    alloc: Global,
    into: &mut Vec<u8>,
    piece: &str,
    number: Option<u32>,
) -> Result<(), AllocError> {
    let mut next = Next::Itself;
    for byte in piece.as_bytes() {
        let byte = *byte;
        next = match (next, number) {
            (Next::Itself, _) if byte == b'\\' => Next::Escape,
            (Next::Itself, Some(number)) if byte == b'#' => {
                into.extend_from_slice(format!(in alloc; "{number}")?.as_bytes())?;
                Next::Itself
            }
            (Next::Escape, _) if byte == b'x' => Next::High,
            (Next::Escape, _) => {
                into.push(match byte {
                    b'n' => b'\n',
                    b'r' => b'\r',
                    other => other,
                })?;
                Next::Itself
            }
            (Next::High, _) => Next::Low { high: digit(byte) },
            (Next::Low { high }, _) => {
                into.push((high << 4) | digit(byte))?;
                Next::Itself
            }
            (Next::Itself, _) => {
                into.push(byte)?;
                Next::Itself
            }
        };
    }
    Ok(())
}

/// The bytes that a text stands for. `{N*PIECE}` is a piece so many times.
pub(crate) fn bytes_of(alloc: Global, text: &str) -> Result<Vec<u8>, Fault> {
    let mut bytes = Vec::new(alloc);
    let mut is_first = true;
    for part in text.split('{') {
        if is_first {
            is_first = false;
            push_piece(alloc, &mut bytes, part, None)?;
            continue;
        }
        let Some((repeated, behind)) = part.split_once('}') else {
            return Err(Fault::Unreadable);
        };
        let Some((count, piece)) = repeated.split_once('*') else {
            return Err(Fault::Unreadable);
        };
        let Ok(count) = count.parse::<u32>() else {
            return Err(Fault::Unreadable);
        };
        for number in 0..count {
            push_piece(alloc, &mut bytes, piece, Some(number))?;
        }
        push_piece(alloc, &mut bytes, behind, None)?;
    }
    Ok(bytes)
}

/// Adds bytes in one line that can be read: those from 32 to 126 as they are, and the others as `bytes_of` takes them.
pub(crate) fn push_printable(
    alloc: Global,
    into: &mut Bytes,
    bytes: &[u8],
) -> Result<(), AllocError> {
    for byte in bytes {
        let byte = *byte;
        match byte {
            b'\n' => into.append(b"\\n")?,
            b'\r' => into.append(b"\\r")?,
            b'\\' => into.append(b"\\\\")?,
            32..=126 => into.push(byte)?,
            _ => into.append(format!(in alloc; "\\x{byte:02x}")?.as_bytes())?,
        }
    }
    Ok(())
}
