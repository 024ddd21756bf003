use crate::faults::Fault;
use rx_value::Bytes;
use std::alloc::{AllocError, Global};

/// The fields of a line, which stand between tabs.
pub fn fields_of<'a>(alloc: Global, line: &'a str) -> Result<Vec<&'a str>, Fault> {
    match line.split('\t').collect(alloc) {
        Ok(fields) => Ok(fields),
        Err(_) => Err(Fault::NoMemory),
    }
}

/// The words of a field, which stand between blanks.
pub fn words_of<'a>(alloc: Global, field: &'a str) -> Result<Vec<&'a str>, Fault> {
    match field.split_whitespace().collect(alloc) {
        Ok(words) => Ok(words),
        Err(_) => Err(Fault::NoMemory),
    }
}

/// The bytes that a field stands for: `\n`, `\t`, `\r`, `\0` and `\\` are a line feed, a tab, a carriage return,
/// a byte 0 and a backslash.
pub fn bytes_of(alloc: Global, field: &str) -> Result<Bytes, AllocError> {
    let mut bytes = Bytes::new(alloc);
    let mut escaped = false;
    for byte in field.as_bytes() {
        if *byte == b'\\' && !escaped {
            escaped = true;
            continue;
        }
        bytes.push(if escaped { meant(*byte) } else { *byte })?;
        escaped = false;
    }
    Ok(bytes)
}

// What a byte behind a backslash stands for.
fn meant(byte: u8) -> u8 {
    match byte {
        b'n' => b'\n',
        b't' => b'\t',
        b'r' => b'\r',
        b'0' => 0,
        _ => byte,
    }
}

/// Adds bytes, a line feed as `\n` and a backslash doubled.
pub fn add_shown(bytes: &[u8], into: &mut Bytes) -> Result<(), AllocError> {
    for byte in bytes {
        match *byte {
            b'\n' => into.append(b"\\n")?,
            b'\\' => into.append(b"\\\\")?,
            _ => into.push(*byte)?,
        }
    }
    Ok(())
}

/// Adds a number in digits.
pub fn add_number(alloc: Global, number: u64, into: &mut Bytes) -> Result<(), AllocError> {
    let digits = format!(in alloc; "{number}")?;
    into.append(digits.as_bytes())
}
