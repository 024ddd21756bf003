//! Texts as a line of cases writes them, and as they are shown.

use std::alloc::{AllocError, Global};

// Adds what stands between braces.
fn add_braced(bytes: &mut Vec<u8>, inside: &str) -> Result<(), AllocError> {
    if let Some((times, part)) = inside.split_once('*') {
        let times = times.parse::<u32>().unwrap_or(0);
        for _ in 0..times {
            bytes.extend_from_slice(part.as_bytes())?;
        }
        return Ok(());
    }
    if let Ok(byte) = inside.parse::<u8>() {
        bytes.push(byte)?;
    }
    Ok(())
}

/// The text that is written so: `{10}` is the byte of this number, `{3*ab}` is `ab` three times over, and all else
/// stands for itself.
pub fn text_of(alloc: Global, written: &str) -> Result<Vec<u8>, AllocError> {
    let mut bytes = Vec::new(alloc);
    for piece in written.split('{') {
        match piece.split_once('}') {
            Some((inside, behind)) => {
                add_braced(&mut bytes, inside)?;
                bytes.extend_from_slice(behind.as_bytes())?;
            }
            None => bytes.extend_from_slice(piece.as_bytes())?,
        }
    }
    Ok(bytes)
}

/// Adds a text as it is shown: its bytes, those of control characters as `{10}`.
pub fn show_text(alloc: Global, shown: &mut Vec<u8>, text: &[u8]) -> Result<(), AllocError> {
    for byte in text {
        if *byte < 32 {
            let code = format!(in alloc; "{{{byte}}}")?;
            shown.extend_from_slice(code.as_bytes())?;
        } else {
            shown.push(*byte)?;
        }
    }
    Ok(())
}

/// Adds a space and a number.
pub fn show_count(alloc: Global, shown: &mut Vec<u8>, count: usize) -> Result<(), AllocError> {
    let count = format!(in alloc; " {count}")?;
    shown.extend_from_slice(count.as_bytes())
}
