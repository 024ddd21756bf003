//! Cases of patterns.

use crate::spelling::show_text;
use rx_like::{like, prefix_of};
use std::alloc::{AllocError, Global};

/// `yes` where the text is like the pattern, and else `no`.
pub fn likeness_told(alloc: Global, pattern: &[u8], text: &[u8]) -> Result<Vec<u8>, AllocError> {
    let told: &[u8] = if like(pattern, text) { b" yes" } else { b" no" };
    Vec::from_slice(alloc, told)
}

/// The literal prefix of a pattern between double quotes, and whether it is `all`.
pub fn prefix_told(alloc: Global, pattern: &[u8]) -> Result<Vec<u8>, AllocError> {
    let (prefix, all) = prefix_of(alloc, pattern)?;
    let mut told = Vec::new(alloc);
    told.extend_from_slice(b" \"")?;
    show_text(alloc, &mut told, prefix.as_slice())?;
    told.push(b'"')?;
    if all {
        told.extend_from_slice(b" all")?;
    }
    Ok(told)
}
