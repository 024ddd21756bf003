//! Cases as they are written, one in a line.

use crate::conditions::{condition_told, width_told};
use crate::fronts::{fronts_told, reserved_told, tokens_told};
use crate::likes::{likeness_told, prefix_told};
use crate::scripts::script_told;
use crate::spelling::text_of;
use crate::truths::{parts_told, truth_told};
use std::alloc::{AllocError, Global};

// What is told of a case with one text.
fn one_told(alloc: Global, kind: &str, text: &[u8]) -> Result<Vec<u8>, AllocError> {
    match kind {
        "tokens" => tokens_told(alloc, text),
        "reserved" => reserved_told(alloc, text),
        "front" => fronts_told(alloc, text),
        "prefix" => prefix_told(alloc, text),
        "condition" => condition_told(alloc, 0, text),
        "later" => condition_told(alloc, 2, text),
        "width" => width_told(alloc, text),
        "parts" => parts_told(alloc, text),
        "script" => script_told(alloc, text),
        _ => Vec::from_slice(alloc, b" unreadable"),
    }
}

// What is told of a case with two texts.
fn two_told(alloc: Global, kind: &str, first: &[u8], second: &[u8]) -> Result<Vec<u8>, AllocError> {
    match kind {
        "like" => likeness_told(alloc, first, second),
        "truth" => truth_told(alloc, first, second),
        _ => Vec::from_slice(alloc, b" unreadable"),
    }
}

/// What is told of a case: a word that says what it is about, and one text, or two with `|` between them.
pub fn case_told(alloc: Global, line: &str) -> Result<Vec<u8>, AllocError> {
    let (kind, written) = line.split_once(' ').unwrap_or((line, ""));
    match written.split_once('|') {
        Some((first, second)) => {
            let (first, second) = (text_of(alloc, first)?, text_of(alloc, second)?);
            two_told(alloc, kind, first.as_slice(), second.as_slice())
        }
        None => one_told(alloc, kind, text_of(alloc, written)?.as_slice()),
    }
}
