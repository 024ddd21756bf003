//! Cases of tokens, and of what stands at their front.

use crate::spelling::{show_count, show_text};
use rx_reading::{Read, after_sign, after_word, is_end, name_at, text_at, word_at};
use rx_token::{Token, is_reserved, signs, tokens};
use std::alloc::{AllocError, Global};

/// `yes` where the word is reserved, and else `no`.
pub fn reserved_told(alloc: Global, word: &[u8]) -> Result<Vec<u8>, AllocError> {
    let told: &[u8] = if is_reserved(word) { b" yes" } else { b" no" };
    Vec::from_slice(alloc, told)
}

fn show_token(alloc: Global, shown: &mut Vec<u8>, token: &Token) -> Result<(), AllocError> {
    let (kind, start, end) = (token.kind, token.start, token.end);
    let front = format!(in alloc; " {kind:?} {start} {end} ")?;
    shown.extend_from_slice(front.as_bytes())?;
    show_text(alloc, shown, token.text.as_slice())?;
    shown.extend_from_slice(b";")
}

fn show_bad(alloc: Global, shown: &mut Vec<u8>, bad: Option<u64>) -> Result<(), AllocError> {
    let Some(place) = bad else {
        return Ok(());
    };
    let bad = format!(in alloc; " bad {place}")?;
    shown.extend_from_slice(bad.as_bytes())
}

fn tokens_shown(alloc: Global, tokens: &[Token], bad: Option<u64>) -> Result<Vec<u8>, AllocError> {
    let mut shown = Vec::new(alloc);
    for token in tokens {
        show_token(alloc, &mut shown, token)?;
    }
    show_bad(alloc, &mut shown, bad)?;
    Ok(shown)
}

/// The tokens of a text as `kind start end text;`, one after the other, and then the bad place.
pub fn tokens_told(alloc: Global, text: &[u8]) -> Result<Vec<u8>, AllocError> {
    let scanned = tokens(alloc, text)?;
    tokens_shown(alloc, scanned.list.as_slice(), scanned.bad)
}

// Adds a form with its text, and how many tokens stand behind it.
fn show_form(
    alloc: Global,
    shown: &mut Vec<u8>,
    form: &[u8],
    found: Option<Read<&[u8]>>,
) -> Result<(), AllocError> {
    let Some(found) = found else {
        return Ok(());
    };
    shown.extend_from_slice(form)?;
    show_text(alloc, shown, found.value)?;
    show_count(alloc, shown, found.rest.len())
}

fn show_if(shown: &mut Vec<u8>, holds: bool, word: &[u8]) -> Result<(), AllocError> {
    if holds {
        return shown.extend_from_slice(word);
    }
    Ok(())
}

fn fronts_shown(alloc: Global, tokens: &[Token]) -> Result<Vec<u8>, AllocError> {
    let mut shown = Vec::new(alloc);
    show_if(&mut shown, after_word(tokens, b"FROM").is_some(), b" FROM")?;
    show_if(
        &mut shown,
        after_sign(tokens, signs::OPEN).is_some(),
        b" OPEN",
    )?;
    show_form(alloc, &mut shown, b" word ", word_at(tokens))?;
    show_form(alloc, &mut shown, b" name ", name_at(tokens))?;
    show_form(alloc, &mut shown, b" text ", text_at(tokens))?;
    show_if(&mut shown, is_end(tokens), b" end")?;
    Ok(shown)
}

/// What stands at the front of the tokens of a text, and how many tokens stand behind each.
pub fn fronts_told(alloc: Global, text: &[u8]) -> Result<Vec<u8>, AllocError> {
    let scanned = tokens(alloc, text)?;
    fronts_shown(alloc, scanned.list.as_slice())
}
