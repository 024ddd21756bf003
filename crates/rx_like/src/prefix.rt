ghost use Rattle.std.specs.Prelude.{◌≡◌, IfOk, encode_utf8_all};
ghost use Rattle.rx_like.specs.Pattern.{tokens, literal_front, has_no_wildcard, literal_prefix, is_plain};

use crate::tokens::{Token, split_token};
use std::alloc::{AllocError, Global};
use std::str::from_utf8;

/// The longest front of a LIKE pattern's characters that all stand for themselves, and whether the
/// pattern has no wildcard, so that the front is the one text that it matches. Of bytes that are no
/// UTF-8 the front is empty, and the answer false. The error is want of memory.
#[tactic(auto, using(crate::proofs::Utf8::text_passes, crate::proofs::Utf8::no_text_fails))]
pub fn prefix_of(alloc: Global, pattern: &[u8]) -> Result<(Vec<u8>, bool), AllocError>
    ensures front { IfOk result (λ r. r.0.items ≡ literal_prefix pattern.now) }
    ensures whole { IfOk result (λ r. r.1 ≡ is_plain pattern.now) }
{
    match from_utf8(pattern) {
        Ok(pattern) => front_of(alloc, pattern),
        Err(_) => Ok((Vec::new(alloc), false)),
    }
}

// The front and the answer of a pattern that is UTF-8.
#[tactic(auto, using(crate::proofs::Fronts::front_step, crate::proofs::Fronts::front_end))]
fn front_of(alloc: Global, pattern: &str) -> Result<(Vec<u8>, bool), AllocError>
    ensures front { IfOk result (λ r. r.0.items ≡ encode_utf8_all (literal_front (tokens pattern.now))) }
    ensures whole { IfOk result (λ r. r.1 ≡ has_no_wildcard (tokens pattern.now)) }
{
    let mut front = String::new(alloc);
    let mut rest = pattern;
    while let Some((token, tokens)) = split_token(rest) {
        let Token::Char(c) = token else {
            return Ok((front.into_bytes(), false));
        };
        front.push(c)?;
        rest = tokens;
    }
    Ok((front.into_bytes(), true))
}
