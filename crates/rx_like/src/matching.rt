ghost use Rattle.std.specs.Prelude.{◌≡◌, ◌↔◌, IsTrue};
ghost use Rattle.std.specs.Str.{chars};
ghost use Rattle.rx_like.specs.Pattern.{tokens};
ghost use Rattle.rx_like.specs.Match.{Matches};
ghost use Rattle.rx_like.specs.Walk.{is_like, matches, IsStop};

use crate::tokens::{Token, split_char, split_token};
use std::str::from_utf8;

/// Whether the whole text matches the LIKE pattern. Bytes that are no UTF-8 match nothing. Takes no
/// memory, and time of the order of the pattern's length times the text's at most.
///
/// `%` stands for any run of characters, `_` for one character, and a backslash makes the next
/// character stand for itself. A last lone backslash stands for itself too.
#[tactic(auto, using(crate::proofs::Utf8::text_passes, crate::proofs::Utf8::no_text_fails))]
pub fn like(pattern: &[u8], text: &[u8]) -> bool
    ensures relation { IsTrue result ↔ Matches pattern.now text.now }
    ensures test { result ≡ is_like pattern.now text.now }
{
    match (from_utf8(pattern), from_utf8(text)) {
        (Ok(pattern), Ok(text)) => is_match(pattern, text),
        _ => false,
    }
}

// Where a walk over tokens and characters, one by one, stops.
#[derive(Clone, Copy)]
enum Stop<'a> {
    // At an any run: what follows it, and the text that is left.
    Run { pattern: &'a str, text: &'a str },
    // The pattern and the text end together.
    Whole,
    // A character does not fit, or the pattern ends first.
    Misfit,
    // The text ends first.
    Short,
}

#[tactic(auto, using(crate::proofs::Runs::run_here, crate::proofs::Runs::none_here, crate::proofs::Runs::run_found))]
fn is_match(pattern: &str, text: &str) -> bool
    ensures { result ≡ matches (tokens pattern.now) (chars text.now) }
{
    let (mut pattern, mut text) = match walk(pattern, text) {
        Stop::Run { pattern, text } => (pattern, text),
        Stop::Whole => return true,
        Stop::Misfit | Stop::Short => return false,
    };
    // Each stretch of the pattern between two runs is put at the first place where it fits.
    loop {
        match walk(pattern, text) {
            Stop::Run {
                pattern: rest,
                text: left,
            } => {
                pattern = rest;
                text = left;
            }
            Stop::Whole => return true,
            Stop::Short => return false,
            Stop::Misfit => match split_char(text) {
                Some((_, rest)) => text = rest,
                None => return false,
            },
        }
    }
}

// Fits single tokens to characters as far as that goes.
#[tactic(auto, using(crate::proofs::Runs::run_behind_token, crate::proofs::Runs::run_past_token))]
fn walk<'a>(mut pattern: &'a str, mut text: &'a str) -> Stop<'a>
    ensures { IsStop (tokens pattern.now) (chars text.now) result }
{
    while let Some((token, tokens)) = split_token(pattern) {
        if token == Token::AnyRun {
            return Stop::Run {
                pattern: tokens,
                text,
            };
        }
        let Some((first, rest)) = split_char(text) else {
            return Stop::Short;
        };
        if !token.fits(first) {
            return Stop::Misfit;
        }
        pattern = tokens;
        text = rest;
    }
    match split_char(text) {
        None => Stop::Whole,
        Some(_) => Stop::Misfit,
    }
}
