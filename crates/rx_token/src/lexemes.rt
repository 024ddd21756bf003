ghost use Rattle.std.specs.Prelude.{◌≡◌, ◌≤◌, ◌<◌, ◌+◌, length, take, IfOk, IfSome};
ghost use Rattle.std.specs.List.{prefix_len};
ghost use Rattle.std.specs.Char.{is_ascii_digit};
ghost use Rattle.std.specs.Str.{is_utf8};
ghost use Rattle.std.specs.Str.Parse.{AllDigits, IsNumeral};
ghost use Rattle.rx_token.specs.Quotes.{quoted_of, name_in, str_of, text_in};
ghost use Rattle.rx_token.specs.Lexeme.{Takes, begins_word, goes_on_word, ends_number, number_below};
ghost use Rattle.rx_token.specs.Lexeme.{word_of, number_of, sign_at, lexeme_at};
ghost use Rattle.rx_token.specs.Sign.{sign_found};

use crate::kinds::TokenKind;
use crate::quotes::{name_in, text_in};
use crate::signs;
use rx_value::Bytes;
use std::alloc::{AllocError, Global};
use std::str::from_utf8;

/// A token at the front of some bytes: its kind, its text, and how many bytes it takes.
#[derive(Drop)]
pub struct Lexeme {
    pub kind: TokenKind,
    pub text: Bytes,
    pub width: usize,
}

/// Whether the byte is a letter or `_`.
fn begins_word(b: u8) -> bool
    ensures { result ≡ begins_word b }
{
    b.is_ascii_alphabetic() || b == b'_'
}

/// Whether the byte is a letter, a digit, `_` or `$`.
fn goes_on_word(b: u8) -> bool
    ensures { result ≡ goes_on_word b }
{
    begins_word(b) || b.is_ascii_digit() || b == b'$'
}

fn word_run(bytes: &[u8]) -> usize
    ensures value { result ≡ prefix_len goes_on_word bytes.now }
    ensures within { result ≤ length bytes.now }
{
    bytes.iter().take_while(|b| goes_on_word(**b)).count()
}

fn digit_run(bytes: &[u8]) -> usize
    ensures value { result ≡ prefix_len is_ascii_digit bytes.now }
    ensures within { result ≤ length bytes.now }
{
    bytes.iter().take_while(|b| b.is_ascii_digit()).count()
}

fn ends_number(bytes: &[u8]) -> bool
    ensures { result ≡ ends_number bytes.now }
{
    match bytes {
        [] => true,
        [b, ..] => !(begins_word(*b) || *b == b'$' || *b == b'.'),
    }
}

/// The first number that is too large for a token, 2^127.
const LIMIT: u128 = 0x8000_0000_0000_0000_0000_0000_0000_0000;

/// The number that digits write, where it is below the limit.
fn number_below(digits: &[u8]) -> Option<u128>
    requires { IsNumeral 10 digits.now }
    ensures { result ≡ number_below digits.now }
{
    let Ok(text) = from_utf8(digits) else {
        return None;
    };
    let Ok(value) = text.parse::<u128>() else {
        return None;
    };
    if value < LIMIT { Some(value) } else { None }
}

fn word_of(alloc: Global, width: usize, bytes: &[u8]) -> Result<Option<Lexeme>, AllocError>
    requires some { 0 < width }
    requires within { width ≤ length bytes.now }
    ensures value { IfOk result (λ found. found ≡ word_of width bytes.now) }
    ensures fits { IfOk result (λ found. IfSome found (Takes (length bytes.now))) }
{
    if width > 64 {
        return Ok(None);
    }
    let (word, _) = bytes.split_at(width);
    let text = Bytes::of(alloc, word)?;
    Ok(Some(Lexeme {
        kind: TokenKind::Word,
        text,
        width,
    }))
}

fn number_of(alloc: Global, width: usize, bytes: &[u8]) -> Result<Option<Lexeme>, AllocError>
    requires some { 0 < width }
    requires digits { AllDigits 10 (take width bytes.now) }
    requires within { width ≤ length bytes.now }
    ensures value { IfOk result (λ found. found ≡ number_of width bytes.now) }
    ensures fits { IfOk result (λ found. IfSome found (Takes (length bytes.now))) }
{
    let (digits, rest) = bytes.split_at(width);
    if !ends_number(rest) {
        return Ok(None);
    }
    let Some(value) = number_below(digits) else {
        return Ok(None);
    };
    let text = Bytes::of(alloc, digits)?;
    Ok(Some(Lexeme {
        kind: TokenKind::Number(value),
        text,
        width,
    }))
}

/// The longest sign at the front, by its number and its length. Each sign is tried before those that
/// it begins with.
#[tactic(auto, using(crate::proofs::Longest::sign_is))]
fn sign_in(bytes: &[u8]) -> Option<(u8, usize)>
    ensures value { result ≡ sign_found bytes.now }
    ensures fits { IfSome result (λ sign. (0 < sign.1) × (sign.1 ≤ length bytes.now)) }
{
    if bytes.starts_with(b"<=>") {
        Some((signs::SAFE_EQUAL, 3))
    } else if bytes.starts_with(b"<=") {
        Some((signs::AT_MOST, 2))
    } else if bytes.starts_with(b"<>") {
        Some((signs::UNEQUAL, 2))
    } else if bytes.starts_with(b"<") {
        Some((signs::LESS, 1))
    } else if bytes.starts_with(b">=") {
        Some((signs::AT_LEAST, 2))
    } else if bytes.starts_with(b">") {
        Some((signs::MORE, 1))
    } else if bytes.starts_with(b"!=") {
        Some((signs::DIFFERENT, 2))
    } else if bytes.starts_with(b"(") {
        Some((signs::OPEN, 1))
    } else if bytes.starts_with(b")") {
        Some((signs::CLOSE, 1))
    } else if bytes.starts_with(b",") {
        Some((signs::COMMA, 1))
    } else if bytes.starts_with(b";") {
        Some((signs::SEMICOLON, 1))
    } else if bytes.starts_with(b"*") {
        Some((signs::STAR, 1))
    } else if bytes.starts_with(b"=") {
        Some((signs::EQUAL, 1))
    } else if bytes.starts_with(b"+") {
        Some((signs::PLUS, 1))
    } else if bytes.starts_with(b"-") {
        Some((signs::MINUS, 1))
    } else {
        None
    }
}

fn sign_at(alloc: Global, bytes: &[u8]) -> Result<Option<Lexeme>, AllocError>
    ensures value { IfOk result (λ found. found ≡ sign_at bytes.now) }
    ensures fits { IfOk result (λ found. IfSome found (Takes (length bytes.now))) }
{
    let Some((number, width)) = sign_in(bytes) else {
        return Ok(None);
    };
    let (spelling, _) = bytes.split_at(width);
    let text = Bytes::of(alloc, spelling)?;
    Ok(Some(Lexeme {
        kind: TokenKind::Sign(number),
        text,
        width,
    }))
}

/// A name, behind its first backquote.
fn quoted_of(alloc: Global, bytes: &[u8]) -> Result<Option<Lexeme>, AllocError>
    ensures value { IfOk result (λ found. found ≡ quoted_of (name_in bytes.now)) }
    ensures fits { IfOk result (λ found. IfSome found (Takes (1 + length bytes.now))) }
{
    let Some((text, width)) = name_in(alloc, bytes)? else {
        return Ok(None);
    };
    let count = text.as_slice().len();
    if count < 1 || count > 64 {
        return Ok(None);
    }
    Ok(Some(Lexeme {
        kind: TokenKind::Quoted,
        text,
        width: 1 + width,
    }))
}

/// A text, behind its first quote.
fn str_of(alloc: Global, quote: u8, bytes: &[u8]) -> Result<Option<Lexeme>, AllocError>
    ensures value { IfOk result (λ found. found ≡ str_of (text_in quote bytes.now)) }
    ensures fits { IfOk result (λ found. IfSome found (Takes (1 + length bytes.now))) }
{
    let Some((text, width)) = text_in(alloc, quote, bytes)? else {
        return Ok(None);
    };
    if !is_utf8(text.as_slice()) {
        return Ok(None);
    }
    Ok(Some(Lexeme {
        kind: TokenKind::Str,
        text,
        width: 1 + width,
    }))
}

fn is_utf8(bytes: &[u8]) -> bool
    ensures { result ≡ is_utf8 bytes.now }
{
    match from_utf8(bytes) {
        Ok(_) => true,
        Err(_) => false,
    }
}

/// The longest token at the front.
#[tactic(auto, unfolding(crate::specs::Lexeme::lexeme_at))]
pub(crate) fn lexeme_at(alloc: Global, bytes: &[u8]) -> Result<Option<Lexeme>, AllocError>
    ensures value { IfOk result (λ found. found ≡ lexeme_at bytes.now) }
    ensures fits { IfOk result (λ found. IfSome found (Takes (length bytes.now))) }
{
    match bytes {
        [] => Ok(None),
        [b, rest @ ..] => if begins_word(*b) {
            word_of(alloc, word_run(bytes), bytes)
        } else if b.is_ascii_digit() {
            number_of(alloc, digit_run(bytes), bytes)
        } else if *b == b'`' {
            quoted_of(alloc, rest)
        } else if *b == b'\'' || *b == b'"' {
            str_of(alloc, *b, rest)
        } else {
            sign_at(alloc, bytes)
        },
    }
}
