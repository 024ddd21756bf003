ghost use Rattle.std.specs.Prelude.{◌≡◌, ◌≤◌, length};
ghost use Rattle.rx_reading.specs.Reading.{Passes, Reads, ReadsAs, after_word, is_sign_kind, after_sign, is_text_kind, is_name, name_at, text_at, word_at, number_in, number_at, after_key, direction_at, is_end};

use crate::read::Read;
use rx_token::{Token, TokenKind, is_reserved, is_word, signs};

/// The tokens behind a word, which is compared without ASCII case and has no quotes.
pub fn after_word<'a>(tokens: &'a [Token], word: &[u8]) -> Option<&'a [Token]>
    ensures { Passes (after_word word.now) tokens.now result }
{
    let [token, rest @ ..] = tokens else {
        return None;
    };
    if is_word(token, word) {
        Some(rest)
    } else {
        None
    }
}

fn is_sign_kind(kind: TokenKind, sign: u8) -> bool
    ensures { result ≡ is_sign_kind sign kind }
{
    match kind {
        TokenKind::Sign(number) => number == sign,
        _ => false,
    }
}

/// The tokens behind a sign, by its number in `rx_token::signs`.
pub fn after_sign(tokens: &[Token], sign: u8) -> Option<&[Token]>
    ensures { Passes (after_sign sign) tokens.now result }
{
    let [token, rest @ ..] = tokens else {
        return None;
    };
    if is_sign_kind(token.kind, sign) {
        Some(rest)
    } else {
        None
    }
}

/// Any word at the front, a reserved one too, and the tokens behind it.
pub fn word_at<'a>(tokens: &'a [Token]) -> Option<Read<'a, &'a [u8]>>
    ensures { ReadsAs (λ text. text.now) word_at tokens.now result }
{
    let [token, rest @ ..] = tokens else {
        return None;
    };
    if matches!(token.kind, TokenKind::Word) {
        return Some(Read {
            value: token.text.as_slice(),
            rest,
        });
    }
    None
}

fn is_name(token: &Token) -> bool
    ensures { result ≡ is_name token.now }
{
    match token.kind {
        TokenKind::Word => !is_reserved(token.text.as_slice()),
        TokenKind::Quoted => true,
        _ => false,
    }
}

/// A name at the front, between backquotes or a word that isn't reserved, and the tokens behind it.
pub fn name_at<'a>(tokens: &'a [Token]) -> Option<Read<'a, &'a [u8]>>
    ensures { ReadsAs (λ text. text.now) name_at tokens.now result }
{
    let [token, rest @ ..] = tokens else {
        return None;
    };
    if is_name(token) {
        return Some(Read {
            value: token.text.as_slice(),
            rest,
        });
    }
    None
}

fn is_text_kind(kind: TokenKind) -> bool
    ensures { result ≡ is_text_kind kind }
{
    matches!(kind, TokenKind::Str)
}

/// A text between quotes at the front, decoded, and the tokens behind it.
pub fn text_at<'a>(tokens: &'a [Token]) -> Option<Read<'a, &'a [u8]>>
    ensures { ReadsAs (λ text. text.now) text_at tokens.now result }
{
    let [token, rest @ ..] = tokens else {
        return None;
    };
    if is_text_kind(token.kind) {
        return Some(Read {
            value: token.text.as_slice(),
            rest,
        });
    }
    None
}

fn number_in(kind: TokenKind) -> Option<u128>
    ensures { result ≡ number_in kind }
{
    match kind {
        TokenKind::Number(n) => Some(n),
        _ => None,
    }
}

/// A number at the front, and the tokens behind it.
pub fn number_at<'a>(tokens: &'a [Token]) -> Option<Read<'a, u128>>
    ensures { Reads number_at tokens.now result }
{
    let [token, rest @ ..] = tokens else {
        return None;
    };
    let Some(value) = number_in(token.kind) else {
        return None;
    };
    Some(Read { value, rest })
}

/// The tokens behind KEY or INDEX.
pub fn after_key(tokens: &[Token]) -> Option<&[Token]>
    ensures { Passes after_key tokens.now result }
{
    if let Some(rest) = after_word(tokens, b"KEY") {
        return Some(rest);
    }
    after_word(tokens, b"INDEX")
}

/// Whether DESC stands, and the tokens behind ASC or DESC.
pub fn direction_at<'a>(tokens: &'a [Token]) -> Read<'a, bool>
    ensures value { (result.value, result.rest.now) ≡ direction_at tokens.now }
    ensures within { length result.rest.now ≤ length tokens.now }
{
    if let Some(rest) = after_word(tokens, b"ASC") {
        return Read { value: false, rest };
    }
    match after_word(tokens, b"DESC") {
        Some(rest) => Read { value: true, rest },
        None => Read {
            value: false,
            rest: tokens,
        },
    }
}

/// Whether nothing comes any more, or one semicolon.
pub fn is_end(tokens: &[Token]) -> bool
    ensures { result ≡ is_end tokens.now }
{
    match tokens {
        [] => true,
        [token] => is_sign_kind(token.kind, signs::SEMICOLON),
        _ => false,
    }
}
