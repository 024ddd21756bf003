ghost use Rattle.std.specs.Prelude.{◌≡◌, ◌≢◌, ◌≤◌, ◌<◌, ◌+◌, ◌++◌, ◌&&◌, ◌==◌};
ghost use Rattle.std.specs.Prelude.{ℕ, List, length, IfOk, IfSome, OnOk, not};
ghost use Rattle.rx_token.specs.Quotes.{name_in, escaped, text_in, is_name_byte, IsNameIn, IsTextIn};

use rx_value::Bytes;
use std::alloc::{AllocError, Global};

/// Whether the byte stands for itself in a quoted name.
fn is_plain_byte(b: u8) -> bool
    ensures { result ≡ (is_name_byte b && not (b == 96)) }
{
    b >= 32 && b <= 126 && b != b'`'
}

/// The name up to the closing backquote, and how many bytes lead behind it.
#[tactic(auto, using(crate::proofs::Fronts::front_after), unfolding(crate::specs::Quotes::name_in))]
pub(crate) fn name_in(alloc: Global, bytes: &[u8]) -> Result<Option<(Bytes, usize)>, AllocError>
    ensures value { IfOk result (λ found. found ≡ name_in bytes.now) }
    ensures fits { IfOk result (λ found. IfSome found (λ x. x.1 ≤ length bytes.now)) }
{
    let mut name = Bytes::new(alloc);
    let mut width = 0;
    let mut rest = bytes;
    'bytes: loop {
        match rest {
            [] => return Ok(None),
            [b] => return Ok(if *b == b'`' {
                Some((name, width + 1))
            } else {
                None
            }),
            [b, c, tail @ ..] => if is_plain_byte(*b) {
                let (_, after) = rest.split_at(1);
                name.push(*b)?;
                width += 1;
                rest = after;
            } else if *b != b'`' {
                return Ok(None);
            } else if *c != b'`' {
                return Ok(Some((name, width + 1)));
            } else {
                name.push(b'`')?;
                width += 2;
                rest = tail;
            },
        }
    }
}

/// Adds what a backslash and a byte stand for.
#[tactic(auto, unfolding(crate::specs::Quotes::escaped))]
fn push_escaped(text: &mut Bytes, c: u8) -> Result<(), AllocError>
    ensures { OnOk result (text.new ≡ text.old ++ escaped c) }
{
    if c == b'%' || c == b'_' {
        text.push(b'\\')?;
        return text.push(c);
    }
    let b = if c == b'0' {
        0
    } else if c == b'b' {
        8
    } else if c == b'n' {
        10
    } else if c == b'r' {
        13
    } else if c == b't' {
        9
    } else if c == b'Z' {
        26
    } else {
        c
    };
    text.push(b)
}

/// The text up to the closing quote, and how many bytes lead behind it.
#[tactic(auto, using(crate::proofs::Fronts::front_after), unfolding(crate::specs::Quotes::text_in))]
pub(crate) fn text_in(
    alloc: Global,
    quote: u8,
    bytes: &[u8],
) -> Result<Option<(Bytes, usize)>, AllocError>
    ensures value { IfOk result (λ found. found ≡ text_in quote bytes.now) }
    ensures fits { IfOk result (λ found. IfSome found (λ x. x.1 ≤ length bytes.now)) }
{
    let mut text = Bytes::new(alloc);
    let mut width = 0;
    let mut rest = bytes;
    'bytes: loop {
        match rest {
            [] => return Ok(None),
            [b] => return Ok(if *b == quote {
                Some((text, width + 1))
            } else {
                None
            }),
            [b, c, tail @ ..] => if *b == quote && *c == quote {
                text.push(quote)?;
                width += 2;
                rest = tail;
            } else if *b == quote {
                return Ok(Some((text, width + 1)));
            } else if *b == b'\\' {
                push_escaped(&mut text, *c)?;
                width += 2;
                rest = tail;
            } else {
                let (_, after) = rest.split_at(1);
                text.push(*b)?;
                width += 1;
                rest = after;
            },
        }
    }
}

/// A quoted name is its bytes with each backquote doubled, up to the next single backquote.
pub fn quoted_names()
    ensures only { (bytes : List ℕ) (x : List ℕ × ℕ) → name_in bytes ≡ Some x → IsNameIn bytes x }
    ensures all { (bytes : List ℕ) (x : List ℕ × ℕ) → IsNameIn bytes x → name_in bytes ≡ Some x }
{}

/// A text in quotes is what its bytes spell, up to the next single quote.
pub fn quoted_texts()
    ensures only { (quote : ℕ) (bytes : List ℕ) (x : List ℕ × ℕ) → text_in quote bytes ≡ Some x
        → IsTextIn quote bytes x }
    ensures all { (quote : ℕ) (bytes : List ℕ) (x : List ℕ × ℕ) → quote ≢ 92 → IsTextIn quote bytes x
        → text_in quote bytes ≡ Some x }
{}
