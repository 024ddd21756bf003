ghost use Rattle.std.specs.Prelude.{◌≡◌, Some, IfOk};
ghost use Rattle.rx_reading.specs.Reading.{Reads, ReadsAs, ReadsMaybe, word_at};
ghost use Rattle.rx_ddl.specs.Options.{is_value_kind, value_at, option_at, options_at};

use crate::statements::{OptionList, TableOption};
use rx_reading::{Item, Read, Reading, Separator, after_sign, items_at, many_at, word_at};
use rx_token::{Token, TokenKind, signs};
use rx_value::Bytes;
use std::alloc::{AllocError, Global};

fn is_value_kind(kind: TokenKind) -> bool
    ensures { result ≡ is_value_kind kind }
{
    match kind {
        TokenKind::Word | TokenKind::Number(_) | TokenKind::Str => true,
        _ => false,
    }
}

/// The text of a word, a number or a string.
fn value_at<'a>(tokens: &'a [Token]) -> Option<Read<'a, &'a [u8]>>
    ensures { ReadsAs (λ text. text.now) value_at tokens.now result }
{
    let [token, rest @ ..] = tokens else {
        return None;
    };
    if is_value_kind(token.kind) {
        return Some(Read {
            value: token.text.as_slice(),
            rest,
        });
    }
    None
}

/// Reads a word, a reserved one too.
struct Words;

impl Item for Words {
    type Value = Bytes;

    ghost reader = { λ item. word_at };

    fn read_at<'a>(&self, alloc: Global, tokens: &'a [Token]) -> Reading<'a, Bytes> {
        let Some(word) = word_at(tokens) else {
            return Ok(None);
        };
        let value = Bytes::of(alloc, word.value)?;
        Ok(Some(Read {
            value,
            rest: word.rest,
        }))
    }
}

/// Reads an option of a table.
struct Options;

impl Item for Options {
    type Value = TableOption;

    ghost reader = { λ item. option_at };

    #[tactic(auto, unfolding(crate::specs::Options::option_at))]
    fn read_at<'a>(&self, alloc: Global, tokens: &'a [Token]) -> Reading<'a, TableOption> {
        let Some(words) = items_at(alloc, Separator::Nothing, &Words, tokens)? else {
            return Ok(None);
        };
        let Some(behind) = after_sign(words.rest, signs::EQUAL) else {
            return Ok(None);
        };
        let Some(value) = value_at(behind) else {
            return Ok(None);
        };
        let option = TableOption {
            words: words.value,
            value: Bytes::of(alloc, value.value)?,
        };
        Ok(Some(Read {
            value: option,
            rest: value.rest,
        }))
    }
}

/// Options as many as follow, with or without commas before them, and the tokens behind them.
pub(crate) fn options_at<'a>(
    alloc: Global,
    tokens: &'a [Token],
) -> Result<Read<'a, OptionList>, AllocError>
    ensures { IfOk result (λ read. ReadsMaybe options_at tokens.now (Some read)) }
{
    many_at(alloc, Separator::MaybeComma, &Options, tokens)
}
