ghost use Rattle.std.specs.Prelude.{◌≡◌, ◌≤◌, length, Some, IfOk};
ghost use Rattle.rx_reading.specs.Reading.{Reads, ReadsAs, ReadsMaybe, enclosed_at};
ghost use Rattle.rx_ddl.specs.Keys.{prefix_at, part_at, using_at, method_at, methods_at, kind_mark_at, plain_mark_at, key_kind_at, key_name_at, key_at};

use crate::attributes::past_comment;
use crate::statements::{KeyDefinition, KeyKind, KeyPart, Method, MethodList};
use rx_reading::{
    Item, Read, Reading, Separator, after_key, after_sign, after_word, direction_at, enclosed_at,
    many_at, name_at, number_at, word_at,
};
use rx_token::{Token, signs};
use rx_value::Bytes;
use std::alloc::{AllocError, Global};

/// The prefix length of a part, none where no parenthesis stands.
fn prefix_at<'a>(tokens: &'a [Token]) -> Option<Read<'a, Option<u128>>>
    ensures { ReadsMaybe prefix_at tokens.now result }
{
    let Some(behind) = after_sign(tokens, signs::OPEN) else {
        return Some(Read {
            value: None,
            rest: tokens,
        });
    };
    let Some(number) = number_at(behind) else {
        return None;
    };
    let Some(rest) = after_sign(number.rest, signs::CLOSE) else {
        return None;
    };
    Some(Read {
        value: Some(number.value),
        rest,
    })
}

/// A part of a key, and the tokens behind it.
#[tactic(auto, unfolding(crate::specs::Keys::part_at))]
fn part_at<'a>(alloc: Global, tokens: &'a [Token]) -> Reading<'a, KeyPart>
    ensures { IfOk result (Reads part_at tokens.now) }
{
    let Some(name) = name_at(tokens) else {
        return Ok(None);
    };
    let Some(prefix) = prefix_at(name.rest) else {
        return Ok(None);
    };
    let descending = direction_at(prefix.rest);
    let value = KeyPart {
        column: Bytes::of(alloc, name.value)?,
        prefix: prefix.value,
        descending: descending.value,
    };
    Ok(Some(Read {
        value,
        rest: descending.rest,
    }))
}

/// Reads a part of a key.
struct KeyParts;

impl Item for KeyParts {
    type Value = KeyPart;

    ghost reader = { λ item. part_at };

    fn read_at<'a>(&self, alloc: Global, tokens: &'a [Token]) -> Reading<'a, KeyPart> {
        part_at(alloc, tokens)
    }
}

fn using_at<'a>(alloc: Global, tokens: &'a [Token]) -> Reading<'a, Method>
    ensures { IfOk result (Reads using_at tokens.now) }
{
    let Some(behind) = after_word(tokens, b"USING") else {
        return Ok(None);
    };
    let Some(word) = word_at(behind) else {
        return Ok(None);
    };
    Ok(Some(Read {
        value: Method::Using(Bytes::of(alloc, word.value)?),
        rest: word.rest,
    }))
}

/// Reads USING with its word, or a COMMENT with its text.
struct Methods;

impl Item for Methods {
    type Value = Method;

    ghost reader = { λ item. method_at };

    fn read_at<'a>(&self, alloc: Global, tokens: &'a [Token]) -> Reading<'a, Method> {
        if let Some(found) = using_at(alloc, tokens)? {
            return Ok(Some(found));
        }
        match past_comment(tokens) {
            Some(rest) => Ok(Some(Read {
                value: Method::Comment,
                rest,
            })),
            None => Ok(None),
        }
    }
}

/// USING and COMMENT as often as they follow, and the tokens behind them.
fn methods_at<'a>(alloc: Global, tokens: &'a [Token]) -> Result<Read<'a, MethodList>, AllocError>
    ensures { IfOk result (λ read. ReadsMaybe methods_at tokens.now (Some read)) }
{
    many_at(alloc, Separator::Nothing, &Methods, tokens)
}

fn kind_mark_at<'a>(tokens: &'a [Token], word: &[u8], kind: KeyKind) -> Option<Read<'a, KeyKind>>
    ensures { ReadsMaybe (kind_mark_at word.now kind) tokens.now result }
{
    match after_word(tokens, word) {
        Some(rest) => Some(Read { value: kind, rest }),
        None => None,
    }
}

fn plain_mark_at<'a>(tokens: &'a [Token]) -> Option<Read<'a, KeyKind>>
    ensures { ReadsMaybe plain_mark_at tokens.now result }
{
    match after_key(tokens) {
        Some(_) => Some(Read {
            value: KeyKind::Plain,
            rest: tokens,
        }),
        None => None,
    }
}

/// The kind of the key that begins here, and the tokens from its KEY or INDEX on.
#[tactic(auto, unfolding(crate::specs::Keys::key_kind_at))]
pub(crate) fn key_kind_at<'a>(tokens: &'a [Token]) -> Option<Read<'a, KeyKind>>
    ensures { ReadsMaybe key_kind_at tokens.now result }
{
    if let Some(found) = kind_mark_at(tokens, b"PRIMARY", KeyKind::Primary) {
        return Some(found);
    }
    if let Some(found) = kind_mark_at(tokens, b"UNIQUE", KeyKind::Unique) {
        return Some(found);
    }
    if let Some(found) = kind_mark_at(tokens, b"FULLTEXT", KeyKind::Fulltext) {
        return Some(found);
    }
    if let Some(found) = kind_mark_at(tokens, b"SPATIAL", KeyKind::Spatial) {
        return Some(found);
    }
    plain_mark_at(tokens)
}

/// The name of a key of this kind, from KEY or INDEX on.
fn key_name_at<'a>(kind: KeyKind, tokens: &'a [Token]) -> Option<Read<'a, &'a [u8]>>
    ensures { ReadsAs (λ text. text.now) (key_name_at kind) tokens.now result }
{
    if matches!(kind, KeyKind::Primary) {
        let Some(rest) = after_word(tokens, b"KEY") else {
            return None;
        };
        return Some(Read {
            value: b"PRIMARY",
            rest,
        });
    }
    let Some(behind) = after_key(tokens) else {
        return None;
    };
    name_at(behind)
}

/// A key of this kind, from KEY or INDEX on, and the tokens behind it.
#[tactic(auto, unfolding(crate::specs::Keys::key_at))]
pub(crate) fn key_at<'a>(
    alloc: Global,
    kind: KeyKind,
    tokens: &'a [Token],
) -> Reading<'a, KeyDefinition>
    ensures { IfOk result (Reads (key_at kind) tokens.now) }
{
    let Some(name) = key_name_at(kind, tokens) else {
        return Ok(None);
    };
    let Some(parts) = enclosed_at(alloc, &KeyParts, name.rest)? else {
        return Ok(None);
    };
    let methods = methods_at(alloc, parts.rest)?;
    let value = KeyDefinition {
        kind,
        name: Bytes::of(alloc, name.value)?,
        parts: parts.value,
        methods: methods.value,
    };
    Ok(Some(Read {
        value,
        rest: methods.rest,
    }))
}
