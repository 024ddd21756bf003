ghost use Rattle.std.specs.Prelude.{◌≡◌, Some, IfOk};
ghost use Rattle.rx_reading.specs.Reading.{Passes, Reads, ReadsMaybe};
ghost use Rattle.rx_ddl.specs.Columns.{mark_at, not_null_at, marked_at, past_text, past_word, past_number, past_signed, past_default, past_comment, other_at, character_set_at, collate_at, attribute_at, attributes_at};

use crate::statements::{Attribute, AttributeList};
use rx_reading::{
    Item, Read, Reading, Separator, after_sign, after_word, many_at, number_at, text_at, word_at,
};
use rx_token::{Token, signs};
use rx_value::Bytes;
use std::alloc::{AllocError, Global};

/// An attribute that is one word.
fn mark_at<'a>(
    tokens: &'a [Token],
    word: &[u8],
    attribute: Attribute,
) -> Option<Read<'a, Attribute>>
    ensures { Reads (mark_at word.now attribute) tokens.now result }
{
    let Some(rest) = after_word(tokens, word) else {
        return None;
    };
    Some(Read {
        value: attribute,
        rest,
    })
}

fn not_null_at<'a>(tokens: &'a [Token]) -> Option<Read<'a, Attribute>>
    ensures { Reads not_null_at tokens.now result }
{
    let Some(behind) = after_word(tokens, b"NOT") else {
        return None;
    };
    mark_at(behind, b"NULL", Attribute::NotNull)
}

/// UNSIGNED, ZEROFILL, NOT NULL, NULL or AUTO_INCREMENT.
#[tactic(auto, unfolding(crate::specs::Columns::marked_at))]
fn marked_at<'a>(tokens: &'a [Token]) -> Option<Read<'a, Attribute>>
    ensures { Reads marked_at tokens.now result }
{
    if let Some(found) = mark_at(tokens, b"UNSIGNED", Attribute::Unsigned) {
        return Some(found);
    }
    if let Some(found) = mark_at(tokens, b"ZEROFILL", Attribute::Zerofill) {
        return Some(found);
    }
    if let Some(found) = not_null_at(tokens) {
        return Some(found);
    }
    if let Some(found) = mark_at(tokens, b"NULL", Attribute::Null) {
        return Some(found);
    }
    mark_at(tokens, b"AUTO_INCREMENT", Attribute::Other)
}

fn past_text(tokens: &[Token]) -> Option<&[Token]>
    ensures { Passes past_text tokens.now result }
{
    match text_at(tokens) {
        Some(text) => Some(text.rest),
        None => None,
    }
}

fn past_word(tokens: &[Token]) -> Option<&[Token]>
    ensures { Passes past_word tokens.now result }
{
    match word_at(tokens) {
        Some(word) => Some(word.rest),
        None => None,
    }
}

fn past_number(tokens: &[Token]) -> Option<&[Token]>
    ensures { Passes past_number tokens.now result }
{
    match number_at(tokens) {
        Some(number) => Some(number.rest),
        None => None,
    }
}

fn past_signed(tokens: &[Token], sign: u8) -> Option<&[Token]>
    ensures { Passes (past_signed sign) tokens.now result }
{
    let Some(behind) = after_sign(tokens, sign) else {
        return None;
    };
    past_number(behind)
}

/// The tokens behind the value of a DEFAULT: a text, a word, or a number with or without a sign.
#[tactic(auto, unfolding(crate::specs::Columns::past_default))]
fn past_default(tokens: &[Token]) -> Option<&[Token]>
    ensures { Passes past_default tokens.now result }
{
    if let Some(rest) = past_text(tokens) {
        return Some(rest);
    }
    if let Some(rest) = past_word(tokens) {
        return Some(rest);
    }
    if let Some(rest) = past_number(tokens) {
        return Some(rest);
    }
    if let Some(rest) = past_signed(tokens, signs::PLUS) {
        return Some(rest);
    }
    past_signed(tokens, signs::MINUS)
}

/// The tokens behind a COMMENT and its text.
pub(crate) fn past_comment(tokens: &[Token]) -> Option<&[Token]>
    ensures { Passes past_comment tokens.now result }
{
    let Some(behind) = after_word(tokens, b"COMMENT") else {
        return None;
    };
    past_text(behind)
}

/// A COMMENT or a DEFAULT with its value.
fn other_at<'a>(tokens: &'a [Token]) -> Option<Read<'a, Attribute>>
    ensures { Reads other_at tokens.now result }
{
    if let Some(rest) = past_comment(tokens) {
        return Some(Read {
            value: Attribute::Other,
            rest,
        });
    }
    let Some(behind) = after_word(tokens, b"DEFAULT") else {
        return None;
    };
    let Some(rest) = past_default(behind) else {
        return None;
    };
    Some(Read {
        value: Attribute::Other,
        rest,
    })
}

fn character_set_at<'a>(alloc: Global, tokens: &'a [Token]) -> Reading<'a, Attribute>
    ensures { IfOk result (Reads character_set_at tokens.now) }
{
    let Some(behind) = after_word(tokens, b"CHARACTER") else {
        return Ok(None);
    };
    let Some(behind) = after_word(behind, b"SET") else {
        return Ok(None);
    };
    let Some(word) = word_at(behind) else {
        return Ok(None);
    };
    Ok(Some(Read {
        value: Attribute::CharacterSet(Bytes::of(alloc, word.value)?),
        rest: word.rest,
    }))
}

fn collate_at<'a>(alloc: Global, tokens: &'a [Token]) -> Reading<'a, Attribute>
    ensures { IfOk result (Reads collate_at tokens.now) }
{
    let Some(behind) = after_word(tokens, b"COLLATE") else {
        return Ok(None);
    };
    let Some(word) = word_at(behind) else {
        return Ok(None);
    };
    Ok(Some(Read {
        value: Attribute::Collate(Bytes::of(alloc, word.value)?),
        rest: word.rest,
    }))
}

/// An attribute, and the tokens behind it.
#[tactic(auto, unfolding(crate::specs::Columns::attribute_at))]
fn attribute_at<'a>(alloc: Global, tokens: &'a [Token]) -> Reading<'a, Attribute>
    ensures { IfOk result (Reads attribute_at tokens.now) }
{
    if let Some(found) = marked_at(tokens) {
        return Ok(Some(found));
    }
    if let Some(found) = other_at(tokens) {
        return Ok(Some(found));
    }
    if let Some(found) = character_set_at(alloc, tokens)? {
        return Ok(Some(found));
    }
    collate_at(alloc, tokens)
}

/// Reads an attribute of a column.
struct Attributes;

impl Item for Attributes {
    type Value = Attribute;

    ghost reader = { λ item. attribute_at };

    fn read_at<'a>(&self, alloc: Global, tokens: &'a [Token]) -> Reading<'a, Attribute> {
        attribute_at(alloc, tokens)
    }
}

/// Attributes as many as follow, and the tokens behind them.
pub(crate) fn attributes_at<'a>(
    alloc: Global,
    tokens: &'a [Token],
) -> Result<Read<'a, AttributeList>, AllocError>
    ensures { IfOk result (λ read. ReadsMaybe attributes_at tokens.now (Some read)) }
{
    many_at(alloc, Separator::Nothing, &Attributes, tokens)
}
