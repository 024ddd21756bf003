ghost use Rattle.std.specs.Prelude.{◌≡◌, IfOk};
ghost use Rattle.rx_reading.specs.Reading.{Reads, ReadsAs};
ghost use Rattle.rx_script.specs.Sets.{plain_name_at, setting_name_at, plain_number_at, number_value_at, text_value_at, default_at, value_at, setting_at, set_at};

use crate::statements::{RawSetting, RawSettingList, RawValue};
use rx_reading::{
    Item, Read, Reading, Separator, after_sign, after_word, items_at, number_at, text_at, word_at,
};
use rx_token::{Token, signs};
use rx_value::Bytes;
use std::alloc::{AllocError, Global};

/// A word before `=`, and the tokens behind that.
fn plain_name_at<'a>(tokens: &'a [Token]) -> Option<Read<'a, &'a [u8]>>
    ensures { ReadsAs (λ text. text.now) plain_name_at tokens.now result }
{
    let Some(word) = word_at(tokens) else {
        return None;
    };
    let Some(rest) = after_sign(word.rest, signs::EQUAL) else {
        return None;
    };
    Some(Read {
        value: word.value,
        rest,
    })
}

/// The same, behind SESSION or not.
fn setting_name_at<'a>(tokens: &'a [Token]) -> Option<Read<'a, &'a [u8]>>
    ensures { ReadsAs (λ text. text.now) setting_name_at tokens.now result }
{
    if let Some(found) = plain_name_at(tokens) {
        return Some(found);
    }
    let Some(behind) = after_word(tokens, b"SESSION") else {
        return None;
    };
    plain_name_at(behind)
}

fn plain_number_at(tokens: &[Token], negative: bool) -> Option<Read<RawValue>>
    ensures { Reads (plain_number_at negative) tokens.now result }
{
    let Some(number) = number_at(tokens) else {
        return None;
    };
    Some(Read {
        value: RawValue::Number {
            negative,
            number: number.value,
        },
        rest: number.rest,
    })
}

/// A number with or without a sign.
fn number_value_at(tokens: &[Token]) -> Option<Read<RawValue>>
    ensures { Reads number_value_at tokens.now result }
{
    if let Some(behind) = after_sign(tokens, signs::PLUS) {
        return plain_number_at(behind, false);
    }
    if let Some(behind) = after_sign(tokens, signs::MINUS) {
        return plain_number_at(behind, true);
    }
    plain_number_at(tokens, false)
}

fn default_at(tokens: &[Token]) -> Option<Read<RawValue>>
    ensures { Reads default_at tokens.now result }
{
    match after_word(tokens, b"DEFAULT") {
        Some(rest) => Some(Read {
            value: RawValue::Default,
            rest,
        }),
        None => None,
    }
}

fn text_value_at(alloc: Global, tokens: &[Token]) -> Reading<RawValue>
    ensures { IfOk result (Reads text_value_at tokens.now) }
{
    let Some(text) = text_at(tokens) else {
        return Ok(None);
    };
    Ok(Some(Read {
        value: RawValue::Text(Bytes::of(alloc, text.value)?),
        rest: text.rest,
    }))
}

#[tactic(auto, unfolding(crate::specs::Sets::value_at))]
fn value_at(alloc: Global, tokens: &[Token]) -> Reading<RawValue>
    ensures { IfOk result (Reads value_at tokens.now) }
{
    if let Some(found) = number_value_at(tokens) {
        return Ok(Some(found));
    }
    if let Some(found) = default_at(tokens) {
        return Ok(Some(found));
    }
    text_value_at(alloc, tokens)
}

/// Reads a setting and its value.
struct Settings;

impl Item for Settings {
    type Value = RawSetting;

    ghost reader = { λ item. setting_at };

    #[tactic(auto, unfolding(crate::specs::Sets::setting_at))]
    fn read_at<'a>(&self, alloc: Global, tokens: &'a [Token]) -> Reading<'a, RawSetting> {
        let Some(name) = setting_name_at(tokens) else {
            return Ok(None);
        };
        let Some(value) = value_at(alloc, name.rest)? else {
            return Ok(None);
        };
        let setting = RawSetting {
            name: Bytes::of(alloc, name.value)?,
            value: value.value,
        };
        Ok(Some(Read {
            value: setting,
            rest: value.rest,
        }))
    }
}

/// The SET that the tokens are.
#[tactic(auto, unfolding(crate::specs::Sets::set_at))]
pub(crate) fn set_at(alloc: Global, tokens: &[Token]) -> Result<Option<RawSettingList>, AllocError>
    ensures { IfOk result (λ o. o ≡ set_at tokens.now) }
{
    let Some(behind) = after_word(tokens, b"SET") else {
        return Ok(None);
    };
    let Some(list) = items_at(alloc, Separator::Comma, &Settings, behind)? else {
        return Ok(None);
    };
    if list.rest.is_empty() {
        return Ok(Some(list.value));
    }
    Ok(None)
}
