ghost use Rattle.std.specs.Prelude.{◌≡◌, ◌<◌, ◌≤ℤ◌, ◌^◌, pos, length, IfOk, IfSome};
ghost use Rattle.rx_reading.specs.Reading.{Reads};
ghost use Rattle.rx_where.specs.Operands.{whole_of, whole_at, plus_at, minus_at, number_at, null_at, constant_at, operand_at, constants_at};

use crate::raw::RawOperand;
use rx_reading::{Item, Read, Reading, after_sign, after_word, enclosed_at, name_at, text_at};
use rx_token::{Token, TokenKind, signs};
use rx_value::{Bytes, Key, Value};
use std::alloc::Global;

fn whole_of(kind: TokenKind) -> Option<u128>
    ensures value { result ≡ whole_of kind }
    ensures small { IfSome result (λ n. n < 2 ^ 127) }
{
    match kind {
        TokenKind::Number(n) => if n < 1 << 127 { Some(n) } else { None },
        _ => None,
    }
}

fn whole_at(tokens: &[Token]) -> Option<Read<i128>>
    ensures value { Reads whole_at tokens.now result }
    ensures small { IfSome result (λ x. pos 0 ≤ℤ x.value) }
{
    let [token, rest @ ..] = tokens else {
        return None;
    };
    match whole_of(token.kind) {
        Some(n) => Some(Read {
            value: n as i128,
            rest,
        }),
        None => None,
    }
}

fn plus_at(tokens: &[Token]) -> Option<Read<i128>>
    ensures { Reads plus_at tokens.now result }
{
    let Some(behind) = after_sign(tokens, signs::PLUS) else {
        return None;
    };
    whole_at(behind)
}

fn minus_at(tokens: &[Token]) -> Option<Read<i128>>
    ensures { Reads minus_at tokens.now result }
{
    let Some(behind) = after_sign(tokens, signs::MINUS) else {
        return None;
    };
    let Some(number) = whole_at(behind) else {
        return None;
    };
    Some(Read {
        value: -number.value,
        rest: number.rest,
    })
}

/// A number with or without a sign.
fn number_at(tokens: &[Token]) -> Option<Read<i128>>
    ensures { Reads number_at tokens.now result }
{
    if let Some(found) = plus_at(tokens) {
        return Some(found);
    }
    if let Some(found) = minus_at(tokens) {
        return Some(found);
    }
    whole_at(tokens)
}

fn null_at(tokens: &[Token]) -> Option<Read<Value>>
    ensures { Reads null_at tokens.now result }
{
    let Some(rest) = after_word(tokens, b"NULL") else {
        return None;
    };
    Some(Read {
        value: Value::Null,
        rest,
    })
}

#[tactic(auto, unfolding(crate::specs::Operands::constant_at))]
fn constant_at(alloc: Global, tokens: &[Token]) -> Reading<Value>
    ensures { IfOk result (Reads constant_at tokens.now) }
{
    if let Some(found) = null_at(tokens) {
        return Ok(Some(found));
    }
    if let Some(text) = text_at(tokens) {
        let value = Value::Text(Bytes::of(alloc, text.value)?);
        return Ok(Some(Read {
            value,
            rest: text.rest,
        }));
    }
    let Some(number) = number_at(tokens) else {
        return Ok(None);
    };
    Ok(Some(Read {
        value: Value::Int(number.value),
        rest: number.rest,
    }))
}

/// A name or a constant.
#[tactic(auto, unfolding(crate::specs::Operands::operand_at))]
pub(crate) fn operand_at(alloc: Global, tokens: &[Token]) -> Reading<RawOperand>
    ensures { IfOk result (Reads operand_at tokens.now) }
{
    if let Some(name) = name_at(tokens) {
        let value = RawOperand::Column(Bytes::of(alloc, name.value)?);
        return Ok(Some(Read {
            value,
            rest: name.rest,
        }));
    }
    let Some(constant) = constant_at(alloc, tokens)? else {
        return Ok(None);
    };
    Ok(Some(Read {
        value: RawOperand::Constant(constant.value),
        rest: constant.rest,
    }))
}

/// Reads a constant.
struct Constants;

impl Item for Constants {
    type Value = Value;

    ghost reader = { λ item. constant_at };

    fn read_at<'a>(&self, alloc: Global, tokens: &'a [Token]) -> Reading<'a, Value> {
        constant_at(alloc, tokens)
    }
}

/// Constants between parentheses.
#[tactic(auto, unfolding(crate::specs::Operands::constants_at))]
pub(crate) fn constants_at(alloc: Global, tokens: &[Token]) -> Reading<Key>
    ensures { IfOk result (Reads constants_at tokens.now) }
{
    enclosed_at(alloc, &Constants, tokens)
}
