ghost use Rattle.std.specs.Prelude.{◌≡◌, IfOk, length};
ghost use Rattle.std.specs.Str.{chars};
ghost use Rattle.rx_value.specs.Shape.{IsColType, HasWidth};
ghost use Rattle.rx_data.specs.Outcomes.{Answers};
ghost use Rattle.rx_data.specs.Fields.{most, least, number_within, integer_of, is_null_mark, fits_text, value_of, field_value};

use crate::faults::DataFault;
use rx_value::{Bytes, ColType, Column, Value};
use std::alloc::{AllocError, Global};
use std::str::from_utf8;

/// The greatest number of an integer type.
fn most(bits: u32, signed: bool) -> u64
    requires { HasWidth bits }
    ensures { result ≡ most bits signed }
{
    if signed {
        2u64.pow(bits - 1) - 1
    } else {
        (2u128.pow(bits) - 1) as u64
    }
}

/// How far an integer type goes below zero.
fn least(bits: u32, signed: bool) -> u64
    requires { HasWidth bits }
    ensures { result ≡ least bits signed }
{
    if signed { 2u64.pow(bits - 1) } else { 0 }
}

/// The number that decimal digits write, where it is at most so large.
#[tactic(auto, unfolding(crate::specs::Fields::number_within))]
fn number_within(most: u64, digits: &[u8]) -> Option<u64>
    ensures { result ≡ number_within most digits.now }
{
    if digits.is_empty() {
        return None;
    }
    let mut value: u128 = 0;
    for digit in digits {
        if value > u128::from(most) {
            return None;
        }
        if !digit.is_ascii_digit() {
            return None;
        }
        value = value * 10 + u128::from(*digit - b'0');
    }
    if value <= u128::from(most) {
        Some(value as u64)
    } else {
        None
    }
}

/// The integer that a field writes, where a type has it.
fn integer_of(bits: u32, signed: bool, field: &[u8]) -> Option<Value>
    requires { HasWidth bits }
    ensures { result ≡ integer_of bits signed field.now }
{
    match field {
        [] => None,
        [b'-', digits @ ..] => {
            let n = number_within(least(bits, signed), digits)?;
            Some(Value::Int(-i128::from(n)))
        }
        _ => {
            let n = number_within(most(bits, signed), field)?;
            Some(Value::Int(i128::from(n)))
        }
    }
}

/// How many characters a text has.
fn char_count(text: &str) -> usize
    ensures { result ≡ length (chars text.now) }
{
    text.chars().count()
}

/// Whether a field is UTF-8 of at most so many characters.
#[tactic(auto, using(crate::proofs::Utf8::text_passes, crate::proofs::Utf8::no_text_fails))]
fn fits_text(most: u32, field: &[u8]) -> bool
    ensures { result ≡ fits_text most field.now }
{
    match from_utf8(field) {
        Ok(text) => char_count(text) <= most as usize,
        Err(_) => false,
    }
}

fn is_null_mark(field: &[u8]) -> bool
    ensures { result ≡ is_null_mark field.now }
{
    match field {
        [a, b] => *a == b'\\' && *b == b'N',
        _ => false,
    }
}

/// The value of a type that a field writes, None where it writes none. The error is want of memory.
fn value_of(alloc: Global, kind: ColType, field: &[u8]) -> Result<Option<Value>, AllocError>
    requires { IsColType kind }
    ensures { IfOk result (λ value. value ≡ value_of kind field.now) }
{
    match kind {
        ColType::Whole { bits, signed } => Ok(integer_of(bits, signed, field)),
        ColType::VarChar { chars } if fits_text(chars, field) => Ok(Some(Value::Text(Bytes::of(
            alloc, field,
        )?))),
        ColType::VarChar { .. } => Ok(None),
    }
}

/// The value that a field of a row gives a column.
pub(crate) fn field_value(
    alloc: Global,
    row: u64,
    number: u32,
    column: &Column,
    field: &[u8],
) -> Result<Value, DataFault>
    requires { IsColType column.now.kind }
    ensures { Answers (field_value row number column.now field.now) result }
{
    if is_null_mark(field) {
        return if column.nullable {
            Ok(Value::Null)
        } else {
            Err(DataFault::NullNotAllowed {
                row,
                column: number,
            })
        };
    }
    match value_of(alloc, column.kind, field)? {
        Some(value) => Ok(value),
        None => Err(DataFault::BadValue {
            row,
            column: number,
        }),
    }
}
