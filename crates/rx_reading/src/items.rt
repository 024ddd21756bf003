ghost use Rattle.std.specs.Prelude.{◌≡◌, ◌≤◌, length, Some, IfOk, IfSome};
ghost use Rattle.std.specs.Option.{option_map};
ghost use Rattle.rx_reading.specs.Reading.{Reads, ReadsMaybe, past, next_at, all_at, items_at, many_at, enclosed_at};

use crate::fronts::after_sign;
use crate::read::{Read, Reading};
use rx_token::{Token, signs};
use rx_value::List;
use std::alloc::{AllocError, Global};

/// What stands between two items of a list.
#[derive(Clone, Copy)]
pub enum Separator {
    Nothing,
    Comma,
    /// A comma, or nothing.
    MaybeComma,
}

/// What reads one item of a list.
pub trait Item {
    ghost use Rattle.std.specs.Prelude.{List as list, Option};
    ghost use Rattle.rx_token.specs.declared.kinds.Token.{Token as token};

    /// What an item is.
    type Value: Drop;

    ghost reader: { Self → list token → Option (Self.Value × list token) };

    /// The item at the front of the tokens.
    fn read_at<'a>(&self, alloc: Global, tokens: &'a [Token]) -> Reading<'a, Self::Value>
        ensures { IfOk result (Reads (reader self.now) tokens.now) };
}

/// The tokens behind what stands between two items.
fn past(separator: Separator, tokens: &[Token]) -> Option<&[Token]>
    ensures value { option_map (λ rest. rest.now) result ≡ past separator tokens.now }
    ensures within { IfSome result (λ rest. length rest.now ≤ length tokens.now) }
{
    match separator {
        Separator::Nothing => Some(tokens),
        Separator::Comma => after_sign(tokens, signs::COMMA),
        Separator::MaybeComma => match after_sign(tokens, signs::COMMA) {
            Some(rest) => Some(rest),
            None => Some(tokens),
        },
    }
}

/// A separator and an item.
fn next_at<'a, I: Item>(
    alloc: Global,
    separator: Separator,
    item: &I,
    tokens: &'a [Token],
) -> Reading<'a, I::Value>
    ensures { IfOk result (Reads (next_at (past separator) (I.reader item.now)) tokens.now) }
{
    let Some(behind) = past(separator, tokens) else {
        return Ok(None);
    };
    item.read_at(alloc, behind)
}

/// Some items, and behind them as many as follow, each behind a separator.
fn all_at<'a, I: Item>(
    alloc: Global,
    separator: Separator,
    item: &I,
    front: List<I::Value>,
    tokens: &'a [Token],
) -> Result<Read<'a, List<I::Value>>, AllocError>
    ensures { IfOk result (λ read. ReadsMaybe (all_at (past separator) (I.reader item.now) front) tokens.now (Some read)) }
{
    let mut items = front;
    let mut rest = tokens;
    'items: loop {
        let Some(next) = next_at(alloc, separator, item, rest)? else {
            return Ok(Read { value: items, rest });
        };
        items.push(next.value)?;
        rest = next.rest;
    }
}

/// Items as many as follow, maybe none, each behind a separator.
pub fn many_at<'a, I: Item>(
    alloc: Global,
    separator: Separator,
    item: &I,
    tokens: &'a [Token],
) -> Result<Read<'a, List<I::Value>>, AllocError>
    ensures { IfOk result (λ read. ReadsMaybe (many_at (past separator) (I.reader item.now)) tokens.now (Some read)) }
{
    all_at(alloc, separator, item, List::new(alloc), tokens)
}

/// Items, at least one, with a separator between any two.
pub fn items_at<'a, I: Item>(
    alloc: Global,
    separator: Separator,
    item: &I,
    tokens: &'a [Token],
) -> Reading<'a, List<I::Value>>
    ensures { IfOk result (Reads (items_at (past separator) (I.reader item.now)) tokens.now) }
{
    let Some(first) = item.read_at(alloc, tokens)? else {
        return Ok(None);
    };
    let mut items = List::new(alloc);
    items.push(first.value)?;
    let read = all_at(alloc, separator, item, items, first.rest)?;
    Ok(Some(read))
}

/// Items between parentheses, at least one, with a comma between any two.
pub fn enclosed_at<'a, I: Item>(
    alloc: Global,
    item: &I,
    tokens: &'a [Token],
) -> Reading<'a, List<I::Value>>
    ensures { IfOk result (Reads (enclosed_at (I.reader item.now)) tokens.now) }
{
    let Some(behind) = after_sign(tokens, signs::OPEN) else {
        return Ok(None);
    };
    let Some(list) = items_at(alloc, Separator::Comma, item, behind)? else {
        return Ok(None);
    };
    let Some(rest) = after_sign(list.rest, signs::CLOSE) else {
        return Ok(None);
    };
    Ok(Some(Read {
        value: list.value,
        rest,
    }))
}
