ghost use Rattle.std.specs.Prelude.{IfOk};
ghost use Rattle.rx_reading.specs.Reading.{Reads, ReadsMaybe};
ghost use Rattle.rx_ddl.specs.Columns.{argument_at, arguments_at, column_at};

use crate::attributes::attributes_at;
use crate::statements::{Argument, ArgumentList, ColumnDefinition};
use rx_reading::{
    Item, Read, Reading, after_sign, enclosed_at, name_at, number_at, text_at, word_at,
};
use rx_token::{Token, signs};
use rx_value::Bytes;
use std::alloc::Global;

/// Reads an argument of a type.
struct Arguments;

impl Item for Arguments {
    type Value = Argument;

    ghost reader = { λ item. argument_at };

    fn read_at<'a>(&self, alloc: Global, tokens: &'a [Token]) -> Reading<'a, Argument> {
        if let Some(number) = number_at(tokens) {
            return Ok(Some(Read {
                value: Argument::Number(number.value),
                rest: number.rest,
            }));
        }
        let Some(text) = text_at(tokens) else {
            return Ok(None);
        };
        Ok(Some(Read {
            value: Argument::Text(Bytes::of(alloc, text.value)?),
            rest: text.rest,
        }))
    }
}

/// The arguments of a type, none where no parenthesis stands.
#[tactic(auto, unfolding(crate::specs::Columns::arguments_at))]
fn arguments_at<'a>(alloc: Global, tokens: &'a [Token]) -> Reading<'a, ArgumentList>
    ensures { IfOk result (ReadsMaybe arguments_at tokens.now) }
{
    if after_sign(tokens, signs::OPEN).is_none() {
        return Ok(Some(Read {
            value: ArgumentList::new(alloc),
            rest: tokens,
        }));
    }
    enclosed_at(alloc, &Arguments, tokens)
}

/// A column, and the tokens behind it.
#[tactic(auto, unfolding(crate::specs::Columns::column_at))]
pub(crate) fn column_at<'a>(alloc: Global, tokens: &'a [Token]) -> Reading<'a, ColumnDefinition>
    ensures { IfOk result (Reads column_at tokens.now) }
{
    let Some(name) = name_at(tokens) else {
        return Ok(None);
    };
    let Some(kind) = word_at(name.rest) else {
        return Ok(None);
    };
    let Some(arguments) = arguments_at(alloc, kind.rest)? else {
        return Ok(None);
    };
    let attributes = attributes_at(alloc, arguments.rest)?;
    let value = ColumnDefinition {
        name: Bytes::of(alloc, name.value)?,
        kind: Bytes::of(alloc, kind.value)?,
        arguments: arguments.value,
        attributes: attributes.value,
    };
    Ok(Some(Read {
        value,
        rest: attributes.rest,
    }))
}
