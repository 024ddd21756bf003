ghost use Rattle.std.specs.Prelude.{◌≡◌, ◌≤◌, length, IfOk};
ghost use Rattle.rx_token.specs.declared.signs.TheConstants.{COMMA};
ghost use Rattle.rx_reading.specs.Reading.{Reads, ReadsMaybe, after_sign, items_at, name_at};
ghost use Rattle.rx_script.specs.Items.{called_at, of_at, rows_at, different_at, counted_at, column_at, item_at, every_at, listed_at, select_list_at, quantity_at};

use crate::statements::{Aggregate, RawItem, RawItems};
use rx_reading::{
    Item, Names, Read, Reading, Separator, after_sign, after_word, items_at, name_at,
};
use rx_token::{Token, signs};
use rx_value::{Bytes, NameList};
use std::alloc::Global;

/// A word, and what stands between parentheses behind it.
fn called_at<'a, I: Item>(
    alloc: Global,
    word: &[u8],
    inner: &I,
    tokens: &'a [Token],
) -> Reading<'a, I::Value>
    ensures { IfOk result (Reads (called_at word.now (I.reader inner.now)) tokens.now) }
{
    let Some(front) = after_word(tokens, word) else {
        return Ok(None);
    };
    let Some(behind) = after_sign(front, signs::OPEN) else {
        return Ok(None);
    };
    let Some(found) = inner.read_at(alloc, behind)? else {
        return Ok(None);
    };
    let Some(rest) = after_sign(found.rest, signs::CLOSE) else {
        return Ok(None);
    };
    Ok(Some(Read {
        value: found.value,
        rest,
    }))
}

/// Names with a comma between any two, at least one.
pub(crate) fn names_at(alloc: Global, tokens: &[Token]) -> Reading<NameList>
    ensures { IfOk result (Reads (items_at (after_sign COMMA) name_at) tokens.now) }
{
    items_at(alloc, Separator::Comma, &Names, tokens)
}

/// Reads the column of an aggregate.
#[derive(Drop)]
struct Aggregates {
    aggregate: Aggregate,
}

impl Item for Aggregates {
    type Value = RawItem;

    ghost reader = { λ item. of_at item.aggregate };

    fn read_at<'a>(&self, alloc: Global, tokens: &'a [Token]) -> Reading<'a, RawItem> {
        let Some(name) = name_at(tokens) else {
            return Ok(None);
        };
        let value = RawItem::Of {
            aggregate: self.aggregate,
            column: Bytes::of(alloc, name.value)?,
        };
        Ok(Some(Read {
            value,
            rest: name.rest,
        }))
    }
}

fn rows_at(tokens: &[Token]) -> Option<Read<RawItem>>
    ensures { Reads rows_at tokens.now result }
{
    match after_sign(tokens, signs::STAR) {
        Some(rest) => Some(Read {
            value: RawItem::CountRows,
            rest,
        }),
        None => None,
    }
}

/// DISTINCT and names.
fn different_at(alloc: Global, tokens: &[Token]) -> Reading<RawItem>
    ensures { IfOk result (Reads different_at tokens.now) }
{
    let Some(behind) = after_word(tokens, b"DISTINCT") else {
        return Ok(None);
    };
    let Some(names) = names_at(alloc, behind)? else {
        return Ok(None);
    };
    Ok(Some(Read {
        value: RawItem::CountDistinct(names.value),
        rest: names.rest,
    }))
}

/// Reads what stands between the parentheses of COUNT.
struct Counts;

impl Item for Counts {
    type Value = RawItem;

    ghost reader = { λ item. counted_at };

    #[tactic(auto, unfolding(crate::specs::Items::counted_at))]
    fn read_at<'a>(&self, alloc: Global, tokens: &'a [Token]) -> Reading<'a, RawItem> {
        if let Some(found) = rows_at(tokens) {
            return Ok(Some(found));
        }
        if let Some(found) = different_at(alloc, tokens)? {
            return Ok(Some(found));
        }
        let count = Aggregates {
            aggregate: Aggregate::Count,
        };
        count.read_at(alloc, tokens)
    }
}

fn column_at(alloc: Global, tokens: &[Token]) -> Reading<RawItem>
    ensures { IfOk result (Reads column_at tokens.now) }
{
    let Some(name) = name_at(tokens) else {
        return Ok(None);
    };
    Ok(Some(Read {
        value: RawItem::Column(Bytes::of(alloc, name.value)?),
        rest: name.rest,
    }))
}

/// SUM, MIN or MAX and a column between parentheses.
fn aggregate_at<'a>(
    alloc: Global,
    word: &[u8],
    aggregate: Aggregate,
    tokens: &'a [Token],
) -> Reading<'a, RawItem>
    ensures { IfOk result (Reads (called_at word.now (of_at aggregate)) tokens.now) }
{
    let inner = Aggregates { aggregate };
    called_at(alloc, word, &inner, tokens)
}

#[tactic(auto, unfolding(crate::specs::Items::item_at))]
fn item_at(alloc: Global, tokens: &[Token]) -> Reading<RawItem>
    ensures { IfOk result (Reads item_at tokens.now) }
{
    if let Some(found) = called_at(alloc, b"COUNT", &Counts, tokens)? {
        return Ok(Some(found));
    }
    if let Some(found) = aggregate_at(alloc, b"SUM", Aggregate::Sum, tokens)? {
        return Ok(Some(found));
    }
    if let Some(found) = aggregate_at(alloc, b"MIN", Aggregate::Min, tokens)? {
        return Ok(Some(found));
    }
    if let Some(found) = aggregate_at(alloc, b"MAX", Aggregate::Max, tokens)? {
        return Ok(Some(found));
    }
    column_at(alloc, tokens)
}

/// Reads an item of a select list.
struct Items;

impl Item for Items {
    type Value = RawItem;

    ghost reader = { λ item. item_at };

    fn read_at<'a>(&self, alloc: Global, tokens: &'a [Token]) -> Reading<'a, RawItem> {
        item_at(alloc, tokens)
    }
}

/// `*`, or items with a comma between any two.
pub(crate) fn select_list_at(alloc: Global, tokens: &[Token]) -> Reading<RawItems>
    ensures { IfOk result (Reads select_list_at tokens.now) }
{
    if let Some(rest) = after_sign(tokens, signs::STAR) {
        return Ok(Some(Read {
            value: RawItems::Every,
            rest,
        }));
    }
    let Some(list) = items_at(alloc, Separator::Comma, &Items, tokens)? else {
        return Ok(None);
    };
    Ok(Some(Read {
        value: RawItems::Listed(list.value),
        rest: list.rest,
    }))
}

/// Whether DISTINCT stands, and the tokens behind DISTINCT or ALL.
pub(crate) fn quantity_at(tokens: &[Token]) -> Read<bool>
    ensures value { (result.value, result.rest.now) ≡ quantity_at tokens.now }
    ensures within { length result.rest.now ≤ length tokens.now }
{
    if let Some(rest) = after_word(tokens, b"DISTINCT") {
        return Read { value: true, rest };
    }
    match after_word(tokens, b"ALL") {
        Some(rest) => Read { value: false, rest },
        None => Read {
            value: false,
            rest: tokens,
        },
    }
}
