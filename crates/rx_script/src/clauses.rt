ghost use Rattle.std.specs.Prelude.{◌≡◌, IfOk};
ghost use Rattle.rx_token.specs.declared.signs.TheConstants.{COMMA};
ghost use Rattle.rx_reading.specs.Reading.{Reads, ReadsAs, ReadsMaybe, Gives};
ghost use Rattle.rx_where.specs.Raw.{raw_tree_of};
ghost use Rattle.rx_where.specs.Conditions.{longest_at};
ghost use Rattle.rx_script.specs.Clauses.{MaybeAs, where_at, group_at, by_column_at, by_place_at, by_at, order_part_at, order_at, clauses_of, clauses_at};

use crate::items::names_at;
use crate::statements::{RawBy, RawOrder, RawOrderList};
use rx_cond::Tri;
use rx_reading::{
    Item, Read, Reading, Separator, after_word, direction_at, items_at, name_at, number_at,
};
use rx_token::Token;
use rx_value::{Bytes, NameList};
use rx_where::{ParseFault, RawCond, parse};
use std::alloc::{AllocError, Global};

/// What stands behind the table and its hints.
#[derive(Drop)]
pub(crate) struct Clauses {
    pub(crate) cond: RawCond,
    pub(crate) group: NameList,
    pub(crate) order: RawOrderList,
}

/// The longest condition at the front, and the tokens behind it.
fn cond_at(alloc: Global, tokens: &[Token]) -> Reading<RawCond>
    ensures { IfOk result (ReadsAs raw_tree_of longest_at tokens.now) }
{
    match parse(alloc, tokens, 0) {
        Ok((value, end)) => {
            let (_, rest) = tokens.split_at(end);
            Ok(Some(Read { value, rest }))
        }
        Err(ParseFault::NotInGrammar) => Ok(None),
        Err(ParseFault::NoMemory) => Err(AllocError),
    }
}

/// WHERE and a condition, and without it what is always true.
fn where_at(alloc: Global, tokens: &[Token]) -> Reading<RawCond>
    ensures { IfOk result (MaybeAs raw_tree_of where_at tokens.now) }
{
    match after_word(tokens, b"WHERE") {
        Some(behind) => cond_at(alloc, behind),
        None => Ok(Some(Read {
            value: RawCond::Truth(Tri::T),
            rest: tokens,
        })),
    }
}

/// GROUP BY and names, and without it none.
fn group_at(alloc: Global, tokens: &[Token]) -> Reading<NameList>
    ensures { IfOk result (ReadsMaybe group_at tokens.now) }
{
    let Some(behind) = after_word(tokens, b"GROUP") else {
        return Ok(Some(Read {
            value: NameList::new(alloc),
            rest: tokens,
        }));
    };
    let Some(behind) = after_word(behind, b"BY") else {
        return Ok(None);
    };
    names_at(alloc, behind)
}

fn by_column_at(alloc: Global, tokens: &[Token]) -> Reading<RawBy>
    ensures { IfOk result (Reads by_column_at tokens.now) }
{
    let Some(name) = name_at(tokens) else {
        return Ok(None);
    };
    Ok(Some(Read {
        value: RawBy::Column(Bytes::of(alloc, name.value)?),
        rest: name.rest,
    }))
}

fn by_place_at(alloc: Global, tokens: &[Token]) -> Reading<RawBy>
    ensures { IfOk result (Reads by_place_at tokens.now) }
{
    let Some(found) = number_at(tokens) else {
        return Ok(None);
    };
    let [token, _rest @ ..] = tokens else {
        return Ok(None);
    };
    let value = RawBy::Place {
        number: found.value,
        digits: Bytes::of(alloc, token.text.as_slice())?,
    };
    Ok(Some(Read {
        value,
        rest: found.rest,
    }))
}

fn by_at(alloc: Global, tokens: &[Token]) -> Reading<RawBy>
    ensures { IfOk result (Reads by_at tokens.now) }
{
    if let Some(found) = by_column_at(alloc, tokens)? {
        return Ok(Some(found));
    }
    by_place_at(alloc, tokens)
}

/// Reads a part of ORDER BY.
struct OrderParts;

impl Item for OrderParts {
    type Value = RawOrder;

    ghost reader = { λ item. order_part_at };

    #[tactic(auto, unfolding(crate::specs::Clauses::order_part_at))]
    fn read_at<'a>(&self, alloc: Global, tokens: &'a [Token]) -> Reading<'a, RawOrder> {
        let Some(by) = by_at(alloc, tokens)? else {
            return Ok(None);
        };
        let falling = direction_at(by.rest);
        let value = RawOrder {
            by: by.value,
            falling: falling.value,
        };
        Ok(Some(Read {
            value,
            rest: falling.rest,
        }))
    }
}

/// ORDER BY and its parts, and without it none.
fn order_at(alloc: Global, tokens: &[Token]) -> Reading<RawOrderList>
    ensures { IfOk result (ReadsMaybe order_at tokens.now) }
{
    let Some(behind) = after_word(tokens, b"ORDER") else {
        return Ok(Some(Read {
            value: RawOrderList::new(alloc),
            rest: tokens,
        }));
    };
    let Some(behind) = after_word(behind, b"BY") else {
        return Ok(None);
    };
    items_at(alloc, Separator::Comma, &OrderParts, behind)
}

/// WHERE, GROUP BY and ORDER BY, each of which may be left out.
#[tactic(auto, unfolding(crate::specs::Clauses::clauses_at))]
pub(crate) fn clauses_at(alloc: Global, tokens: &[Token]) -> Reading<Clauses>
    ensures { IfOk result (MaybeAs clauses_of clauses_at tokens.now) }
{
    let Some(cond) = where_at(alloc, tokens)? else {
        return Ok(None);
    };
    let Some(group) = group_at(alloc, cond.rest)? else {
        return Ok(None);
    };
    let Some(order) = order_at(alloc, group.rest)? else {
        return Ok(None);
    };
    let value = Clauses {
        cond: cond.value,
        group: group.value,
        order: order.value,
    };
    Ok(Some(Read {
        value,
        rest: order.rest,
    }))
}
