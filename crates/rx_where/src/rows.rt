ghost use Rattle.std.specs.Prelude.{◌≡◌, IfOk};
ghost use Rattle.rx_where.specs.Raw.{raw_tree_of};
ghost use Rattle.rx_reading.specs.Reading.{Reads, ReadsAs};
ghost use Rattle.rx_where.specs.Rows.{names_at, tuple_at, row_list_at, not_row_list_at, row_test_at};

use crate::operands::constants_at;
use crate::raw::RawCond;
use rx_reading::{Item, Names, Read, Reading, after_word, enclosed_at};
use rx_token::Token;
use rx_value::{Key, NameList};
use std::alloc::Global;

/// Names between parentheses, at least two.
#[tactic(auto, unfolding(crate::specs::Rows::names_at))]
fn names_at(alloc: Global, tokens: &[Token]) -> Reading<NameList>
    ensures { IfOk result (Reads names_at tokens.now) }
{
    let Some(names) = enclosed_at(alloc, &Names, tokens)? else {
        return Ok(None);
    };
    if names.value.len() > 1 {
        return Ok(Some(names));
    }
    Ok(None)
}

/// Reads a tuple of so many constants.
#[derive(Drop)]
struct Tuples {
    count: usize,
}

impl Item for Tuples {
    type Value = Key;

    ghost reader = { λ item. tuple_at item.count };

    #[tactic(auto, unfolding(crate::specs::Rows::tuple_at))]
    fn read_at<'a>(&self, alloc: Global, tokens: &'a [Token]) -> Reading<'a, Key> {
        let Some(tuple) = constants_at(alloc, tokens)? else {
            return Ok(None);
        };
        if tuple.value.len() == self.count {
            return Ok(Some(tuple));
        }
        Ok(None)
    }
}

#[tactic(auto, unfolding(crate::specs::Rows::row_list_at))]
fn row_list_at<'a>(alloc: Global, names: &NameList, tokens: &'a [Token]) -> Reading<'a, RawCond>
    ensures { IfOk result (ReadsAs raw_tree_of (row_list_at names.now) tokens.now) }
{
    let Some(behind) = after_word(tokens, b"IN") else {
        return Ok(None);
    };
    let tuples = Tuples { count: names.len() };
    let Some(list) = enclosed_at(alloc, &tuples, behind)? else {
        return Ok(None);
    };
    let columns = names.copy(alloc)?;
    Ok(Some(Read {
        value: RawCond::RowMember {
            columns,
            list: list.value,
        },
        rest: list.rest,
    }))
}

#[tactic(auto, unfolding(crate::specs::Rows::not_row_list_at))]
fn not_row_list_at<'a>(alloc: Global, names: &NameList, tokens: &'a [Token]) -> Reading<'a, RawCond>
    ensures { IfOk result (ReadsAs raw_tree_of (not_row_list_at names.now) tokens.now) }
{
    let Some(behind) = after_word(tokens, b"NOT") else {
        return Ok(None);
    };
    let Some(inner) = row_list_at(alloc, names, behind)? else {
        return Ok(None);
    };
    let negated = Box::new(alloc, inner.value)?;
    Ok(Some(Read {
        value: RawCond::Neg(negated),
        rest: inner.rest,
    }))
}

/// Names and [NOT] IN tuples.
#[tactic(auto, unfolding(crate::specs::Rows::row_test_at))]
pub(crate) fn row_test_at(alloc: Global, tokens: &[Token]) -> Reading<RawCond>
    ensures { IfOk result (ReadsAs raw_tree_of row_test_at tokens.now) }
{
    let Some(names) = names_at(alloc, tokens)? else {
        return Ok(None);
    };
    if let Some(found) = not_row_list_at(alloc, &names.value, names.rest)? {
        return Ok(Some(found));
    }
    row_list_at(alloc, &names.value, names.rest)
}
