ghost use Rattle.std.specs.Prelude.{◌≡◌, IfOk};
ghost use Rattle.std.specs.Option.{option_map};
ghost use Rattle.rx_reading.specs.Reading.{Reads};
ghost use Rattle.rx_script.specs.Statements.{written_select};
ghost use Rattle.rx_script.specs.Selects.{head_at, source_at, select_at};

use crate::clauses::clauses_at;
use crate::hints::hints_at;
use crate::items::{quantity_at, select_list_at};
use crate::statements::{RawHintList, RawItems, RawSelect};
use rx_reading::{Read, Reading, after_word, name_at};
use rx_token::Token;
use rx_value::Bytes;
use std::alloc::{AllocError, Global};

/// What stands before FROM.
#[derive(Drop)]
struct Head {
    distinct: bool,
    items: RawItems,
}

/// The table and its hints.
#[derive(Drop)]
struct Source {
    table: Bytes,
    hints: RawHintList,
}

/// SELECT, DISTINCT or ALL, and the select list.
#[tactic(auto, unfolding(crate::specs::Selects::head_at))]
fn head_at(alloc: Global, tokens: &[Token]) -> Reading<Head>
    ensures { IfOk result (Reads head_at tokens.now) }
{
    let Some(behind) = after_word(tokens, b"SELECT") else {
        return Ok(None);
    };
    let distinct = quantity_at(behind);
    let Some(items) = select_list_at(alloc, distinct.rest)? else {
        return Ok(None);
    };
    let value = Head {
        distinct: distinct.value,
        items: items.value,
    };
    Ok(Some(Read {
        value,
        rest: items.rest,
    }))
}

/// FROM, the table, and its hints.
#[tactic(auto, unfolding(crate::specs::Selects::source_at))]
fn source_at(alloc: Global, tokens: &[Token]) -> Reading<Source>
    ensures { IfOk result (Reads source_at tokens.now) }
{
    let Some(behind) = after_word(tokens, b"FROM") else {
        return Ok(None);
    };
    let Some(table) = name_at(behind) else {
        return Ok(None);
    };
    let hints = hints_at(alloc, table.rest)?;
    let value = Source {
        table: Bytes::of(alloc, table.value)?,
        hints: hints.value,
    };
    Ok(Some(Read {
        value,
        rest: hints.rest,
    }))
}

/// The SELECT that the tokens are.
#[tactic(auto, unfolding(crate::specs::Selects::select_at))]
pub(crate) fn select_at(alloc: Global, tokens: &[Token]) -> Result<Option<RawSelect>, AllocError>
    ensures { IfOk result (λ o. option_map written_select o ≡ select_at tokens.now) }
{
    let Some(head) = head_at(alloc, tokens)? else {
        return Ok(None);
    };
    let Some(source) = source_at(alloc, head.rest)? else {
        return Ok(None);
    };
    let Some(clauses) = clauses_at(alloc, source.rest)? else {
        return Ok(None);
    };
    if !clauses.rest.is_empty() {
        return Ok(None);
    }
    Ok(Some(RawSelect {
        distinct: head.value.distinct,
        items: head.value.items,
        table: source.value.table,
        hints: source.value.hints,
        cond: clauses.value.cond,
        group: clauses.value.group,
        order: clauses.value.order,
    }))
}
