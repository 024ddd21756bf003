ghost use Rattle.std.specs.Prelude.{◌≡◌, ◌≤◌, length, IfOk};
ghost use Rattle.std.specs.List.{list_any};
ghost use Rattle.rx_value.specs.Limits.{most_columns};
ghost use Rattle.rx_where.specs.Kinds.{column_kind};
ghost use Rattle.rx_query.specs.Steps as steps;
ghost use Rattle.rx_script.specs.Statements.{written_select};
ghost use Rattle.rx_query.specs.Grouping.{grouped};
ghost use Rattle.rx_statement.specs.Asking.{is_text, sums_text, is_mismatched, asked, AsksAs};

use crate::faults::What;
use crate::grouping::is_grouped;
use crate::names::{listed_items, unknown_name};
use crate::numbering::numbered;
use rx_query::Select;
use rx_script::{Aggregate, RawItem, RawSelect};
use rx_value::{Bytes, Column, Schema};
use rx_where::{Kind, column_kind, mismatches};
use std::alloc::{AllocError, Global};

fn is_text(columns: &[Column], name: &[u8]) -> bool
    ensures { result ≡ is_text (column_kind columns.now name.now) }
{
    match column_kind(columns, name) {
        Some(Kind::Text) => true,
        _ => false,
    }
}

fn sums_text(columns: &[Column], item: &RawItem) -> bool
    ensures { result ≡ sums_text columns.now item.now }
{
    match item {
        RawItem::Of {
            aggregate: Aggregate::Sum,
            column,
        } => is_text(columns, column.as_slice()),
        _ => false,
    }
}

fn any_sums_text(columns: &[Column], items: &[RawItem]) -> bool
    ensures { result ≡ list_any (sums_text columns.now) items.now }
{
    items.iter().any(|item| sums_text(columns, item))
}

fn is_mismatched(columns: &[Column], select: &RawSelect) -> bool
    ensures { result ≡ is_mismatched columns.now (written_select select.now) }
{
    mismatches(columns, &select.cond) || any_sums_text(columns, listed_items(&select.items))
}

fn grouped(question: &Select) -> bool
    ensures { result ≡ grouped (steps.question_of question.now) }
{
    is_grouped(
        question.distinct,
        question.items.as_slice(),
        question.group.as_slice(),
        question.order.as_slice(),
    )
}

/// The question that a SELECT asks over a schema, or the first refusal.
#[tactic(auto, unfolding(crate::specs::Asking::asked))]
pub(crate) fn asked(
    alloc: Global,
    schema: &Schema,
    select: &RawSelect,
) -> Result<Result<Select, What>, AllocError>
    requires { length schema.now.columns ≤ most_columns }
    ensures { IfOk result (AsksAs (asked schema.now (written_select select.now))) }
{
    if let Some(name) = unknown_name(schema, select) {
        return Ok(Err(What::UnknownName {
            name: Bytes::of(alloc, name)?,
        }));
    }
    if is_mismatched(schema.columns.as_slice(), select) {
        return Ok(Err(What::TypeMismatch));
    }
    let question = numbered(alloc, schema, select)?;
    if grouped(&question) {
        return Ok(Ok(question));
    }
    Ok(Err(What::NotGrouped))
}
