//! The columns that a query names, the indexes that have them, and those that it may use.

ghost use Rattle.std.specs.Prelude.{◌≡◌, ◌<◌, not, ◌&&◌, IfOk, length};
ghost use Rattle.std.specs.List.{list_all, list_any};
ghost use Rattle.rx_value.specs.Shape.{IsSchema};
ghost use Rattle.rx_query.specs.Steps.{columns_of_item, columns_listed, question_of};
ghost use Rattle.rx_estimate.specs.Estimates.{parts_in};
ghost use Rattle.rx_named.specs.Naming.{column_ordered_by, columns_ordered, is_one_of, names};
ghost use Rattle.rx_plan.specs.Naming.{columns_named, is_part, are_whole, has_columns, is_primary, is_usable};

use rx_cond::mentions;
use rx_query::{By, Item, Order, Select};
use rx_value::{NumberList, Part, Schema};
use std::alloc::{AllocError, Global};

fn is_one_of(columns: &[u32], column: u32) -> bool
    ensures { result ≡ is_one_of columns.now column }
{
    columns.contains(&column)
}

fn item_names(item: &Item, column: u32) -> bool
    ensures { result ≡ is_one_of (columns_of_item item.now) column }
{
    match item {
        Item::CountRows => false,
        Item::CountDistinct(columns) => is_one_of(columns.as_slice(), column),
        Item::Column(own) | Item::Count(own) | Item::Sum(own) | Item::Min(own) | Item::Max(own) =>
            *own == column,
    }
}

fn some_item_names(items: &[Item], column: u32) -> bool
    ensures { result ≡ list_any (λ item. is_one_of (columns_of_item item) column) items.now }
{
    items.iter().any(|item| item_names(item, column))
}

fn items_name(items: &[Item], column: u32) -> bool
    ensures { result ≡ is_one_of (columns_listed items.now) column }
{
    some_item_names(items, column)
}

fn order_names(order: &Order, column: u32) -> bool
    ensures { result ≡ is_one_of (column_ordered_by order.now.by) column }
{
    match order.by {
        By::Column(own) => own == column,
        By::Place(_) => false,
    }
}

fn some_order_names(orders: &[Order], column: u32) -> bool
    ensures { result ≡ list_any (λ order. is_one_of (column_ordered_by order.by) column) orders.now }
{
    orders.iter().any(|order| order_names(order, column))
}

fn orders_name(orders: &[Order], column: u32) -> bool
    ensures { result ≡ is_one_of (columns_ordered orders.now) column }
{
    some_order_names(orders, column)
}

// Whether the query names a column: in its select list, WHERE, GROUP BY or ORDER BY.
fn names(query: &Select, column: u32) -> bool
    ensures { result ≡ names (question_of query.now) column }
{
    items_name(query.items.as_slice(), column)
        || mentions(&query.cond, column)
        || is_one_of(query.group.as_slice(), column)
        || orders_name(query.order.as_slice(), column)
}

/// The columns of the table that a query names, in order. The error is want of memory.
pub fn columns_named(
    alloc: Global,
    query: &Select,
    schema: &Schema,
) -> Result<NumberList, AllocError>
    requires { IsSchema schema.now }
    ensures { IfOk result (λ list. list ≡ columns_named (question_of query.now) schema.now) }
{
    let count = schema.columns.len() as u32;
    let mut named = NumberList::new(alloc);
    for column in 0..count {
        if names(query, column) {
            named.push(column)?;
        }
    }
    Ok(named)
}

fn is_part(parts: &[Part], column: u32) -> bool
    ensures { result ≡ is_part parts.now column }
{
    parts.iter().any(|part| part.column == column)
}

fn are_whole(parts: &[Part]) -> bool
    ensures { result ≡ are_whole parts.now }
{
    parts.iter().all(|part| part.chars.is_none())
}

fn are_parts(parts: &[Part], columns: &[u32]) -> bool
    ensures { result ≡ list_all (is_part parts.now) columns.now }
{
    columns.iter().all(|column| is_part(parts, *column))
}

// Whether an index has these columns: each is a part of it, and no part has a prefix length.
fn has_columns(columns: &[u32], parts: &[Part]) -> bool
    ensures { result ≡ has_columns columns.now parts.now }
{
    are_whole(parts) && are_parts(parts, columns)
}

/// The parts of an index by its number.
pub fn parts_in(schema: &Schema, index: u32) -> &[Part]
    requires { index < length schema.now.indexes }
    ensures { result.now ≡ parts_in schema.now index }
{
    schema.indexes.as_slice()[index as usize].parts.as_slice()
}

/// Whether an index by its number is the primary key.
pub fn is_primary(schema: &Schema, index: u32) -> bool
    requires { index < length schema.now.indexes }
    ensures { result ≡ is_primary schema.now index }
{
    schema.indexes.as_slice()[index as usize].primary
}

/// Whether the entries of an index alone have these columns: it isn't the primary key, and has them all.
pub fn is_index_only(schema: &Schema, columns: &[u32], index: u32) -> bool
    requires { index < length schema.now.indexes }
    ensures { result ≡ (not (is_primary schema.now index) && has_columns columns.now (parts_in schema.now index)) }
{
    !is_primary(schema, index) && has_columns(columns, parts_in(schema, index))
}

/// Whether the hints of a query leave an index (MySQL manual, "Index Hints").
pub fn is_usable(query: &Select, index: u32) -> bool
    ensures { result ≡ is_usable (question_of query.now) index }
{
    match query.usable.as_slice().get(index as usize) {
        Some(usable) => *usable,
        None => false,
    }
}
