ghost use Rattle.std.specs.Prelude.{◌≡◌, ◌≤◌, map, length, IfOk};
ghost use Rattle.rx_value.specs.Limits.{most_columns};
ghost use Rattle.rx_where.specs.Resolution.{number};
ghost use Rattle.rx_query.specs.Steps as steps;
ghost use Rattle.rx_script.specs.Statements.{written_select};
ghost use Rattle.rx_statement.specs.Asking.{aggregate_item, item_of, every_item, items_of, by_of, order_of, question_of};

use crate::indexes::usable;
use rx_query::{By, Item, ItemList, Order, OrderList, Select};
use rx_script::{Aggregate, RawBy, RawItem, RawItems, RawOrder, RawSelect};
use rx_value::{Bytes, Column, NumberList, Schema};
use rx_where::{number, resolved};
use std::alloc::{AllocError, Global};

fn numbers(alloc: Global, columns: &[Column], names: &[Bytes]) -> Result<NumberList, AllocError>
    requires { length columns.now ≤ most_columns }
    ensures { IfOk result (λ list. list ≡ map (number columns.now) names.now) }
{
    let mut numbers = NumberList::new(alloc);
    for name in names {
        numbers.push(number(columns, name.as_slice()))?;
    }
    Ok(numbers)
}

fn aggregate_item(aggregate: Aggregate, column: u32) -> Item
    ensures { result ≡ aggregate_item aggregate column }
{
    match aggregate {
        Aggregate::Count => Item::Count(column),
        Aggregate::Sum => Item::Sum(column),
        Aggregate::Min => Item::Min(column),
        Aggregate::Max => Item::Max(column),
    }
}

fn item_of(alloc: Global, columns: &[Column], item: &RawItem) -> Result<Item, AllocError>
    requires { length columns.now ≤ most_columns }
    ensures { IfOk result (λ i. i ≡ item_of columns.now item.now) }
{
    match item {
        RawItem::Column(name) => Ok(Item::Column(number(columns, name.as_slice()))),
        RawItem::CountRows => Ok(Item::CountRows),
        RawItem::CountDistinct(names) => Ok(Item::CountDistinct(numbers(
            alloc,
            columns,
            names.as_slice(),
        )?)),
        RawItem::Of { aggregate, column } => Ok(aggregate_item(
            *aggregate,
            number(columns, column.as_slice()),
        )),
    }
}

fn all_columns(alloc: Global, columns: &[Column]) -> Result<ItemList, AllocError>
    requires { length columns.now ≤ most_columns }
    ensures { IfOk result (λ list. list ≡ every_item columns.now) }
{
    let mut items = ItemList::new(alloc);
    for number in 0..columns.len() as u32 {
        items.push(Item::Column(number))?;
    }
    Ok(items)
}

fn named_items(alloc: Global, columns: &[Column], items: &[RawItem]) -> Result<ItemList, AllocError>
    requires { length columns.now ≤ most_columns }
    ensures { IfOk result (λ list. list ≡ map (item_of columns.now) items.now) }
{
    let mut list = ItemList::new(alloc);
    for item in items {
        list.push(item_of(alloc, columns, item)?)?;
    }
    Ok(list)
}

fn items_of(alloc: Global, columns: &[Column], items: &RawItems) -> Result<ItemList, AllocError>
    requires { length columns.now ≤ most_columns }
    ensures { IfOk result (λ list. list ≡ items_of columns.now items.now) }
{
    match items {
        RawItems::Every => all_columns(alloc, columns),
        RawItems::Listed(list) => named_items(alloc, columns, list.as_slice()),
    }
}

/// The column that rows are ordered by, or the place from 0. A select list of 2^32 items is more than memory has.
fn by_of(columns: &[Column], by: &RawBy) -> Result<By, AllocError>
    requires { length columns.now ≤ most_columns }
    ensures { IfOk result (λ b. b ≡ by_of columns.now by.now) }
{
    match by {
        RawBy::Column(name) => Ok(By::Column(number(columns, name.as_slice()))),
        RawBy::Place { number, digits: _ } => match u32::try_from(number.saturating_sub(1)) {
            Ok(place) => Ok(By::Place(place)),
            Err(_) => Err(AllocError),
        },
    }
}

fn order_of(alloc: Global, columns: &[Column], order: &[RawOrder]) -> Result<OrderList, AllocError>
    requires { length columns.now ≤ most_columns }
    ensures { IfOk result (λ list. list ≡ map (order_of columns.now) order.now) }
{
    let mut list = OrderList::new(alloc);
    for part in order {
        list.push(Order {
            by: by_of(columns, &part.by)?,
            falling: part.falling,
        })?;
    }
    Ok(list)
}

/// The question of a SELECT, with numbers in place of names.
pub(crate) fn numbered(
    alloc: Global,
    schema: &Schema,
    select: &RawSelect,
) -> Result<Select, AllocError>
    requires { length schema.now.columns ≤ most_columns }
    ensures { IfOk result (λ s. steps.question_of s ≡ question_of schema.now (written_select select.now)) }
{
    let columns = schema.columns.as_slice();
    Ok(Select {
        distinct: select.distinct,
        items: items_of(alloc, columns, &select.items)?,
        cond: resolved(alloc, columns, &select.cond)?,
        group: numbers(alloc, columns, select.group.as_slice())?,
        order: order_of(alloc, columns, select.order.as_slice())?,
        usable: usable(alloc, select.hints.as_slice(), schema.indexes.as_slice())?,
    })
}
