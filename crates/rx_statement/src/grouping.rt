ghost use Rattle.std.specs.Prelude.{◌≡◌};
ghost use Rattle.std.specs.List.{list_all, list_any};
ghost use Rattle.rx_query.specs.Grouping.{is_among, is_item, is_grouped_item, is_grouped_by, is_selected_by, makes_groups, is_by_group, is_grouped};

use rx_query::{By, Item, Order, makes_groups};

fn is_among(numbers: &[u32], number: u32) -> bool
    ensures { result ≡ is_among numbers.now number }
{
    numbers.iter().any(|other| *other == number)
}

fn is_item(number: u32, item: &Item) -> bool
    ensures { result ≡ is_item number item.now }
{
    match item {
        Item::Column(column) => *column == number,
        _ => false,
    }
}

fn is_grouped_item(group: &[u32], item: &Item) -> bool
    ensures { result ≡ is_grouped_item group.now item.now }
{
    match item {
        Item::Column(column) => is_among(group, *column),
        _ => true,
    }
}

fn is_grouped_by(group: &[u32], by: By) -> bool
    ensures { result ≡ is_grouped_by group.now by }
{
    match by {
        By::Column(column) => is_among(group, column),
        By::Place(_) => true,
    }
}

fn any_item(items: &[Item], number: u32) -> bool
    ensures { result ≡ list_any (is_item number) items.now }
{
    items.iter().any(|item| is_item(number, item))
}

fn is_selected_by(items: &[Item], by: By) -> bool
    ensures { result ≡ is_selected_by items.now by }
{
    match by {
        By::Column(column) => any_item(items, column),
        By::Place(_) => true,
    }
}

fn all_items_grouped(items: &[Item], group: &[u32]) -> bool
    ensures { result ≡ list_all (is_grouped_item group.now) items.now }
{
    items.iter().all(|item| is_grouped_item(group, item))
}

fn all_order_grouped(order: &[Order], group: &[u32]) -> bool
    ensures { result ≡ list_all (λ o. is_grouped_by group.now o.by) order.now }
{
    order.iter().all(|part| is_grouped_by(group, part.by))
}

fn is_by_group(items: &[Item], group: &[u32], order: &[Order]) -> bool
    ensures { result ≡ is_by_group items.now group.now order.now }
{
    all_items_grouped(items, group) && all_order_grouped(order, group)
}

fn all_order_selected(order: &[Order], items: &[Item]) -> bool
    ensures { result ≡ list_all (λ o. is_selected_by items.now o.by) order.now }
{
    order.iter().all(|part| is_selected_by(items, part.by))
}

/// Whether no column stands for many rows at once.
pub(crate) fn is_grouped(distinct: bool, items: &[Item], group: &[u32], order: &[Order]) -> bool
    ensures { result ≡ is_grouped distinct items.now group.now order.now }
{
    (!makes_groups(items, group) || is_by_group(items, group, order))
        && (!distinct || all_order_selected(order, items))
}
