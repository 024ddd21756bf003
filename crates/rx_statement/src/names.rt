ghost use Rattle.std.specs.Prelude.{◌≡◌, find, length};
ghost use Rattle.std.specs.Option.{option_map};
ghost use Rattle.rx_where.specs.Names.{first_unknown};
ghost use Rattle.rx_script.specs.Statements.{written_select};
ghost use Rattle.rx_statement.specs.Names.{names_of_item, listed_items, unknown_in_items, unknown_table, is_no_index, unknown_in_hints, count_of_items, is_place, unknown_by, unknown_in_order, unknown_before, unknown_behind, unknown_name};

use crate::indexes::is_no_index;
use rx_script::{
    RawBy, RawHint, RawHintList, RawItem, RawItems, RawOrder, RawOrderList, RawSelect,
};
use rx_value::{Bytes, Column, Index, NameList, Schema, same_name};
use rx_where::{first_unknown, if_unknown};

fn unknown_in_item<'a>(columns: &[Column], item: &'a RawItem) -> Option<&'a [u8]>
    ensures { option_map (λ x. x.now) result ≡ first_unknown columns.now (names_of_item item.now) }
{
    match item {
        RawItem::Column(name) => if_unknown(columns, name),
        RawItem::CountRows => None,
        RawItem::CountDistinct(names) => first_unknown(columns, names.as_slice()),
        RawItem::Of {
            aggregate: _,
            column,
        } => if_unknown(columns, column),
    }
}

fn unknown_in_items<'a>(columns: &[Column], items: &'a [RawItem]) -> Option<&'a [u8]>
    ensures { option_map (λ x. x.now) result ≡ unknown_in_items columns.now items.now }
{
    for item in items {
        match unknown_in_item(columns, item) {
            Some(name) => return Some(name),
            None => {}
        }
    }
    None
}

/// The items that are named, none for `*`.
pub(crate) fn listed_items(items: &RawItems) -> &[RawItem]
    ensures { result.now ≡ listed_items items.now }
{
    match items {
        RawItems::Every => &[],
        RawItems::Listed(list) => list.as_slice(),
    }
}

fn unknown_table<'a>(schema: &Schema, name: &'a Bytes) -> Option<&'a [u8]>
    ensures { option_map (λ x. x.now) result ≡ unknown_table schema.now name.now }
{
    if same_name(name.as_slice(), schema.table.as_slice()) {
        return None;
    }
    Some(name.as_slice())
}

fn first_no_index<'a>(indexes: &[Index], names: &'a [Bytes]) -> Option<&'a [u8]>
    ensures { option_map (λ x. x.now) result ≡ find (is_no_index indexes.now) names.now }
{
    for name in names {
        if is_no_index(indexes, name.as_slice()) {
            return Some(name.as_slice());
        }
    }
    None
}

fn unknown_in_hints<'a>(indexes: &[Index], hints: &'a [RawHint]) -> Option<&'a [u8]>
    ensures { option_map (λ x. x.now) result ≡ unknown_in_hints indexes.now hints.now }
{
    for hint in hints {
        match first_no_index(indexes, hint.indexes.as_slice()) {
            Some(name) => return Some(name),
            None => {}
        }
    }
    None
}

fn count_of_items(columns: &[Column], items: &RawItems) -> usize
    ensures { result ≡ count_of_items columns.now items.now }
{
    match items {
        RawItems::Every => columns.len(),
        RawItems::Listed(list) => list.len(),
    }
}

fn is_place(count: usize, number: u128) -> bool
    ensures { result ≡ is_place count number }
{
    0 < number && number <= count as u128
}

fn unknown_by<'a>(columns: &[Column], count: usize, by: &'a RawBy) -> Option<&'a [u8]>
    ensures { option_map (λ x. x.now) result ≡ unknown_by columns.now count by.now }
{
    match by {
        RawBy::Column(name) => if_unknown(columns, name),
        RawBy::Place { number, digits } => {
            if is_place(count, *number) {
                None
            } else {
                Some(digits.as_slice())
            }
        }
    }
}

fn unknown_in_order<'a>(columns: &[Column], count: usize, order: &'a [RawOrder]) -> Option<&'a [u8]>
    ensures { option_map (λ x. x.now) result ≡ unknown_in_order columns.now count order.now }
{
    for part in order {
        match unknown_by(columns, count, &part.by) {
            Some(name) => return Some(name),
            None => {}
        }
    }
    None
}

fn unknown_before<'a>(
    schema: &Schema,
    items: &'a RawItems,
    table: &'a Bytes,
    hints: &'a RawHintList,
) -> Option<&'a [u8]>
    ensures { option_map (λ x. x.now) result ≡ unknown_before schema.now items.now table.now hints.now }
{
    if let Some(name) = unknown_in_items(schema.columns.as_slice(), listed_items(items)) {
        return Some(name);
    }
    if let Some(name) = unknown_table(schema, table) {
        return Some(name);
    }
    unknown_in_hints(schema.indexes.as_slice(), hints.as_slice())
}

fn unknown_behind<'a>(
    schema: &Schema,
    items: &RawItems,
    group: &'a NameList,
    order: &'a RawOrderList,
) -> Option<&'a [u8]>
    ensures { option_map (λ x. x.now) result ≡ unknown_behind schema.now items.now group.now order.now }
{
    let columns = schema.columns.as_slice();
    if let Some(name) = first_unknown(columns, group.as_slice()) {
        return Some(name);
    }
    unknown_in_order(columns, count_of_items(columns, items), order.as_slice())
}

/// The first name, in the order of the text, that names nothing.
#[tactic(auto, unfolding(crate::specs::Names::unknown_name))]
pub(crate) fn unknown_name<'a>(schema: &Schema, select: &'a RawSelect) -> Option<&'a [u8]>
    ensures { option_map (λ x. x.now) result ≡ unknown_name schema.now (written_select select.now) }
{
    if let Some(name) = unknown_before(schema, &select.items, &select.table, &select.hints) {
        return Some(name);
    }
    if let Some(name) = rx_where::unknown_name(schema.columns.as_slice(), &select.cond) {
        return Some(name);
    }
    unknown_behind(schema, &select.items, &select.group, &select.order)
}
