//! Cases of scripts over the table.

use crate::spelling::show_count;
use crate::tables::table;
use rx_query::{By, Item, Numbered, Order, Script, Select, Setting, Statement};
use rx_statement::{ScriptFault, What, read_script};
use rx_value::{MOST_COLUMNS, Schema};
use std::alloc::{AllocError, Global};

fn show_numbers(alloc: Global, shown: &mut Vec<u8>, numbers: &[u32]) -> Result<(), AllocError> {
    for number in numbers {
        show_count(alloc, shown, *number as usize)?;
    }
    Ok(())
}

fn show_of(alloc: Global, shown: &mut Vec<u8>, word: &[u8], column: u32) -> Result<(), AllocError> {
    shown.extend_from_slice(word)?;
    show_numbers(alloc, shown, &[column])
}

fn show_item(alloc: Global, shown: &mut Vec<u8>, item: &Item) -> Result<(), AllocError> {
    match item {
        Item::Column(column) => show_of(alloc, shown, b",", *column),
        Item::CountRows => shown.extend_from_slice(b", rows"),
        Item::Count(column) => show_of(alloc, shown, b", count", *column),
        Item::CountDistinct(columns) => {
            shown.extend_from_slice(b", different")?;
            show_numbers(alloc, shown, columns.as_slice())
        }
        Item::Sum(column) => show_of(alloc, shown, b", sum", *column),
        Item::Min(column) => show_of(alloc, shown, b", min", *column),
        Item::Max(column) => show_of(alloc, shown, b", max", *column),
    }
}

fn show_order(alloc: Global, shown: &mut Vec<u8>, order: Order) -> Result<(), AllocError> {
    match order.by {
        By::Column(column) => show_of(alloc, shown, b" column", column)?,
        By::Place(place) => show_of(alloc, shown, b" place", place)?,
    }
    if order.falling {
        shown.extend_from_slice(b" falling")?;
    }
    Ok(())
}

fn show_items(alloc: Global, shown: &mut Vec<u8>, items: &[Item]) -> Result<(), AllocError> {
    for item in items {
        show_item(alloc, shown, item)?;
    }
    Ok(())
}

fn show_orders(alloc: Global, shown: &mut Vec<u8>, orders: &[Order]) -> Result<(), AllocError> {
    if orders.is_empty() {
        return Ok(());
    }
    shown.extend_from_slice(b" order")?;
    for order in orders {
        show_order(alloc, shown, *order)?;
    }
    Ok(())
}

fn show_usable(shown: &mut Vec<u8>, usable: &[bool]) -> Result<(), AllocError> {
    shown.extend_from_slice(b" use ")?;
    for is_usable in usable {
        shown.push(if *is_usable { b'y' } else { b'n' })?;
    }
    Ok(())
}

fn show_select(alloc: Global, shown: &mut Vec<u8>, select: &Select) -> Result<(), AllocError> {
    shown.extend_from_slice(if select.distinct {
        b" distinct"
    } else {
        b" all"
    })?;
    show_items(alloc, shown, select.items.as_slice())?;
    if select.group.len() > 0 {
        shown.extend_from_slice(b" group")?;
        show_numbers(alloc, shown, select.group.as_slice())?;
    }
    show_orders(alloc, shown, select.order.as_slice())?;
    show_usable(shown, select.usable.as_slice())
}

fn show_flag(shown: &mut Vec<u8>, word: &[u8], on: bool) -> Result<(), AllocError> {
    shown.extend_from_slice(word)?;
    shown.extend_from_slice(if on { b" on" } else { b" off" })
}

fn show_limit(
    alloc: Global,
    shown: &mut Vec<u8>,
    word: &[u8],
    limit: u64,
) -> Result<(), AllocError> {
    shown.extend_from_slice(word)?;
    show_count(alloc, shown, limit as usize)
}

fn show_setting(alloc: Global, shown: &mut Vec<u8>, setting: Setting) -> Result<(), AllocError> {
    match setting {
        Setting::Merge(on) => show_flag(shown, b" merge", on),
        Setting::Intersection(on) => show_flag(shown, b" intersection", on),
        Setting::UnionOn(on) => show_flag(shown, b" union", on),
        Setting::SortUnion(on) => show_flag(shown, b" sort_union", on),
        Setting::Skip(on) => show_flag(shown, b" skip", on),
        Setting::DiveLimit(limit) => show_limit(alloc, shown, b" dive_limit", limit),
        Setting::Memory(bytes) => show_limit(alloc, shown, b" memory", bytes),
        Setting::Trace(on) => show_flag(shown, b" trace", on),
    }
}

fn show_change(alloc: Global, shown: &mut Vec<u8>, list: &[Setting]) -> Result<(), AllocError> {
    for setting in list {
        show_setting(alloc, shown, *setting)?;
    }
    Ok(())
}

fn show_step(alloc: Global, shown: &mut Vec<u8>, step: &Numbered) -> Result<(), AllocError> {
    show_limit(alloc, shown, b"", step.number)?;
    match &step.statement {
        Statement::Query(select) => show_select(alloc, shown, select),
        Statement::Change(list) => show_change(alloc, shown, list.as_slice()),
    }
}

fn show_steps(alloc: Global, shown: &mut Vec<u8>, script: &Script) -> Result<(), AllocError> {
    for step in script.as_slice() {
        show_step(alloc, shown, step)?;
        shown.push(b';')?;
    }
    Ok(())
}

fn show_what(shown: &mut Vec<u8>, what: &What) -> Result<(), AllocError> {
    match what {
        What::NotAToken => shown.extend_from_slice(b" not a token"),
        What::NotInGrammar => shown.extend_from_slice(b" not in grammar"),
        What::UnknownName { name } => {
            shown.extend_from_slice(b" unknown name ")?;
            shown.extend_from_slice(name.as_slice())
        }
        What::TypeMismatch => shown.extend_from_slice(b" type mismatch"),
        What::NotGrouped => shown.extend_from_slice(b" not grouped"),
        What::BadSetting { name } => {
            shown.extend_from_slice(b" bad setting ")?;
            shown.extend_from_slice(name.as_slice())
        }
    }
}

// What is read of a script over a table within the limits, and want of memory over a larger one.
fn read_over(alloc: Global, text: &[u8], schema: &Schema) -> Result<Script, ScriptFault> {
    if schema.columns.len() > MOST_COLUMNS {
        return Err(ScriptFault::NoMemory);
    }
    read_script(alloc, text, schema)
}

/// The statements of a script, or why it is refused.
pub fn script_told(alloc: Global, text: &[u8]) -> Result<Vec<u8>, AllocError> {
    let schema = table(alloc)?;
    let read = read_over(alloc, text, &schema);
    let mut shown = Vec::new(alloc);
    match read {
        Ok(script) => show_steps(alloc, &mut shown, &script)?,
        Err(ScriptFault::Bad { statement, what }) => {
            show_limit(alloc, &mut shown, b" refused", statement)?;
            show_what(&mut shown, &what)?;
        }
        Err(ScriptFault::NoMemory) => return Err(AllocError),
    }
    Ok(shown)
}
