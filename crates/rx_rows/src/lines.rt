ghost use Rattle.std.specs.Prelude.{◌≡◌, ◌++◌, ◌∷◌, [], List, ℕ, OnOk, OnErr, option_copied, unwrap_or};
ghost use Rattle.std.specs.List.{flat_map};
ghost use Rattle.rx_value.specs.declared.values.Value.TheVariants.{Null};
ghost use Rattle.rx_rows.specs.Answer.{item_value, projected};
ghost use Rattle.rx_rows.specs.Lines.{line_of, footer_of, value_text, escaped, values_text, GoesOn};

use crate::choosing::Projected;
use itoa::Buffer;
use rx_query::Item;
use rx_value::{Bytes, Row, Value};
use std::alloc::AllocError;

/// Appends one line: the values parted by tabs, NULL as `\N`, integers decimal, texts with backslash,
/// tab, line feed, carriage return and byte 0 as `\\`, `\t`, `\n`, `\r` and `\0`.
/// The error is want of memory, and leaves `into` as it was.
pub fn print_row(row: &Row, into: &mut Bytes) -> Result<(), AllocError>
    ensures ok { OnOk result (into.new ≡ into.old ++ line_of row.now) }
    ensures err { OnErr result (into.new ≡ into.old) }
{
    let before = into.len();
    match print_whole_line(row.as_slice(), into) {
        Ok(()) => Ok(()),
        Err(refused) => {
            into.truncate(before);
            Err(refused)
        }
    }
}

/// Appends the line of a select list at a row, as `print_row` does of a row of its own.
/// The error is want of memory, and leaves `into` as it was.
pub fn print_projected(values: &Projected<'_>, into: &mut Bytes) -> Result<(), AllocError>
    ensures ok { OnOk result (into.new ≡ into.old ++ line_of values.now) }
    ensures err { OnErr result (into.new ≡ into.old) }
{
    let start = into.len();
    match print_line(values.items, values.row, into) {
        Ok(()) => Ok(()),
        Err(refused) => {
            into.truncate(start);
            Err(refused)
        }
    }
}

/// Appends the line that closes a block: how many rows it has.
/// The error is want of memory, and leaves `into` as it was.
pub fn print_footer(rows: u64, into: &mut Bytes) -> Result<(), AllocError>
    ensures ok { OnOk result (into.new ≡ into.old ++ footer_of rows) }
    ensures err { OnErr result (into.new ≡ into.old) }
{
    let before = into.len();
    match print_count(rows, into) {
        Ok(()) => Ok(()),
        Err(refused) => {
            into.truncate(before);
            Err(refused)
        }
    }
}

fn print_count(rows: u64, into: &mut Bytes) -> Result<(), AllocError>
    ensures ok { OnOk result (into.new ≡ into.old ++ footer_of rows) }
    ensures err { OnErr result (GoesOn into.old into.new) }
{
    into.append(b"\\. ")?;
    into.append(Buffer::new().format(rows).as_bytes())?;
    into.push(b'\n')
}

fn print_whole_line(row: &[Value], into: &mut Bytes) -> Result<(), AllocError>
    ensures ok { OnOk result (into.new ≡ into.old ++ line_of row.now) }
    ensures err { OnErr result (GoesOn into.old into.new) }
{
    print_whole_row(row, into)?;
    into.push(b'\n')
}

// The values of a row, parted by tabs.
fn print_whole_row(row: &[Value], into: &mut Bytes) -> Result<(), AllocError>
    ensures ok { OnOk result (into.new ≡ into.old ++ values_text row.now) }
    ensures err { OnErr result (GoesOn into.old into.new) }
{
    let Some((first, rest)) = row.split_first() else {
        return Ok(());
    };
    print_value(Some(first), into)?;
    for value in rest {
        into.push(b'\t')?;
        print_value(Some(value), into)?;
    }
    Ok(())
}

fn print_line(items: &[Item], row: &Row, into: &mut Bytes) -> Result<(), AllocError>
    ensures ok { OnOk result (into.new ≡ into.old ++ line_of (projected items.now row.now)) }
    ensures err { OnErr result (GoesOn into.old into.new) }
{
    print_values(items, row.as_slice(), into)?;
    into.push(b'\n')
}

// The values of these items, parted by tabs.
fn print_values(items: &[Item], row: &[Value], into: &mut Bytes) -> Result<(), AllocError>
    ensures ok { OnOk result (into.new ≡ into.old ++ values_text (projected items.now row.now)) }
    ensures err { OnErr result (GoesOn into.old into.new) }
{
    let Some((first, rest)) = items.split_first() else {
        return Ok(());
    };
    print_item(first, row, into)?;
    for item in rest {
        into.push(b'\t')?;
        print_item(item, row, into)?;
    }
    Ok(())
}

// The value of an item.
fn print_item(item: &Item, row: &[Value], into: &mut Bytes) -> Result<(), AllocError>
    ensures ok { OnOk result (into.new ≡ into.old ++ value_text (item_value row.now item.now)) }
    ensures err { OnErr result (GoesOn into.old into.new) }
{
    match item {
        Item::Column(column) => print_value(row.get(*column as usize), into),
        _ => print_value(None, into),
    }
}

// A value, or NULL where there is none.
fn print_value(value: Option<&Value>, into: &mut Bytes) -> Result<(), AllocError>
    ensures ok { OnOk result (into.new ≡ into.old ++ value_text (unwrap_or (option_copied value.entry) Null)) }
    ensures err { OnErr result (GoesOn into.old into.new) }
{
    match value {
        None | Some(Value::Null) => into.append(b"\\N"),
        Some(Value::Int(n)) => into.append(Buffer::new().format(*n).as_bytes()),
        Some(Value::Text(text)) => print_text(text.as_slice(), into),
    }
}

fn print_text(text: &[u8], into: &mut Bytes) -> Result<(), AllocError>
    ensures ok { OnOk result (into.new ≡ into.old ++ flat_map escaped text.now) }
    ensures err { OnErr result (GoesOn into.old into.new) }
{
    for byte in text {
        print_byte(*byte, into)?;
    }
    Ok(())
}

fn print_byte(byte: u8, into: &mut Bytes) -> Result<(), AllocError>
    ensures ok { OnOk result (into.new ≡ into.old ++ escaped byte) }
    ensures err { OnErr result (into.new ≡ into.old) }
{
    match byte {
        0 => into.append(b"\\0"),
        b'\t' => into.append(b"\\t"),
        b'\n' => into.append(b"\\n"),
        b'\r' => into.append(b"\\r"),
        b'\\' => into.append(b"\\\\"),
        _ => into.push(byte),
    }
}
