ghost use Rattle.std.specs.Prelude.{◌≡◌, IfOk, map};
ghost use Rattle.std.specs.Fmt.{decimal};
ghost use Rattle.rx_inputs.specs.Refusals.{words, too_long, line_of_refusal, which_text, many_text, column_name, named_line, field_line, name_at, duplicate_line, statistics_front, schema_line, data_line};

use crate::inputs::Input;
use itoa::Buffer;
use rx_data::DataFault;
use rx_schema::{Many, SchemaFault, Which};
use rx_value::{Bytes, Column, Index, NameList};
use std::alloc::{AllocError, Global};

/// The line of words that are no command.
pub fn words_line() -> &'static [u8]
    ensures { result.now ≡ line_of_refusal words }
{
    b"refused: words\n"
}

/// The line of a file past its limit.
pub(crate) fn too_long_line(input: Input) -> &'static [u8]
    ensures { result.now ≡ line_of_refusal (too_long input) }
{
    match input {
        Input::Schema => b"refused: schema: too long\n",
        Input::Data => b"refused: data: too long\n",
        Input::Statistics => b"refused: statistics: too long\n",
        Input::Script => b"refused: script: too long\n",
    }
}

// How a refusal calls what is outside the profile.
fn which_text(which: Which) -> &'static [u8]
    ensures { result.now ≡ which_text which }
{
    match which {
        Which::ColumnType => b"column type",
        Which::Length => b"length",
        Which::Zerofill => b"zerofill",
        Which::Collation => b"collation",
        Which::CharacterSet => b"character set",
        Which::KeyKind => b"key kind",
        Which::Prefix => b"prefix",
    }
}

// How a refusal calls what there is too much of.
fn many_text(many: Many) -> &'static [u8]
    ensures { result.now ≡ many_text many }
{
    match many {
        Many::Columns => b"columns",
        Many::Indexes => b"indexes",
        Many::Parts => b"parts",
    }
}

/// A front, a name, and the end of the line. The error is want of memory.
fn named_line(alloc: Global, front: &[u8], name: &[u8]) -> Result<Bytes, AllocError>
    ensures { IfOk result (λ line. line ≡ named_line front.now name.now) }
{
    let mut line = Bytes::of(alloc, front)?;
    line.append(name)?;
    line.push(b'\n')?;
    Ok(line)
}

/// A front, a row, the name of a column, and the end of the line. The error is want of memory.
fn field_line(alloc: Global, front: &[u8], row: u64, name: &[u8]) -> Result<Bytes, AllocError>
    ensures { IfOk result (λ line. line ≡ field_line front.now row name.now) }
{
    let mut line = Bytes::of(alloc, front)?;
    line.append(Buffer::new().format(row).as_bytes())?;
    line.append(b" column ")?;
    line.append(name)?;
    line.push(b'\n')?;
    Ok(line)
}

/// The name of a column by its number from 0.
fn column_name(columns: &[Column], number: u32) -> &[u8]
    ensures { result.now ≡ column_name columns.now number }
{
    match columns.get(number as usize) {
        Some(column) => column.name.as_slice(),
        None => b"",
    }
}

/// The line of a refused schema. The error is want of memory.
pub(crate) fn schema_line(alloc: Global, fault: &SchemaFault) -> Result<Bytes, AllocError>
    ensures { IfOk result (λ line. line ≡ schema_line fault.now) }
{
    match fault {
        SchemaFault::NotInGrammar => Bytes::of(alloc, b"refused: schema: not in grammar\n"),
        SchemaFault::NotInProfile { which } => named_line(
            alloc,
            b"refused: schema: not in profile: ",
            which_text(*which),
        ),
        SchemaFault::TooMany { which } => {
            named_line(alloc, b"refused: schema: too many: ", many_text(*which))
        }
        SchemaFault::Duplicate { name } => {
            named_line(alloc, b"refused: schema: duplicate: ", name.as_slice())
        }
        SchemaFault::UnknownColumn { name } => {
            named_line(alloc, b"refused: schema: unknown column: ", name.as_slice())
        }
        SchemaFault::NoMemory => Bytes::of(alloc, b"out of memory\n"),
    }
}

/// The line of refused data over these columns. The error is want of memory.
pub(crate) fn data_line(
    alloc: Global,
    columns: &[Column],
    fault: &DataFault,
) -> Result<Bytes, AllocError>
    ensures { IfOk result (λ line. line ≡ data_line columns.now fault.now) }
{
    match fault {
        DataFault::NotCsv { quotes: _ } => Bytes::of(alloc, b"refused: data: not csv\n"),
        DataFault::HeaderMismatch => Bytes::of(alloc, b"refused: data: header mismatch\n"),
        DataFault::FieldCount { row } => named_line(
            alloc,
            b"refused: data: field count: row ",
            Buffer::new().format(*row).as_bytes(),
        ),
        DataFault::BadValue { row, column } => field_line(
            alloc,
            b"refused: data: bad value: row ",
            *row,
            column_name(columns, *column),
        ),
        DataFault::NullNotAllowed { row, column } => field_line(
            alloc,
            b"refused: data: null not allowed: row ",
            *row,
            column_name(columns, *column),
        ),
        DataFault::TooManyRows => Bytes::of(alloc, b"refused: data: too many rows\n"),
        DataFault::NoMemory => Bytes::of(alloc, b"out of memory\n"),
    }
}

/// The names of indexes. The error is want of memory.
pub(crate) fn names_of(alloc: Global, indexes: &[Index]) -> Result<NameList, AllocError>
    ensures { IfOk result (λ names. names ≡ map (λ index. index.name) indexes.now) }
{
    let mut names = NameList::with_capacity(alloc, indexes.len())?;
    for index in indexes {
        names.push(Bytes::of(alloc, index.name.as_slice())?)?;
    }
    Ok(names)
}

// A name by its number from 0.
fn name_at(names: &[Bytes], number: u32) -> &[u8]
    ensures { result.now ≡ name_at names.now number }
{
    match names.get(number as usize) {
        Some(name) => name.as_slice(),
        None => b"",
    }
}

/// The line of data in which a row, counted from 1, repeats a key of a unique index. The error is want of memory.
pub(crate) fn duplicate_line(
    alloc: Global,
    names: &[Bytes],
    index: u32,
    row: u64,
) -> Result<Bytes, AllocError>
    ensures { IfOk result (λ line. line ≡ duplicate_line (name_at names.now index) row) }
{
    let mut line = Bytes::of(alloc, b"refused: data: duplicate key: index ")?;
    line.append(name_at(names, index))?;
    line.append(b" row ")?;
    line.append(Buffer::new().format(row).as_bytes())?;
    line.push(b'\n')?;
    Ok(line)
}

/// The line of refused statistics. The error is want of memory.
pub(crate) fn statistics_line(alloc: Global, field: &[u8]) -> Result<Bytes, AllocError>
    ensures { IfOk result (λ line. line ≡ named_line statistics_front field.now) }
{
    named_line(alloc, b"refused: statistics: ", field)
}
