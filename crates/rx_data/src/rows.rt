ghost use Rattle.std.specs.Prelude.{◌≡◌, ◌==◌, ◌%◌, ◌≤◌, All, length, IfOk};
ghost use Rattle.csv.specs.Records.{fields_of};
ghost use Rattle.rx_value.specs.Limits.{most_columns, most_rows};
ghost use Rattle.rx_value.specs.Shape.{IsColType, IsSchema, FitsRow};
ghost use Rattle.rx_data.specs.Outcomes.{Answers, all_of};
ghost use Rattle.rx_data.specs.Records.{records_of, records_left, IsPlain};
ghost use Rattle.rx_data.specs.Rows.{is_header, row_outcome, row_outcomes, rows_under, quotes_in, data_rows};

use crate::faults::DataFault;
use crate::fields::field_value;
use crate::records::{reader_of, take_record};
use csv::{ByteRecord, Reader};
use rx_value::{Column, MOST_ROWS, Row, RowList, Schema, same_name};
use std::alloc::Global;

fn quotes_in(text: &[u8]) -> u64
    ensures { result ≡ quotes_in text.now }
{
    text.iter().filter(|b| **b == b'"').count() as u64
}

/// Whether a record is the names of the columns in order.
fn is_header(columns: &[Column], header: &ByteRecord) -> bool
    ensures { result ≡ is_header columns.now (fields_of header.now) }
{
    if header.len() != columns.len() {
        return false;
    }
    for (i, column) in columns.iter().enumerate() {
        let Some(field) = header.get(i) else {
            return false;
        };
        if !same_name(field, column.name.as_slice()) {
            return false;
        }
    }
    true
}

/// The row of a record, with its number from 1.
fn record_row(
    alloc: Global,
    columns: &[Column],
    row: u64,
    fields: &ByteRecord,
) -> Result<Row, DataFault>
    requires types { All (λ column. IsColType column.kind) columns.now }
    requires few { length columns.now ≤ most_columns }
    ensures { Answers (row_outcome columns.now row (fields_of fields.now)) result }
{
    if fields.len() != columns.len() {
        return Err(DataFault::FieldCount { row });
    }
    let mut values = Row::with_capacity(alloc, columns.len())?;
    for (i, column) in columns.iter().enumerate() {
        let Some(field) = fields.get(i) else {
            return Err(DataFault::FieldCount { row });
        };
        match field_value(alloc, row, i as u32, column, field) {
            Ok(value) => values.push(value)?,
            Err(fault) => return Err(fault),
        }
    }
    Ok(values)
}

/// The rows of the records that a reader has left.
fn all_rows(
    alloc: Global,
    columns: &[Column],
    reader: &mut Reader<&[u8]>,
) -> Result<RowList, DataFault>
    requires plain { IsPlain reader.old }
    requires types { All (λ column. IsColType column.kind) columns.now }
    requires few { length columns.now ≤ most_columns }
    ensures { Answers (all_of (row_outcomes columns.now 1 (records_left reader.old))) result }
{
    let mut record = ByteRecord::new(alloc);
    let mut rows = RowList::new(alloc);
    for i in 0..MOST_ROWS as u64 {
        if !take_record(reader, &mut record)? {
            return Ok(rows);
        }
        match record_row(alloc, columns, i + 1, &record) {
            Ok(row) => rows.push(row)?,
            Err(fault) => return Err(fault),
        }
    }
    if take_record(reader, &mut record)? {
        return Err(DataFault::TooManyRows);
    }
    Ok(rows)
}

/// The rows under a header, which is the first record.
fn rows_under(alloc: Global, columns: &[Column], text: &[u8]) -> Result<RowList, DataFault>
    requires types { All (λ column. IsColType column.kind) columns.now }
    requires few { length columns.now ≤ most_columns }
    ensures { Answers (rows_under columns.now (records_of text.now)) result }
{
    let mut reader = reader_of(alloc, text);
    let mut header = ByteRecord::new(alloc);
    if !take_record(&mut reader, &mut header)? {
        return Err(DataFault::HeaderMismatch);
    }
    if !is_header(columns, &header) {
        return Err(DataFault::HeaderMismatch);
    }
    all_rows(alloc, columns, &mut reader)
}

/// The rows of a text in CSV: a record with the names of the columns in order, without case, and then
/// a record per row. A byte order mark at the start is passed over. `\N` is NULL, an integer is decimal
/// digits, with `-` before them where it is below zero, and a text is UTF-8.
///
/// The first refusal comes by rows and then from the left:
///
/// - `NotCsv`: the text has an odd number of quotes. This is tested before all else.
/// - `HeaderMismatch`: the first record isn't the header, or there is none.
/// - `TooManyRows`: a row after the millionth.
/// - `FieldCount`: a row has more or fewer fields than there are columns.
/// - `NullNotAllowed`: NULL stands in a column that can't be NULL.
/// - `BadValue`: any other field that is no value of its column.
/// - `NoMemory`: there was no memory for the rows.
pub fn read_rows(alloc: Global, text: &[u8], schema: &Schema) -> Result<RowList, DataFault>
    requires { IsSchema schema.now }
    ensures exact { Answers (data_rows schema.now text.now) result }
    ensures fits { IfOk result (λ rows. All (FitsRow schema.now) rows) }
    ensures few { IfOk result (λ rows. length rows ≤ most_rows) }
{
    let quotes = quotes_in(text);
    if quotes % 2 == 1 {
        return Err(DataFault::NotCsv { quotes });
    }
    rows_under(alloc, schema.columns.as_slice(), text)
}
