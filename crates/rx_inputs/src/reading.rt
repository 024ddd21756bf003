ghost use Rattle.std.specs.Prelude.{◌≡◌, ◌≤◌, IsTrue, IfOk, IfErr, All, length, map};
ghost use Rattle.rx_value.specs.Limits.{most_columns, most_rows};
ghost use Rattle.rx_value.specs.Shape.{IsSchema, FitsRow};
ghost use Rattle.rx_outside.specs.Files.{KeepsFiles, TakesUpTo, most_taken};
ghost use Rattle.rx_index.specs.Entries.{IsEntered, IsInIdOrder};
ghost use Rattle.rx_stats.specs.Statistics.{IsStatistics};
ghost use Rattle.rx_load.specs.Numbers.{statistics_of};
ghost use Rattle.rx_query.specs.Steps.{step_of};
ghost use Rattle.rx_query.specs.Questions.{IsStep};
ghost use Rattle.rx_spelled.specs.Utf8.{StepAsksUtf8};
ghost use Rattle.rx_store.specs.Stored.{IsStorable};
ghost use Rattle.rx_words.specs.Words.{files_of};
ghost use Rattle.rx_inputs.specs.Refusals.{limit_of};
ghost use Rattle.rx_inputs.specs.Checked.{text_of_file, AcceptsAs};
ghost use Rattle.rx_inputs.specs.Files.{schema_of_file, rows_of_file, table_of_rows, table_of_file, statistics_of_file, statistics_by, steps_of_file, rest_by, contents_by, held_by};
ghost use Rattle.rx_inputs.specs.Reads.{name_given, statistics_files, files_read, files_behind, files_after, AreSure, most_bytes};
ghost use Rattle.rx_inputs.specs.Faults.{StopsReading, held};
ghost use Rattle.rx_inputs.specs.declared.inputs.Input.TheVariants as of_input;

use crate::inputs::Input;
use crate::lines::{
    data_line, duplicate_line, names_of, schema_line, statistics_line, too_long_line,
};
use crate::script_lines::script_line;
use rx_data::DataFault;
use rx_index::{IndexFault, Indexed};
use rx_load::{load, statistics};
use rx_outside::{FileFault, Files, read_whole};
use rx_query::Script;
use rx_schema::SchemaFault;
use rx_statement::ScriptFault;
use rx_stats::Statistics;
use rx_stats_file::{StatsFault, read_stats};
use rx_value::{Bytes, RowList, Schema};
use rx_words::SelectWords;
use std::alloc::{AllocError, Global};

/// What the files of a command hold: a table with its entries, its statistics, and the script.
#[derive(Drop)]
pub struct Inputs {
    pub table: Indexed,
    pub statistics: Statistics,
    pub script: Script,
}

/// Why the files of a command were not read to inputs.
#[derive(Drop)]
pub enum InputFault {
    /// A read failed.
    ReadFault,
    /// An input was refused, with the line that says so.
    Refused { line: Bytes },
    /// There was no memory.
    NoMemory,
}

impl From<AllocError> for InputFault {
    ghost use Rattle.rx_inputs.specs.declared.reading.InputFault.TheVariants.{NoMemory};

    ghost from_gives = { λ _ fault. fault ≡ NoMemory };

    fn from(_refused: AllocError) -> InputFault {
        InputFault::NoMemory
    }
}

/// Reads and checks the files of a command, one after the other: schema, data with its indexes, statistics where they are named,
/// script. The first refusal ends it before the next file is read.
///
/// - `ReadFault`: a read failed, and the count of faults of `files` rose.
/// - `Refused`: the line of the first refusal.
/// - `NoMemory`: there was no memory.
pub fn read_inputs<F: Files>(
    alloc: Global,
    files: &mut F,
    names: &SelectWords<'_>,
) -> Result<Inputs, InputFault>
    ensures accepted { IfOk result (λ i. AcceptsAs (held_by (F.told files.old) (files_of names.now)) (held i)) }
    ensures storable { IfOk result (λ i. IsStorable i.table i.statistics) }
    ensures by_id { IfOk result (λ i. IsInIdOrder i.table.schema.indexes i.table.rows i.table.rows) }
    ensures asks { IfOk result (λ i. All (λ numbered. IsStep i.table.schema (step_of numbered)) i.script) }
    ensures spelled { IfOk result (λ i. All (λ numbered. StepAsksUtf8 (step_of numbered)) i.script) }
    ensures stopped { IfErr result (StopsReading (held_by (F.told files.old) (files_of names.now)) (F.faults files.old) (F.faults files.new)) }
    ensures later { F.faults files.old ≤ F.faults files.new }
    ensures sure { AreSure (F.sure files.old) (files_read (F.told files.old) (files_of names.now)) → F.faults files.new ≡ F.faults files.old }
    ensures taken { TakesUpTo (most_bytes (F.told files.old) (files_read (F.told files.old) (files_of names.now))) (F.taken files.old) (F.taken files.new) }
    ensures keeps { KeepsFiles F.told F.sure F.room files.old files.new }
{
    let schema = read_schema(alloc, files, names.schema)?;
    read_contents(alloc, files, schema, names)
}

// Reads and checks the files behind the schema.
fn read_contents<F: Files>(
    alloc: Global,
    files: &mut F,
    schema: Schema,
    names: &SelectWords<'_>,
) -> Result<Inputs, InputFault>
    requires { IsSchema schema }
    ensures accepted { IfOk result (λ i. AcceptsAs (contents_by (F.told files.old) (files_of names.now) schema) (held i)) }
    ensures storable { IfOk result (λ i. IsStorable i.table i.statistics) }
    ensures by_id { IfOk result (λ i. IsInIdOrder i.table.schema.indexes i.table.rows i.table.rows) }
    ensures asks { IfOk result (λ i. All (λ numbered. IsStep i.table.schema (step_of numbered)) i.script) }
    ensures spelled { IfOk result (λ i. All (λ numbered. StepAsksUtf8 (step_of numbered)) i.script) }
    ensures stopped { IfErr result (StopsReading (contents_by (F.told files.old) (files_of names.now) schema) (F.faults files.old) (F.faults files.new)) }
    ensures later { F.faults files.old ≤ F.faults files.new }
    ensures sure { AreSure (F.sure files.old) (files_behind (F.told files.old) (files_of names.now) schema) → F.faults files.new ≡ F.faults files.old }
    ensures taken { TakesUpTo (most_bytes (F.told files.old) (files_behind (F.told files.old) (files_of names.now) schema)) (F.taken files.old) (F.taken files.new) }
    ensures keeps { KeepsFiles F.told F.sure F.room files.old files.new }
{
    let table = read_table(alloc, files, schema, names.data)?;
    read_rest(alloc, files, table, names)
}

// Reads and checks the files behind the data.
fn read_rest<F: Files>(
    alloc: Global,
    files: &mut F,
    table: Indexed,
    names: &SelectWords<'_>,
) -> Result<Inputs, InputFault>
    requires limits { IsSchema table.schema }
    requires entered { IsEntered table }
    requires fit { All (FitsRow table.schema) table.rows }
    requires by_id { IsInIdOrder table.schema.indexes table.rows table.rows }
    ensures accepted { IfOk result (λ i. AcceptsAs (rest_by (F.told files.old) (files_of names.now) table) (held i)) }
    ensures storable { IfOk result (λ i. IsStorable i.table i.statistics) }
    ensures by_id { IfOk result (λ i. IsInIdOrder i.table.schema.indexes i.table.rows i.table.rows) }
    ensures asks { IfOk result (λ i. All (λ numbered. IsStep i.table.schema (step_of numbered)) i.script) }
    ensures spelled { IfOk result (λ i. All (λ numbered. StepAsksUtf8 (step_of numbered)) i.script) }
    ensures stopped { IfErr result (StopsReading (rest_by (F.told files.old) (files_of names.now) table) (F.faults files.old) (F.faults files.new)) }
    ensures later { F.faults files.old ≤ F.faults files.new }
    ensures sure { AreSure (F.sure files.old) (files_after (F.told files.old) (files_of names.now) table) → F.faults files.new ≡ F.faults files.old }
    ensures taken { TakesUpTo (most_bytes (F.told files.old) (files_after (F.told files.old) (files_of names.now) table)) (F.taken files.old) (F.taken files.new) }
    ensures keeps { KeepsFiles F.told F.sure F.room files.old files.new }
{
    let statistics = statistics_by(alloc, files, &table, names.statistics)?;
    let script = read_script(alloc, files, &table.schema, names.script)?;
    Ok(Inputs {
        table,
        statistics,
        script,
    })
}

fn read_schema<F: Files>(alloc: Global, files: &mut F, name: &str) -> Result<Schema, InputFault>
    ensures accepted { IfOk result (AcceptsAs (schema_of_file (F.told files.old name.now))) }
    ensures fits { IfOk result IsSchema }
    ensures stopped { IfErr result (StopsReading (schema_of_file (F.told files.old name.now)) (F.faults files.old) (F.faults files.new)) }
    ensures later { F.faults files.old ≤ F.faults files.new }
    ensures sure { IsTrue (F.sure files.old name.now) → F.faults files.new ≡ F.faults files.old }
    ensures taken { TakesUpTo (most_taken (F.told files.old name.now) (limit_of of_input.Schema)) (F.taken files.old) (F.taken files.new) }
    ensures keeps { KeepsFiles F.told F.sure F.room files.old files.new }
{
    let text = read_text(alloc, files, name, Input::Schema)?;
    match rx_schema::read_schema(alloc, text.as_slice()) {
        Ok(schema) => Ok(schema),
        Err(SchemaFault::NoMemory) => Err(InputFault::NoMemory),
        Err(fault) => {
            let line = schema_line(alloc, &fault)?;
            Err(InputFault::Refused { line })
        }
    }
}

fn read_rows<F: Files>(
    alloc: Global,
    files: &mut F,
    schema: &Schema,
    name: &str,
) -> Result<RowList, InputFault>
    requires { IsSchema schema.now }
    ensures accepted { IfOk result (AcceptsAs (rows_of_file schema.now (F.told files.old name.now))) }
    ensures fits { IfOk result (λ rows. All (FitsRow schema.now) rows) }
    ensures few { IfOk result (λ rows. length rows ≤ most_rows) }
    ensures stopped { IfErr result (StopsReading (rows_of_file schema.now (F.told files.old name.now)) (F.faults files.old) (F.faults files.new)) }
    ensures later { F.faults files.old ≤ F.faults files.new }
    ensures sure { IsTrue (F.sure files.old name.now) → F.faults files.new ≡ F.faults files.old }
    ensures taken { TakesUpTo (most_taken (F.told files.old name.now) (limit_of of_input.Data)) (F.taken files.old) (F.taken files.new) }
    ensures keeps { KeepsFiles F.told F.sure F.room files.old files.new }
{
    let text = read_text(alloc, files, name, Input::Data)?;
    match rx_data::read_rows(alloc, text.as_slice(), schema) {
        Ok(rows) => Ok(rows),
        Err(DataFault::NoMemory) => Err(InputFault::NoMemory),
        Err(fault) => {
            let line = data_line(alloc, schema.columns.as_slice(), &fault)?;
            Err(InputFault::Refused { line })
        }
    }
}

// The table of rows.
fn table_of_rows(alloc: Global, schema: Schema, rows: RowList) -> Result<Indexed, InputFault>
    requires limits { IsSchema schema }
    requires few { length rows ≤ most_rows }
    requires fit { All (FitsRow schema) rows }
    ensures accepted { IfOk result (AcceptsAs (table_of_rows schema rows)) }
    ensures limits { IfOk result (λ t. IsSchema t.schema) }
    ensures entered { IfOk result IsEntered }
    ensures fit { IfOk result (λ t. All (FitsRow t.schema) t.rows) }
    ensures by_id { IfOk result (λ t. IsInIdOrder t.schema.indexes t.rows t.rows) }
    ensures stopped { IfErr result (StopsReading (table_of_rows schema rows) 0 0) }
{
    let names = names_of(alloc, schema.indexes.as_slice())?;
    match load(alloc, schema, rows) {
        Ok(table) => Ok(table),
        Err(IndexFault::NoMemory) => Err(InputFault::NoMemory),
        Err(IndexFault::DuplicateKey { index, row }) => {
            let line = duplicate_line(alloc, names.as_slice(), index, row)?;
            Err(InputFault::Refused { line })
        }
    }
}

// Reads the data, and makes the table of its rows.
fn read_table<F: Files>(
    alloc: Global,
    files: &mut F,
    schema: Schema,
    name: &str,
) -> Result<Indexed, InputFault>
    requires { IsSchema schema }
    ensures accepted { IfOk result (AcceptsAs (table_of_file schema (F.told files.old name.now))) }
    ensures limits { IfOk result (λ t. IsSchema t.schema) }
    ensures entered { IfOk result IsEntered }
    ensures fit { IfOk result (λ t. All (FitsRow t.schema) t.rows) }
    ensures by_id { IfOk result (λ t. IsInIdOrder t.schema.indexes t.rows t.rows) }
    ensures stopped { IfErr result (StopsReading (table_of_file schema (F.told files.old name.now)) (F.faults files.old) (F.faults files.new)) }
    ensures later { F.faults files.old ≤ F.faults files.new }
    ensures sure { IsTrue (F.sure files.old name.now) → F.faults files.new ≡ F.faults files.old }
    ensures taken { TakesUpTo (most_taken (F.told files.old name.now) (limit_of of_input.Data)) (F.taken files.old) (F.taken files.new) }
    ensures keeps { KeepsFiles F.told F.sure F.room files.old files.new }
{
    let rows = read_rows(alloc, files, &schema, name)?;
    table_of_rows(alloc, schema, rows)
}

// The statistics of a table: its own, with those of a file in their place where one is named.
fn statistics_by<F: Files>(
    alloc: Global,
    files: &mut F,
    table: &Indexed,
    name: Option<&str>,
) -> Result<Statistics, InputFault>
    requires limits { IsSchema table.now.schema }
    requires entered { IsEntered table.now }
    ensures accepted { IfOk result (AcceptsAs (statistics_by (F.told files.old) (name_given name.entry) table.now)) }
    ensures suits { IfOk result (IsStatistics table.now.schema) }
    ensures stopped { IfErr result (StopsReading (statistics_by (F.told files.old) (name_given name.entry) table.now) (F.faults files.old) (F.faults files.new)) }
    ensures later { F.faults files.old ≤ F.faults files.new }
    ensures sure { AreSure (F.sure files.old) (statistics_files (name_given name.entry)) → F.faults files.new ≡ F.faults files.old }
    ensures taken { TakesUpTo (most_bytes (F.told files.old) (statistics_files (name_given name.entry))) (F.taken files.old) (F.taken files.new) }
    ensures keeps { KeepsFiles F.told F.sure F.room files.old files.new }
{
    let base = statistics(alloc, table)?;
    match name {
        None => Ok(base),
        Some(name) => read_statistics(alloc, files, table, base, name),
    }
}

fn read_statistics<F: Files>(
    alloc: Global,
    files: &mut F,
    table: &Indexed,
    base: Statistics,
    name: &str,
) -> Result<Statistics, InputFault>
    requires limits { IsSchema table.now.schema }
    requires suits { IsStatistics table.now.schema base }
    requires own { base ≡ statistics_of table.now }
    ensures accepted { IfOk result (AcceptsAs (statistics_of_file table.now (F.told files.old name.now))) }
    ensures suits { IfOk result (IsStatistics table.now.schema) }
    ensures stopped { IfErr result (StopsReading (statistics_of_file table.now (F.told files.old name.now)) (F.faults files.old) (F.faults files.new)) }
    ensures later { F.faults files.old ≤ F.faults files.new }
    ensures sure { IsTrue (F.sure files.old name.now) → F.faults files.new ≡ F.faults files.old }
    ensures taken { TakesUpTo (most_taken (F.told files.old name.now) (limit_of of_input.Statistics)) (F.taken files.old) (F.taken files.new) }
    ensures keeps { KeepsFiles F.told F.sure F.room files.old files.new }
{
    let text = read_text(alloc, files, name, Input::Statistics)?;
    match read_stats(alloc, text.as_slice(), &table.schema, base) {
        Ok(statistics) => Ok(statistics),
        Err(StatsFault::NoMemory) => Err(InputFault::NoMemory),
        Err(StatsFault::BadStats { field }) => {
            let line = statistics_line(alloc, field.as_slice())?;
            Err(InputFault::Refused { line })
        }
    }
}

fn read_script<F: Files>(
    alloc: Global,
    files: &mut F,
    schema: &Schema,
    name: &str,
) -> Result<Script, InputFault>
    requires { length schema.now.columns ≤ most_columns }
    ensures accepted { IfOk result (λ s. AcceptsAs (steps_of_file schema.now (F.told files.old name.now)) (map step_of s)) }
    ensures asks { IfOk result (All (λ numbered. IsStep schema.now (step_of numbered))) }
    ensures spelled { IfOk result (All (λ numbered. StepAsksUtf8 (step_of numbered))) }
    ensures stopped { IfErr result (StopsReading (steps_of_file schema.now (F.told files.old name.now)) (F.faults files.old) (F.faults files.new)) }
    ensures later { F.faults files.old ≤ F.faults files.new }
    ensures sure { IsTrue (F.sure files.old name.now) → F.faults files.new ≡ F.faults files.old }
    ensures taken { TakesUpTo (most_taken (F.told files.old name.now) (limit_of of_input.Script)) (F.taken files.old) (F.taken files.new) }
    ensures keeps { KeepsFiles F.told F.sure F.room files.old files.new }
{
    let text = read_text(alloc, files, name, Input::Script)?;
    match rx_statement::read_script(alloc, text.as_slice(), schema) {
        Ok(script) => Ok(script),
        Err(ScriptFault::NoMemory) => Err(InputFault::NoMemory),
        Err(fault) => {
            let line = script_line(alloc, &fault)?;
            Err(InputFault::Refused { line })
        }
    }
}

// The text of a file within its limit.
fn read_text<F: Files>(
    alloc: Global,
    files: &mut F,
    name: &str,
    input: Input,
) -> Result<Bytes, InputFault>
    ensures accepted { IfOk result (AcceptsAs (text_of_file input (F.told files.old name.now))) }
    ensures stopped { IfErr result (StopsReading (text_of_file input (F.told files.old name.now)) (F.faults files.old) (F.faults files.new)) }
    ensures later { F.faults files.old ≤ F.faults files.new }
    ensures sure { IsTrue (F.sure files.old name.now) → F.faults files.new ≡ F.faults files.old }
    ensures taken { TakesUpTo (most_taken (F.told files.old name.now) (limit_of input)) (F.taken files.old) (F.taken files.new) }
    ensures keeps { KeepsFiles F.told F.sure F.room files.old files.new }
{
    match read_whole(alloc, files, name, input.limit()) {
        Ok(text) => Ok(text),
        Err(FileFault::ReadFault) => Err(InputFault::ReadFault),
        Err(FileFault::TooLong { length: _ }) => {
            let line = Bytes::of(alloc, too_long_line(input))?;
            Err(InputFault::Refused { line })
        }
        Err(FileFault::NoMemory) => Err(InputFault::NoMemory),
    }
}
