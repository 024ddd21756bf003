ghost use Rattle.std.specs.Prelude.{◌≡◌, ◌++◌, ◌∷◌, [], ℕ, List, Ok, map, slice_get, IfOk, OnOk};
ghost use Rattle.rx_value.specs.declared.shapes.Schema.{Schema as schema};
ghost use Rattle.rx_ddl.specs.declared.statements.CreateDefinition.TheVariants as of;
ghost use Rattle.rx_schema.specs.Schema.{read_of};
ghost use Rattle.rx_schema.specs.Tables.{IsDeclarable};
ghost use Rattle.rx_schema.specs.Writing.{size_word, kind_word, kind_arguments, sign_marks, null_marks, column_definition, name_of, part_definition, key_kind, key_definition, definitions_of, statement_of, text_of};

use rx_ddl::{
    Argument, ArgumentList, Attribute, AttributeList, ColumnDefinition, CreateDefinition,
    CreateTable, DefinitionList, KeyDefinition, KeyKind, KeyPart, KeyPartList, MethodList,
    OptionList, write_create,
};
use rx_value::{Bytes, ColType, Column, Index, Part, Schema};
use std::alloc::{AllocError, Global};

/// The word of an integer type by its bits.
#[tactic(auto, unfolding(crate::specs::Writing::size_word))]
fn size_word(bits: u32) -> &'static [u8]
    ensures { result.now ≡ size_word bits }
{
    if bits == 8 {
        b"tinyint"
    } else if bits == 16 {
        b"smallint"
    } else if bits == 24 {
        b"mediumint"
    } else if bits == 32 {
        b"int"
    } else {
        b"bigint"
    }
}

fn kind_word(kind: ColType) -> &'static [u8]
    ensures { result.now ≡ kind_word kind }
{
    match kind {
        ColType::Whole { bits, signed: _ } => size_word(bits),
        ColType::VarChar { chars: _ } => b"varchar",
    }
}

fn kind_arguments(alloc: Global, kind: ColType) -> Result<ArgumentList, AllocError>
    ensures { IfOk result (λ list. list ≡ kind_arguments kind) }
{
    let mut list = ArgumentList::new(alloc);
    match kind {
        ColType::Whole { bits: _, signed: _ } => {}
        ColType::VarChar { chars } => list.push(Argument::Number(chars as u128))?,
    }
    Ok(list)
}

fn marks(alloc: Global, kind: ColType, nullable: bool) -> Result<AttributeList, AllocError>
    ensures { IfOk result (λ list. list ≡ sign_marks kind ++ null_marks nullable) }
{
    let mut list = AttributeList::new(alloc);
    if let ColType::Whole {
        bits: _,
        signed: false,
    } = kind
    {
        list.push(Attribute::Unsigned)?;
    }
    if !nullable {
        list.push(Attribute::NotNull)?;
    }
    Ok(list)
}

#[tactic(auto, unfolding(crate::specs::Writing::column_definition))]
fn column_definition(alloc: Global, column: &Column) -> Result<ColumnDefinition, AllocError>
    ensures { IfOk result (λ c. c ≡ column_definition column.now) }
{
    Ok(ColumnDefinition {
        name: Bytes::of(alloc, column.name.as_slice())?,
        kind: Bytes::of(alloc, kind_word(column.kind))?,
        arguments: kind_arguments(alloc, column.kind)?,
        attributes: marks(alloc, column.kind, column.nullable)?,
    })
}

fn column_name(columns: &[Column], number: u32) -> &[u8]
    ensures { result.now ≡ name_of (slice_get columns.now number) }
{
    match columns.get(number as usize) {
        Some(column) => column.name.as_slice(),
        None => b"",
    }
}

fn part_definition(alloc: Global, columns: &[Column], part: &Part) -> Result<KeyPart, AllocError>
    ensures { IfOk result (λ p. p ≡ part_definition columns.now part.now) }
{
    Ok(KeyPart {
        column: Bytes::of(alloc, column_name(columns, part.column))?,
        prefix: part.chars.map(|count| count as u128),
        descending: part.descending,
    })
}

fn part_definitions(
    alloc: Global,
    columns: &[Column],
    parts: &[Part],
) -> Result<KeyPartList, AllocError>
    ensures { IfOk result (λ list. list ≡ map (part_definition columns.now) parts.now) }
{
    let mut list = KeyPartList::new(alloc);
    for part in parts {
        list.push(part_definition(alloc, columns, part)?)?;
    }
    Ok(list)
}

fn key_kind(primary: bool, unique: bool) -> KeyKind
    ensures { result ≡ key_kind primary unique }
{
    match (primary, unique) {
        (true, _) => KeyKind::Primary,
        (false, true) => KeyKind::Unique,
        (false, false) => KeyKind::Plain,
    }
}

#[tactic(auto, unfolding(crate::specs::Writing::key_definition))]
fn key_definition(
    alloc: Global,
    columns: &[Column],
    index: &Index,
) -> Result<KeyDefinition, AllocError>
    ensures { IfOk result (λ key. key ≡ key_definition columns.now index.now) }
{
    Ok(KeyDefinition {
        kind: key_kind(index.primary, index.unique),
        name: Bytes::of(alloc, index.name.as_slice())?,
        parts: part_definitions(alloc, columns, index.parts.as_slice())?,
        methods: MethodList::new(alloc),
    })
}

fn push_columns(
    alloc: Global,
    columns: &[Column],
    list: &mut DefinitionList,
) -> Result<(), AllocError>
    ensures { OnOk result (list.new ≡ list.old ++ map (λ c. of.Column (column_definition c)) columns.now) }
{
    for column in columns {
        list.push(CreateDefinition::Column(column_definition(alloc, column)?))?;
    }
    Ok(())
}

fn push_keys(
    alloc: Global,
    columns: &[Column],
    indexes: &[Index],
    list: &mut DefinitionList,
) -> Result<(), AllocError>
    ensures { OnOk result (list.new ≡ list.old ++ map (λ i. of.Key (key_definition columns.now i)) indexes.now) }
{
    for index in indexes {
        list.push(CreateDefinition::Key(key_definition(alloc, columns, index)?))?;
    }
    Ok(())
}

/// The statement that declares a schema.
#[tactic(auto, unfolding(crate::specs::Writing::statement_of))]
fn statement_of(alloc: Global, schema: &Schema) -> Result<CreateTable, AllocError>
    ensures { IfOk result (λ create. create ≡ statement_of schema.now) }
{
    let columns = schema.columns.as_slice();
    let mut definitions = DefinitionList::new(alloc);
    push_columns(alloc, columns, &mut definitions)?;
    push_keys(alloc, columns, schema.indexes.as_slice(), &mut definitions)?;
    Ok(CreateTable {
        table: Bytes::of(alloc, schema.table.as_slice())?,
        definitions,
        options: OptionList::new(alloc),
    })
}

/// The canonical text of a schema: a CREATE TABLE statement with a line for each column and each index in order,
/// and without options. `read_schema` reads it back to the same schema, wherever it gave it for any text
/// (`reads_what_is_written`).
///
/// The error is want of memory.
#[tactic(auto, unfolding(crate::specs::Writing::text_of))]
pub fn write_schema(alloc: Global, schema: &Schema) -> Result<Bytes, AllocError>
    ensures { IfOk result (λ text. text ≡ text_of schema.now) }
{
    let create = statement_of(alloc, schema)?;
    write_create(alloc, &create)
}

/// What is read from a text is read again, to the same schema, from the text that is written of it; and so is any
/// schema of the kind that is read.
#[tactic(auto, using(crate::proofs::Restoring::law, crate::proofs::Restoring::read_again))]
pub fn reads_what_is_written()
    ensures again { (text : List ℕ) (s : schema) → read_of text ≡ Ok s → read_of (text_of s) ≡ Ok s }
    ensures given { (s : schema) → IsDeclarable s → read_of (text_of s) ≡ Ok s }
{}
