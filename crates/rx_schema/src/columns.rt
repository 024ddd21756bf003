ghost use Rattle.std.specs.Prelude.{◌≡◌, ◌&&◌, IfOk};
ghost use Rattle.std.specs.List.{list_any};
ghost use Rattle.rx_schema.specs.Given.{keys_in};
ghost use Rattle.rx_schema.specs.Limits.{is_primary};
ghost use Rattle.rx_schema.specs.Names.{is_among, part_names};
ghost use Rattle.rx_schema.specs.Profile.{type_word};
ghost use Rattle.rx_schema.specs.Columns.{own_null, may_be_null, is_in_primary, typed, declared_column, declared_columns};

use crate::limits::is_primary;
use crate::names::has_part;
use crate::profile::has_unsigned;
use crate::types::{TypeWord, characters, type_word};
use rx_ddl::{Attribute, ColumnDefinition, CreateDefinition, KeyDefinition};
use rx_value::{Bytes, ColType, Column, ColumnList};
use std::alloc::{AllocError, Global};

fn own_null(attribute: &Attribute) -> Option<bool>
    ensures { result ≡ own_null attribute.now }
{
    match attribute {
        Attribute::Null => Some(true),
        Attribute::NotNull => Some(false),
        _ => None,
    }
}

/// Whether a column may be NULL: the last of NULL and NOT NULL counts.
fn may_be_null(attributes: &[Attribute]) -> bool
    ensures { result ≡ may_be_null attributes.now }
{
    let mut last = None;
    for attribute in attributes {
        last = own_null(attribute).or(last);
    }
    last.unwrap_or(true)
}

fn is_primary_with(key: &KeyDefinition, name: &[u8]) -> bool
    ensures { result ≡ (is_primary key.now && is_among (part_names key.now) name.now) }
{
    is_primary(key) && has_part(key.parts.as_slice(), name)
}

/// Whether a column of this name is one of the primary key.
fn is_in_primary(items: &[CreateDefinition], name: &[u8]) -> bool
    ensures { result ≡ is_in_primary items.now name.now }
{
    for item in items {
        if let CreateDefinition::Key(key) = item {
            if is_primary_with(key, name) {
                return true;
            }
        }
    }
    false
}

fn column_type(column: &ColumnDefinition) -> ColType
    ensures { result ≡ typed (type_word column.now.kind) column.now }
{
    match type_word(column.kind.as_slice()) {
        TypeWord::Whole { bits } => ColType::Whole {
            bits,
            signed: !has_unsigned(column.attributes.as_slice()),
        },
        TypeWord::VarChar => ColType::VarChar {
            chars: characters(column.arguments.as_slice()).unwrap_or(0),
        },
        TypeWord::Other => ColType::VarChar { chars: 0 },
    }
}

#[tactic(auto, unfolding(crate::specs::Columns::declared_column))]
fn declared_column(
    alloc: Global,
    items: &[CreateDefinition],
    column: &ColumnDefinition,
) -> Result<Column, AllocError>
    ensures { IfOk result (λ c. c ≡ declared_column items.now column.now) }
{
    let name = column.name.as_slice();
    let nullable = may_be_null(column.attributes.as_slice()) && !is_in_primary(items, name);
    Ok(Column {
        name: Bytes::of(alloc, name)?,
        kind: column_type(column),
        nullable,
    })
}

/// The columns in text order. Those of the primary key can't be NULL.
pub(crate) fn declared_columns(
    alloc: Global,
    items: &[CreateDefinition],
) -> Result<ColumnList, AllocError>
    ensures { IfOk result (λ columns. columns ≡ declared_columns items.now) }
{
    let mut columns = ColumnList::new(alloc);
    for item in items {
        match item {
            CreateDefinition::Column(column) => {
                columns.push(declared_column(alloc, items, column)?)?;
            }
            CreateDefinition::Key(_) => {}
        }
    }
    Ok(columns)
}
