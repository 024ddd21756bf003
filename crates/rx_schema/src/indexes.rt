ghost use Rattle.std.specs.Prelude.{◌≡◌, ◌≤◌, ◌<◌, ◌++◌, length, map, filter, position, slice_get, IfOk, IfSome, OnOk};
ghost use Rattle.rx_value.specs.Limits.{most_columns};
ghost use Rattle.rx_value.specs.Names.{same_name};
ghost use Rattle.rx_schema.specs.Given.{keys_in};
ghost use Rattle.rx_schema.specs.Columns.{declared_columns};
ghost use Rattle.rx_schema.specs.Tables.{names_of};
ghost use Rattle.rx_schema.specs.Indexes.{is_unique_kind, column_number, kept_prefix, declared_part, declared_index, is_of, declared_indexes};

use crate::limits::is_primary;
use crate::names::index_name;
use rx_ddl::{CreateDefinition, KeyDefinition, KeyKind, KeyPart};
use rx_value::{Bytes, ColType, Column, Index, IndexList, Part, PartList, same_name};
use std::alloc::{AllocError, Global};

fn is_unique_kind(kind: KeyKind) -> bool
    ensures { result ≡ is_unique_kind kind }
{
    matches!(kind, KeyKind::Primary | KeyKind::Unique)
}

fn place_of(names: &[Bytes], name: &[u8]) -> Option<usize>
    ensures value { result ≡ position (λ other. same_name name.now other) names.now }
    ensures within { IfSome result (λ n. n < length names.now) }
{
    names
        .iter()
        .position(|other| same_name(name, other.as_slice()))
}

/// The number of the first column of a name, 0 where there is none.
fn column_number(names: &[Bytes], name: &[u8]) -> u32
    requires { length names.now ≤ most_columns }
    ensures { result ≡ column_number names.now name.now }
{
    match place_of(names, name) {
        None => 0,
        Some(place) => place as u32,
    }
}

/// The prefix length of a part on a column, none where it is as long as the column's texts may be.
fn kept_prefix(columns: &[Column], number: u32, prefix: Option<u128>) -> Option<u32>
    ensures { result ≡ kept_prefix (slice_get columns.now number) prefix }
{
    let count = prefix?;
    let column = columns.get(number as usize)?;
    match column.kind {
        ColType::VarChar { chars } if count < chars as u128 => Some(count as u32),
        _ => None,
    }
}

fn declared_part(names: &[Bytes], columns: &[Column], part: &KeyPart) -> Part
    requires few { length names.now ≤ most_columns }
    requires named { names.now ≡ names_of columns.now }
    ensures { result ≡ declared_part columns.now part.now }
{
    let number = column_number(names, part.column.as_slice());
    Part {
        column: number,
        descending: part.descending,
        chars: kept_prefix(columns, number, part.prefix),
    }
}

fn declared_parts(
    alloc: Global,
    names: &[Bytes],
    columns: &[Column],
    parts: &[KeyPart],
) -> Result<PartList, AllocError>
    requires few { length names.now ≤ most_columns }
    requires named { names.now ≡ names_of columns.now }
    ensures { IfOk result (λ list. list ≡ map (declared_part columns.now) parts.now) }
{
    let mut list = PartList::new(alloc);
    for part in parts {
        list.push(declared_part(names, columns, part))?;
    }
    Ok(list)
}

#[tactic(auto, unfolding(crate::specs::Indexes::declared_index))]
fn declared_index(
    alloc: Global,
    names: &[Bytes],
    columns: &[Column],
    key: &KeyDefinition,
) -> Result<Index, AllocError>
    requires few { length names.now ≤ most_columns }
    requires named { names.now ≡ names_of columns.now }
    ensures { IfOk result (λ index. index ≡ declared_index columns.now key.now) }
{
    Ok(Index {
        name: Bytes::of(alloc, index_name(key))?,
        primary: is_primary(key),
        unique: is_unique_kind(key.kind),
        parts: declared_parts(alloc, names, columns, key.parts.as_slice())?,
    })
}

/// Adds the indexes of the primary keys, or those of the others, in text order.
fn push_indexes(
    alloc: Global,
    names: &[Bytes],
    columns: &[Column],
    items: &[CreateDefinition],
    primary: bool,
    indexes: &mut IndexList,
) -> Result<(), AllocError>
    requires few { length names.now ≤ most_columns }
    requires named { names.now ≡ names_of columns.now }
    ensures { OnOk result (indexes.new ≡ indexes.old ++ map (declared_index columns.now) (filter (is_of primary) (keys_in items.now))) }
{
    for item in items {
        match item {
            CreateDefinition::Key(key) if is_primary(key) == primary => {
                indexes.push(declared_index(alloc, names, columns, key)?)?;
            }
            _ => {}
        }
    }
    Ok(())
}

/// The indexes by number, by the columns and their names: the primary key, and then the other keys in text order.
pub(crate) fn declared_indexes(
    alloc: Global,
    names: &[Bytes],
    columns: &[Column],
    items: &[CreateDefinition],
) -> Result<IndexList, AllocError>
    requires few { length names.now ≤ most_columns }
    requires named { names.now ≡ names_of columns.now }
    requires columns { columns.now ≡ declared_columns items.now }
    ensures { IfOk result (λ indexes. indexes ≡ declared_indexes items.now) }
{
    let mut indexes = IndexList::new(alloc);
    push_indexes(alloc, names, columns, items, true, &mut indexes)?;
    push_indexes(alloc, names, columns, items, false, &mut indexes)?;
    Ok(indexes)
}
