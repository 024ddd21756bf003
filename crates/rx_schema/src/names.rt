ghost use Rattle.std.specs.Prelude.{◌≡◌, IfOk, map, find};
ghost use Rattle.std.specs.Option.{option_map};
ghost use Rattle.rx_schema.specs.Given.{first_given, keys_in};
ghost use Rattle.rx_schema.specs.Names.{column_names, part_names, index_name, index_names, is_among, first_repeated, first_duplicate, is_missing, first_unknown};

use crate::limits::is_primary;
use rx_ddl::{CreateDefinition, KeyDefinition, KeyPart};
use rx_value::{Bytes, NameList, same_name};
use std::alloc::{AllocError, Global};

/// The names of the columns in text order.
pub(crate) fn column_names(
    alloc: Global,
    items: &[CreateDefinition],
) -> Result<NameList, AllocError>
    ensures { IfOk result (λ names. names ≡ column_names items.now) }
{
    let mut names = NameList::new(alloc);
    for item in items {
        match item {
            CreateDefinition::Column(column) => {
                names.push(Bytes::of(alloc, column.name.as_slice())?)?;
            }
            CreateDefinition::Key(_) => {}
        }
    }
    Ok(names)
}

/// The name of a key's index.
#[tactic(auto, unfolding(crate::specs::Names::index_name))]
pub(crate) fn index_name(key: &KeyDefinition) -> &[u8]
    ensures { result.now ≡ index_name key.now }
{
    if is_primary(key) || same_name(key.name.as_slice(), b"PRIMARY") {
        b"PRIMARY"
    } else {
        key.name.as_slice()
    }
}

/// The names of the indexes: the primary key's, whether or not there is one, and those of all keys but the first
/// primary one.
pub(crate) fn index_names(alloc: Global, items: &[CreateDefinition]) -> Result<NameList, AllocError>
    ensures { IfOk result (λ names. names ≡ index_names items.now) }
{
    let mut names = NameList::new(alloc);
    names.push(Bytes::of(alloc, b"PRIMARY")?)?;
    let mut has_primary = false;
    for item in items {
        match item {
            CreateDefinition::Key(key) if has_primary || !is_primary(key) => {
                names.push(Bytes::of(alloc, index_name(key))?)?;
            }
            CreateDefinition::Key(_) => has_primary = true,
            CreateDefinition::Column(_) => {}
        }
    }
    Ok(names)
}

fn is_among(names: &[Bytes], name: &[u8]) -> bool
    ensures { result ≡ is_among names.now name.now }
{
    names.iter().any(|other| same_name(name, other.as_slice()))
}

// The limits of columns, indexes and parts are tested before, so this looks at few pairs of names: at 256 columns, at
// 16 parts, and at 65 indexes before a second primary key ends it.
fn first_repeated(names: &[Bytes]) -> Option<&[u8]>
    ensures { option_map (λ x. x.now) result ≡ first_repeated names.now }
{
    for (i, name) in names.iter().enumerate() {
        let (before, _) = names.split_at(i);
        if is_among(before, name.as_slice()) {
            return Some(name.as_slice());
        }
    }
    None
}

/// Whether a key with these parts names a column.
pub(crate) fn has_part(parts: &[KeyPart], name: &[u8]) -> bool
    ensures { result ≡ is_among (map (λ p. p.column) parts.now) name.now }
{
    for part in parts {
        if same_name(name, part.column.as_slice()) {
            return true;
        }
    }
    false
}

fn first_repeated_part(parts: &[KeyPart]) -> Option<&[u8]>
    ensures { option_map (λ x. x.now) result ≡ first_repeated (map (λ p. p.column) parts.now) }
{
    for (i, part) in parts.iter().enumerate() {
        let (before, _) = parts.split_at(i);
        if has_part(before, part.column.as_slice()) {
            return Some(part.column.as_slice());
        }
    }
    None
}

fn first_repeated_in_keys(items: &[CreateDefinition]) -> Option<&[u8]>
    ensures { option_map (λ x. x.now) result ≡ first_given (λ key. first_repeated (part_names key)) (keys_in items.now) }
{
    for item in items {
        if let CreateDefinition::Key(key) = item {
            if let Some(name) = first_repeated_part(key.parts.as_slice()) {
                return Some(name);
            }
        }
    }
    None
}

/// The first name that an earlier one equals, by the names of the columns and those of the indexes: among the columns,
/// else among the indexes, else within one key.
#[tactic(auto, unfolding(crate::specs::Names::first_duplicate))]
pub(crate) fn first_duplicate<'a>(
    columns: &'a [Bytes],
    indexes: &'a [Bytes],
    items: &'a [CreateDefinition],
) -> Option<&'a [u8]>
    requires columns { columns.now ≡ column_names items.now }
    requires indexes { indexes.now ≡ index_names items.now }
    ensures { option_map (λ x. x.now) result ≡ first_duplicate items.now }
{
    if let Some(name) = first_repeated(columns) {
        return Some(name);
    }
    if let Some(name) = first_repeated(indexes) {
        return Some(name);
    }
    first_repeated_in_keys(items)
}

fn first_missing<'a>(columns: &[Bytes], parts: &'a [KeyPart]) -> Option<&'a [u8]>
    ensures { option_map (λ x. x.now) result ≡ find (is_missing columns.now) (map (λ p. p.column) parts.now) }
{
    for part in parts {
        if !is_among(columns, part.column.as_slice()) {
            return Some(part.column.as_slice());
        }
    }
    None
}

/// The first column of a key that is none of the columns.
#[tactic(auto, unfolding(crate::specs::Names::first_unknown))]
pub(crate) fn first_unknown<'a>(
    columns: &[Bytes],
    items: &'a [CreateDefinition],
) -> Option<&'a [u8]>
    requires { columns.now ≡ column_names items.now }
    ensures { option_map (λ x. x.now) result ≡ first_unknown items.now }
{
    for item in items {
        if let CreateDefinition::Key(key) = item {
            if let Some(name) = first_missing(columns, key.parts.as_slice()) {
                return Some(name);
            }
        }
    }
    None
}
