ghost use Rattle.std.specs.Prelude.{◌≡◌, ◌+◌, ◌≤◌, length, filter};
ghost use Rattle.std.specs.List.{list_any};
ghost use Rattle.rx_schema.specs.Given.{columns_in, keys_in};
ghost use Rattle.rx_schema.specs.Limits.{is_primary_kind, is_primary, is_secondary, has_many_parts, too_many};

use crate::faults::Many;
use rx_ddl::{CreateDefinition, KeyDefinition, KeyKind};
use rx_value::{MOST_COLUMNS, MOST_INDEXES, MOST_PARTS};

fn is_primary_kind(kind: KeyKind) -> bool
    ensures { result ≡ is_primary_kind kind }
{
    matches!(kind, KeyKind::Primary)
}

pub(crate) fn is_primary(key: &KeyDefinition) -> bool
    ensures { result ≡ is_primary key.now }
{
    is_primary_kind(key.kind)
}

fn count_columns(items: &[CreateDefinition]) -> usize
    ensures value { result ≡ length (columns_in items.now) }
{
    let mut count = 0;
    for item in items {
        if let CreateDefinition::Column(_) = item {
            count += 1;
        }
    }
    count
}

fn count_secondary(items: &[CreateDefinition]) -> usize
    ensures { result ≡ length (filter is_secondary (keys_in items.now)) }
{
    let mut count = 0;
    for item in items {
        if let CreateDefinition::Key(key) = item
            && !is_primary(key)
        {
            count += 1;
        }
    }
    count
}

fn has_many_parts(key: &KeyDefinition) -> bool
    ensures { result ≡ has_many_parts key.now }
{
    key.parts.as_slice().len() > MOST_PARTS
}

fn any_has_many_parts(items: &[CreateDefinition]) -> bool
    ensures { result ≡ list_any has_many_parts (keys_in items.now) }
{
    for item in items {
        if let CreateDefinition::Key(key) = item
            && has_many_parts(key)
        {
            return true;
        }
    }
    false
}

/// The first limit that is passed: 256 columns, then 64 keys besides the primary one, then 16 parts of a key.
#[tactic(auto, unfolding(crate::specs::Limits::too_many))]
pub(crate) fn too_many(items: &[CreateDefinition]) -> Option<Many>
    ensures { result ≡ too_many items.now }
{
    if count_columns(items) > MOST_COLUMNS {
        Some(Many::Columns)
    } else if count_secondary(items) > MOST_INDEXES {
        Some(Many::Indexes)
    } else if any_has_many_parts(items) {
        Some(Many::Parts)
    } else {
        None
    }
}
