ghost use Rattle.std.specs.Prelude.{◌≡◌, IfOk, string_bytes};
ghost use Rattle.rx_trace.specs.Names.{name_of_kind, name_of_role, name_of_reason, index_name, name_at};

use rx_cost::{Kind, Reason, Role};
use rx_value::{Index, Schema};
use std::alloc::{AllocError, Global};

/// How a candidate reads the rows.
pub(crate) fn kind_name(kind: Kind) -> &'static str
    ensures { result.now ≡ name_of_kind kind }
{
    match kind {
        Kind::Table => "table_scan",
        Kind::Index => "index_scan",
        Kind::Group => "group_scan",
        Kind::SkipScan => "skip_scan",
        Kind::Range => "range_scan",
        Kind::Intersect => "intersect",
        Kind::Union => "union",
        Kind::SortUnion => "sort_union",
    }
}

/// What a scan is for.
pub(crate) fn role_name(role: Role) -> &'static str
    ensures { result.now ≡ name_of_role role }
{
    match role {
        Role::Whole => "whole",
        Role::Group => "group",
        Role::Constant => "constant",
        Role::Prefix => "prefix",
        Role::Skip => "skip",
        Role::Scan => "scan",
        Role::Filter => "filter",
    }
}

/// What the condition says of an index.
pub(crate) fn reason_name(reason: Reason) -> &'static str
    ensures { result.now ≡ name_of_reason reason }
{
    match reason {
        Reason::Ranges => "ranges",
        Reason::Whole => "whole",
        Reason::NoParts => "no_parts",
        Reason::Hint => "hint",
    }
}

/// The name of an index. The error is want of memory.
pub(crate) fn index_name(alloc: Global, index: &Index) -> Result<String, AllocError>
    ensures { IfOk result (λ name. string_bytes name ≡ index_name index.now) }
{
    String::from_utf8_lossy(alloc, index.name.as_slice())
}

/// The name of an index by its number, empty where it isn't there. The error is want of memory.
pub(crate) fn name_at(alloc: Global, schema: &Schema, n: u32) -> Result<String, AllocError>
    ensures { IfOk result (λ name. string_bytes name ≡ name_at schema.now n) }
{
    match schema.indexes.as_slice().get(n as usize) {
        Some(index) => index_name(alloc, index),
        None => Ok(String::new(alloc)),
    }
}
