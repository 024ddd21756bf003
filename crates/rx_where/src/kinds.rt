ghost use Rattle.std.specs.Prelude.{◌≡◌, map};
ghost use Rattle.std.specs.List.{list_any};
ghost use Rattle.rx_where.specs.Kinds.{type_kind, value_kind, column_kind, operand_kind, differ, list_differs, row_differs, is_whole, mismatches, any_mismatches};
ghost use Rattle.rx_where.specs.Raw.{raw_tree_of, raw_trees};

use crate::raw::{RawCond, RawOperand};
use rx_value::{Bytes, ColType, Column, Key, Value, same_name};

/// What the values of a side of a test are.
#[derive(Clone, Copy, Debug, PartialEq, Eq)]
pub enum Kind {
    Whole,
    Text,
}

fn type_kind(kind: ColType) -> Kind
    ensures { result ≡ type_kind kind }
{
    match kind {
        ColType::Whole { bits: _, signed: _ } => Kind::Whole,
        ColType::VarChar { chars: _ } => Kind::Text,
    }
}

// NULL is of no kind.
fn value_kind(value: &Value) -> Option<Kind>
    ensures { result ≡ value_kind value.now }
{
    match value {
        Value::Null => None,
        Value::Int(_) => Some(Kind::Whole),
        Value::Text(_) => Some(Kind::Text),
    }
}

/// The kind of the first column of a name.
pub fn column_kind(columns: &[Column], name: &[u8]) -> Option<Kind>
    ensures { result ≡ column_kind columns.now name.now }
{
    for column in columns {
        if same_name(name, column.name.as_slice()) {
            return Some(type_kind(column.kind));
        }
    }
    None
}

fn operand_kind(columns: &[Column], operand: &RawOperand) -> Option<Kind>
    ensures { result ≡ operand_kind columns.now operand.now }
{
    match operand {
        RawOperand::Column(name) => column_kind(columns, name.as_slice()),
        RawOperand::Constant(value) => value_kind(value),
    }
}

fn differ(left: Option<Kind>, right: Option<Kind>) -> bool
    ensures { result ≡ differ left right }
{
    match (left, right) {
        (Some(Kind::Whole), Some(Kind::Text)) => true,
        (Some(Kind::Text), Some(Kind::Whole)) => true,
        _ => false,
    }
}

fn list_differs(kind: Option<Kind>, list: &[Value]) -> bool
    ensures { result ≡ list_differs kind list.now }
{
    list.iter().any(|value| differ(kind, value_kind(value)))
}

// Whether a value of the key is of another kind than the column at its place.
fn row_differs(columns: &[Column], names: &[Bytes], key: &[Value]) -> bool
    ensures { result ≡ row_differs columns.now names.now key.now }
{
    names.iter().zip(key).any(|(name, value)| differ(
        column_kind(columns, name.as_slice()),
        value_kind(value),
    ))
}

fn any_row_differs(columns: &[Column], names: &[Bytes], list: &[Key]) -> bool
    ensures { result ≡ list_any (row_differs columns.now names.now) list.now }
{
    list.iter()
        .any(|key| row_differs(columns, names, key.as_slice()))
}

/// Whether a test of the condition has sides of two kinds, or is LIKE on a column of integers.
#[cycle(mismatches)]
pub fn mismatches(columns: &[Column], raw: &RawCond) -> bool
    ensures { result ≡ mismatches columns.now (raw_tree_of raw.now) }
{
    match raw {
        RawCond::Truth(_) => false,
        RawCond::Compare { op: _, left, right } => {
            differ(operand_kind(columns, left), operand_kind(columns, right))
        }
        RawCond::Member { left, list } => list_differs(
            operand_kind(columns, left),
            list.as_slice(),
        ),
        RawCond::RowMember {
            columns: names,
            list,
        } => any_row_differs(columns, names.as_slice(), list.as_slice()),
        RawCond::IsNull(_) => false,
        RawCond::Like { column, pattern: _ } => is_whole(column_kind(columns, column.as_slice())),
        RawCond::Neg(inner) => mismatches(columns, inner),
        RawCond::Conj(items) => any_mismatches(columns, items),
        RawCond::Disj(items) => any_mismatches(columns, items),
    }
}

fn is_whole(kind: Option<Kind>) -> bool
    ensures { result ≡ is_whole kind }
{
    match kind {
        Some(Kind::Whole) => true,
        _ => false,
    }
}

#[cycle(mismatches)]
fn any_mismatches(columns: &[Column], items: &[RawCond]) -> bool
    ensures { result ≡ any_mismatches columns.now (raw_trees (map raw_tree_of items.now)) }
{
    for item in items {
        if mismatches(columns, item) {
            return true;
        }
    }
    false
}
