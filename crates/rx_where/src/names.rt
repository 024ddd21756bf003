ghost use Rattle.std.specs.Prelude.{◌≡◌, ◌<◌, ◌≤◌, length, map, IfSome, [], ◌∷◌};
ghost use Rattle.std.specs.Option.{option_map};
ghost use Rattle.rx_where.specs.Names.{names_of, names_of_all, operand_names, place_of, first_unknown, is_unknown};
ghost use Rattle.rx_value.specs.Limits.{most_columns};
ghost use Rattle.rx_where.specs.Raw.{raw_tree_of, raw_trees};
ghost use Rattle.rx_where.specs.Resolution.{number};

use crate::raw::{RawCond, RawOperand};
use rx_value::{Bytes, Column, same_name};

/// The place of the first column of a name.
fn place_of(columns: &[Column], name: &[u8]) -> Option<usize>
    ensures value { result ≡ place_of columns.now name.now }
    ensures within { IfSome result (λ n. n < length columns.now) }
{
    columns
        .iter()
        .position(|c| same_name(name, c.name.as_slice()))
}

/// The number of the first column of a name, 0 where there is none.
pub fn number(columns: &[Column], name: &[u8]) -> u32
    requires { length columns.now ≤ most_columns }
    ensures { result ≡ number columns.now name.now }
{
    match place_of(columns, name) {
        None => 0,
        Some(place) => place as u32,
    }
}

/// The name, where it is no column.
pub fn if_unknown<'a>(columns: &[Column], name: &'a Bytes) -> Option<&'a [u8]>
    ensures { option_map (λ x. x.now) result ≡ first_unknown columns.now (name.now ∷ []) }
{
    match place_of(columns, name.as_slice()) {
        None => Some(name.as_slice()),
        Some(_) => None,
    }
}

fn unknown_operand<'a>(columns: &[Column], operand: &'a RawOperand) -> Option<&'a [u8]>
    ensures { option_map (λ x. x.now) result ≡ first_unknown columns.now (operand_names operand.now) }
{
    match operand {
        RawOperand::Column(name) => if_unknown(columns, name),
        RawOperand::Constant(_) => None,
    }
}

/// The first of these names that is no column.
pub fn first_unknown<'a>(columns: &[Column], names: &'a [Bytes]) -> Option<&'a [u8]>
    ensures { option_map (λ x. x.now) result ≡ first_unknown columns.now names.now }
{
    for name in names {
        if place_of(columns, name.as_slice()).is_none() {
            return Some(name.as_slice());
        }
    }
    None
}

/// The first name of a condition, in the order of its text, that is no column.
#[cycle(unknown)]
#[tactic(auto, using(crate::proofs::Lists::unknown_of_both))]
pub fn unknown_name<'a>(columns: &[Column], raw: &'a RawCond) -> Option<&'a [u8]>
    ensures { option_map (λ x. x.now) result ≡ first_unknown columns.now (names_of (raw_tree_of raw.now)) }
{
    match raw {
        RawCond::Truth(_) => None,
        RawCond::Compare { op: _, left, right } => {
            unknown_operand(columns, left).or(unknown_operand(columns, right))
        }
        RawCond::Member { left, list: _ } => unknown_operand(columns, left),
        RawCond::RowMember {
            columns: names,
            list: _,
        } => first_unknown(columns, names.as_slice()),
        RawCond::IsNull(operand) => unknown_operand(columns, operand),
        RawCond::Like { column, pattern: _ } => if_unknown(columns, column),
        RawCond::Neg(inner) => unknown_name(columns, inner),
        RawCond::Conj(items) => unknown_name_of_all(columns, items),
        RawCond::Disj(items) => unknown_name_of_all(columns, items),
    }
}

#[cycle(unknown)]
fn unknown_name_of_all<'a>(columns: &[Column], items: &'a [RawCond]) -> Option<&'a [u8]>
    ensures { option_map (λ x. x.now) result ≡ first_unknown columns.now (names_of_all (raw_trees (map raw_tree_of items.now))) }
{
    for item in items {
        match unknown_name(columns, item) {
            Some(name) => return Some(name),
            None => {}
        }
    }
    None
}
