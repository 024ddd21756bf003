ghost use Rattle.std.specs.Prelude.{◌≡◌, ◌++◌, true, drop, IfOk, OnOk};
ghost use Rattle.rx_index.specs.Heads.{IsFields, IsExact, AreExact};
ghost use Rattle.rx_index.specs.Placed.{AddsFields, IsWords};

use crate::bounds::parts_from;
use crate::heads::{Field, Shape};
use rx_value::{ColType, Column, Part};
use std::alloc::{AllocError, Global};

/// How texts are numbered: whole ones of very few bytes or of few, or by their first bytes.
#[derive(Clone, Copy)]
pub(crate) enum Texts {
    Brief,
    Whole,
    Front,
}

/// The fields of the two words that a key begins with, and whether keys with the same words are equal.
#[derive(Drop)]
pub(crate) struct Words {
    pub first: Vec<Field>,
    pub second: Vec<Field>,
    pub whole: bool,
}

// The integers of a type.
fn whole(bits: u32, signed: bool) -> Option<Shape> {
    let count = 2u128.checked_pow(bits)?;
    let half = i128::try_from(count / 2).ok()?;
    let least = if signed { half.checked_neg()? } else { 0 };
    Some(Shape::Whole { least, count })
}

// Texts of at most so many bytes, where there is room for them.
fn short(bytes: u32, room: u128) -> Option<Shape> {
    let count = 257u128.checked_pow(bytes)?;
    if room > count {
        Some(Shape::Short { bytes, count })
    } else {
        None
    }
}

// As many first bytes as there is room for.
fn front(room: u128) -> Option<Shape> {
    let bytes = room.checked_ilog2()?.checked_sub(1)? / 8;
    let count = 256u128.checked_pow(bytes)?;
    Some(Shape::Front { bytes, count })
}

// How the values of a column are numbered where so many numbers are left; it decides on time alone.
fn shape_of(kind: ColType, texts: Texts, room: u128) -> Option<Shape> {
    match (kind, texts) {
        (ColType::Whole { bits, signed }, _) => whole(bits, signed),
        (ColType::VarChar { chars: _ }, Texts::Brief) => short(11, room),
        (ColType::VarChar { chars: _ }, Texts::Whole) => short(15, room).or(front(room)),
        (ColType::VarChar { chars: _ }, Texts::Front) => front(room),
    }
}

// How many numbers are left for the parts behind one of so many values, none where there is no room for itself.
fn room_behind(count: u128, room: u128) -> Option<u128> {
    match room.checked_div(count.checked_add(1)?)? {
        0 => None,
        left => Some(left),
    }
}

fn count_of(shape: Shape) -> u128 {
    match shape {
        Shape::Whole { least: _, count } => count,
        Shape::Short { bytes: _, count } | Shape::Front { bytes: _, count } => count,
    }
}

fn is_exact(shape: Shape) -> bool
    ensures { result ≡ true → IsExact shape }
{
    !matches!(shape, Shape::Front { .. })
}

fn are_exact(fields: &[Field]) -> bool
    ensures { result ≡ true → AreExact fields.now }
{
    match fields {
        [] => true,
        [field, fields @ ..] => is_exact(field.shape) && are_exact(fields),
    }
}

// The first parts of an index that can be numbered, where so many numbers are left.
fn add_fields(
    parts: &[Part],
    columns: &[Column],
    texts: Texts,
    room: u128,
    into: &mut Vec<Field>,
) -> Result<(), AllocError>
    ensures { OnOk result (AddsFields parts.now into.old.items into.new.items) }
{
    let Some((part, parts)) = parts.split_first() else {
        return Ok(());
    };
    let Some(column) = columns.get(part.column as usize) else {
        return Ok(());
    };
    let Some(shape) = shape_of(column.kind, texts, room) else {
        return Ok(());
    };
    let Some(left) = room_behind(count_of(shape), room) else {
        return Ok(());
    };
    into.push(Field { part: *part, shape })?;
    match shape {
        Shape::Whole { least: _, count: _ } => add_fields(parts, columns, texts, left, into),
        Shape::Short { bytes: _, count: _ } => add_fields(parts, columns, texts, left, into),
        Shape::Front { bytes: _, count: _ } => Ok(()),
    }
}

// The first parts of an index that can be numbered in a word, by the types of their columns.
fn fields_of(
    alloc: Global,
    parts: &[Part],
    columns: &[Column],
    texts: Texts,
) -> Result<Vec<Field>, AllocError>
    ensures { IfOk result (λ fields. IsFields parts.now fields.items) }
{
    let mut fields = Vec::new(alloc);
    add_fields(parts, columns, texts, u128::MAX, &mut fields)?;
    Ok(fields)
}

/// The two words that keys on these parts begin with, by the types of their columns.
pub(crate) fn words_of(
    alloc: Global,
    parts: &[Part],
    columns: &[Column],
    texts: Texts,
) -> Result<Words, AllocError>
    ensures { IfOk result (λ w. IsWords parts.now w.first.items w.second.items w.whole) }
{
    let first = fields_of(alloc, parts, columns, texts)?;
    if !are_exact(first.as_slice()) {
        return Ok(Words {
            first,
            second: Vec::new(alloc),
            whole: false,
        });
    }
    let rest = parts_from(parts, first.len());
    let second = fields_of(alloc, rest, columns, texts)?;
    let whole = are_exact(second.as_slice()) && rest.len() <= second.len();
    Ok(Words {
        first,
        second,
        whole,
    })
}
