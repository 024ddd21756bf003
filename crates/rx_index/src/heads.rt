ghost use Rattle.std.specs.Prelude.{◌≡◌, ◌+◌, ◌<◌, ◌≤◌, ◌^◌, true, length, IfSome};
ghost use Rattle.rx_value.specs.Parts.{borrowed};
ghost use Rattle.rx_index.specs.Heads.{HasRoom, HasSpace, IsFront, IsShort, IsWhole, IsShaped, IsDigit, IsHead, count_of, sizes};

use rx_value::{Part, PartValue, Row};

/// So many bytes of a text have a number, to the base of 256 and to that of 257.
pub(crate) const MOST_BYTES: u32 = 15;

/// How the values of a part are numbered, in their order from 0 on: NULL first, then so many integers from the least one
/// on, or texts of at most so many bytes, or texts by their first bytes.
#[derive(Clone, Copy)]
pub(crate) enum Shape {
    Whole { least: i128, count: u128 },
    Short { bytes: u32, count: u128 },
    Front { bytes: u32, count: u128 },
}

/// A part of an index whose values are numbered.
#[derive(Clone, Copy)]
pub(crate) struct Field {
    pub part: Part,
    pub shape: Shape,
}

// The number of a text's first bytes behind those of a number.
#[tactic(auto, using(crate::proofs::Fronts::front_past, crate::proofs::Fronts::front_on))]
fn front(before: u128, bytes: u32, text: &[u8]) -> u128
    requires room { HasRoom 256 before bytes }
    ensures { IsFront before bytes text.now result }
{
    let Some(bytes) = bytes.checked_sub(1) else {
        return before;
    };
    match text.split_first() {
        None => front(before * 256, bytes, text),
        Some((byte, rest)) => front(before * 256 + u128::from(*byte), bytes, rest),
    }
}

// The number of a text of at most so many bytes behind those of a number.
#[tactic(auto, using(crate::proofs::Fronts::short_past, crate::proofs::Fronts::short_on, crate::proofs::Fronts::short_end))]
fn short(before: u128, bytes: u32, text: &[u8]) -> u128
    requires room { HasRoom 257 before bytes }
    requires fits { length text.now ≤ bytes }
    ensures { IsShort before bytes text.now result }
{
    let Some(bytes) = bytes.checked_sub(1) else {
        return before;
    };
    match text.split_first() {
        None => short(before * 257, bytes, text),
        Some((byte, rest)) => short(before * 257 + (u128::from(*byte) + 1), bytes, rest),
    }
}

// The number of a text's first bytes, none where it may be too large.
fn front_place(bytes: u32, text: &[u8]) -> Option<u128>
    ensures { IfSome result (λ n. IsFront 0 bytes text.now n) }
{
    if bytes > MOST_BYTES {
        return None;
    }
    Some(front(0, bytes, text))
}

// The number of a text of at most so many bytes, none where it has more, or where the number may be too large.
fn short_place(bytes: u32, text: &[u8]) -> Option<u128>
    ensures { IfSome result (λ n. IsShort 0 bytes text.now n) }
{
    if bytes > MOST_BYTES || text.len() > bytes as usize {
        return None;
    }
    Some(short(0, bytes, text))
}

// The number of an integer among those from the least one on.
fn place_of(least: i128, count: u128, n: i128) -> Option<u128>
    ensures { IfSome result (λ c. IsWhole least count n c) }
{
    let place = u128::try_from(n.checked_sub(least)?).ok()?;
    if place < count {
        place.checked_add(1)
    } else {
        None
    }
}

// The number of a value that isn't NULL, by its place among so many.
fn behind_null(place: u128, count: u128) -> Option<u128>
    ensures { IfSome result (λ c. (place < count) × (c ≡ place + 1)) }
{
    if place < count {
        place.checked_add(1)
    } else {
        None
    }
}

// The number of a value by its shape, none where it has none.
fn shaped(shape: Shape, value: PartValue<'_>) -> Option<u128>
    ensures { IfSome result (λ c. IsShaped shape (borrowed value.entry) c) }
{
    match (shape, value) {
        (_, PartValue::Null) => Some(0),
        (Shape::Whole { least, count }, PartValue::Int(n)) => place_of(least, count, n),
        (Shape::Short { bytes, count }, PartValue::Text(text)) => behind_null(
            short_place(bytes, text)?,
            count,
        ),
        (Shape::Front { bytes, count }, PartValue::Text(text)) => behind_null(
            front_place(bytes, text)?,
            count,
        ),
        _ => None,
    }
}

// How many values a shape numbers besides NULL.
fn count_of(shape: Shape) -> u128
    ensures { result ≡ count_of shape }
{
    match shape {
        Shape::Whole { least: _, count } => count,
        Shape::Short { bytes: _, count } | Shape::Front { bytes: _, count } => count,
    }
}

// The number of what a row has on a part, from the greatest down where the part falls.
fn digit(field: &Field, row: &Row) -> Option<u128>
    ensures { IfSome result (λ d. IsDigit field.now row.now d) }
{
    let number = shaped(field.shape, field.part.value(row))?;
    if field.part.descending {
        count_of(field.shape).checked_sub(number)
    } else {
        Some(number)
    }
}

// How many numbers the first parts of keys have, none where they are too many.
fn sizes(fields: &[Field]) -> Option<u128>
    ensures { IfSome result (λ n. n ≡ sizes fields.now) }
{
    match fields {
        [] => Some(1),
        [field, fields @ ..] => {
            let size = count_of(field.shape).checked_add(1)?;
            size.checked_mul(sizes(fields)?)
        }
    }
}

/// Whether a word has room for the numbers of what rows have on these parts.
pub(crate) fn has_space(fields: &[Field]) -> bool
    ensures { result ≡ true → HasSpace 0 fields.now }
{
    sizes(fields).is_some()
}

/// Whether there are few enough numbers for a word of 96 bits.
pub(crate) fn is_brief(fields: &[Field]) -> bool
    ensures { result ≡ true → sizes fields.now ≤ 2 ^ 96 }
{
    match sizes(fields) {
        Some(size) => size <= 79_228_162_514_264_337_593_543_950_336,
        None => false,
    }
}

/// The first parts of a row's key as one number behind another, none where a value isn't numbered.
pub(crate) fn head(before: u128, fields: &[Field], row: &Row) -> Option<u128>
    requires space { HasSpace before fields.now }
    ensures { IfSome result (λ n. IsHead before fields.now row.now n) }
{
    let Some((field, fields)) = fields.split_first() else {
        return Some(before);
    };
    let number = digit(field, row)?;
    let size = count_of(field.shape) + 1;
    head(before * size + number, fields, row)
}
