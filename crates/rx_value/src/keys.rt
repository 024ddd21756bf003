ghost use Rattle.std.specs.Prelude.{◌≡◌, ◌↔◌, ◌≤◌, IsTrue, length, take};
ghost use Rattle.std.specs.Fmt.{take_chars, is_char_start};
ghost use Rattle.rx_value.specs.Order.{value_cmp};
ghost use Rattle.rx_value.specs.Parts.{borrowed};
ghost use Rattle.rx_value.specs.Keys.{cut_value, part_value, part_cmp, is_before_cut};

use crate::list::Row;
use crate::order::{End, Side};
use crate::shapes::Part;
use crate::values::Value;
use std::cmp::Ordering;

/// A value that is borrowed, and of which a text may be its first characters alone: what a row has on a part of an
/// index (MySQL manual, "Column Prefix Key Parts").
#[derive(Clone, Copy)]
pub enum PartValue<'a> {
    Null,
    Int(i128),
    Text(&'a [u8]),
}

fn starts_character(byte: u8) -> bool
    ensures { result ≡ is_char_start byte }
{
    byte & 0xc0 != 0x80
}

// How many bytes the first characters of a text take, or all where there are fewer.
fn end_of_characters(text: &[u8], count: usize) -> usize
    ensures within { result ≤ length text.now }
    ensures value { take result text.now ≡ take_chars count text.now }
{
    let mut left = count;
    for place in 0..text.len() {
        if starts_character(text[place]) {
            if left == 0 {
                return place;
            }
            left -= 1;
        }
    }
    text.len()
}

// The first characters of a text, or all where there are fewer.
fn first_characters(text: &[u8], count: usize) -> &[u8]
    ensures { result.now ≡ take_chars count text.now }
{
    &text[..end_of_characters(text, count)]
}

impl Value {
    /// The value as a part has it: a text is cut to so many characters, where there is a number.
    pub fn cut(&self, chars: Option<u32>) -> PartValue<'_>
        ensures { borrowed result ≡ cut_value chars self.now }
    {
        match (self, chars) {
            (Value::Null, _) => PartValue::Null,
            (Value::Int(n), _) => PartValue::Int(*n),
            (Value::Text(text), None) => PartValue::Text(text.as_slice()),
            (Value::Text(text), Some(count)) => PartValue::Text(first_characters(
                text.as_slice(),
                count as usize,
            )),
        }
    }
}

impl Part {
    /// What a row has on this part of an index: the value of its column, cut to the prefix length where the part has
    /// one, and NULL where the row has no such column.
    pub fn value<'a>(&self, row: &'a Row) -> PartValue<'a>
        ensures { borrowed result ≡ part_value self.now row.now }
    {
        match row.as_slice().get(self.column as usize) {
            Some(value) => value.cut(self.chars),
            None => PartValue::Null,
        }
    }
}

fn compare_borrowed(a: PartValue<'_>, b: PartValue<'_>) -> Ordering
    ensures { result ≡ value_cmp (borrowed a.entry) (borrowed b.entry) }
{
    match (a, b) {
        (PartValue::Null, PartValue::Null) => Ordering::Equal,
        (PartValue::Null, _) => Ordering::Less,
        (_, PartValue::Null) => Ordering::Greater,
        (PartValue::Int(m), PartValue::Int(n)) => m.cmp(&n),
        (PartValue::Int(_), PartValue::Text(_)) => Ordering::Less,
        (PartValue::Text(_), PartValue::Int(_)) => Ordering::Greater,
        (PartValue::Text(s), PartValue::Text(t)) => s.cmp(t),
    }
}

impl<'a> PartValue<'a> {
    /// The order of two values of one part: on a falling part the greater value comes first, and NULL last
    /// (MySQL manual, "Descending Indexes"). Takes no memory.
    pub fn compare(self, other: PartValue<'_>, falling: bool) -> Ordering
        ensures { result ≡ part_cmp falling (borrowed self.entry) (borrowed other.entry) }
    {
        if falling {
            compare_borrowed(other, self)
        } else {
            compare_borrowed(self, other)
        }
    }

    /// Whether the value stands before a cut of its part: below it, and on a falling part above it. Takes no memory.
    pub fn is_before(self, end: &End, falling: bool) -> bool
        ensures { result ≡ is_before_cut falling (borrowed self.entry) end.now }
    {
        match end {
            End::Last => !falling,
            End::Cut { at, side } => match self.compare(at.cut(None), falling) {
                Ordering::Less => true,
                Ordering::Equal => match side {
                    Side::Above => !falling,
                    Side::Below => falling,
                },
                Ordering::Greater => false,
            },
        }
    }
}

/// The order of two values of one part: on a falling part the greater value comes first, and NULL last (MySQL manual,
/// "Descending Indexes"). Takes no memory.
pub fn compare_part(a: &Value, b: &Value, falling: bool) -> Ordering
    ensures { result ≡ part_cmp falling a.now b.now }
{
    a.cut(None).compare(b.cut(None), falling)
}
