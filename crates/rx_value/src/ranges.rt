ghost use Rattle.std.specs.Prelude.{◌≡◌, ◌↔◌, IsTrue, option_map};
ghost use Rattle.rx_value.specs.Range.{Holds, NextIsWithin, behind};

use crate::list::{Key, List};
use crate::order::{End, Span};
use crate::values::{Value, compare};
use std::cmp::Ordering;

/// The keys that begin with some points and whose next part lies in the span, where there is one.
#[derive(Drop)]
pub struct KeyRange {
    pub points: Key,
    pub last: Option<Span>,
}

impl KeyRange {
    /// Whether the range holds the key.
    pub fn contains(&self, key: &Key) -> bool
        ensures { IsTrue result ↔ Holds self.now key.now }
    {
        let Some(rest) = behind(key.as_slice(), self.points.as_slice()) else {
            return false;
        };
        match &self.last {
            None => true,
            Some(span) => begins_within(span, rest),
        }
    }
}

// Whether there is a first value, and it lies in the span.
fn begins_within(span: &Span, values: &[Value]) -> bool
    ensures { IsTrue result ↔ NextIsWithin span.now values.now }
{
    match values {
        [] => false,
        [value, ..] => span.contains(value),
    }
}

// The values behind the points, where the values begin with these.
fn behind<'a>(values: &'a [Value], points: &[Value]) -> Option<&'a [Value]>
    ensures { option_map (λ s. s.now) result ≡ behind values.now points.now }
{
    let Some((point, points)) = points.split_first() else {
        return Some(values);
    };
    let (value, values) = values.split_first()?;
    match compare(value, point) {
        Ordering::Equal => behind(values, points),
        _ => None,
    }
}

/// Where a bound stands among the keys with its points.
#[derive(Clone, Copy)]
pub enum Rest<'a> {
    /// Before all of them.
    Start,
    /// At a cut of the next part.
    Part(&'a End),
    /// After all of them.
    Finish,
}

/// A cut among keys.
#[derive(Clone, Copy)]
pub struct Bound<'a> {
    pub points: &'a Key,
    pub rest: Rest<'a>,
}

/// A group of a loose index scan: its values in the order of the index's group parts, and the least
/// and greatest value asked for, NULL where none is.
#[derive(Drop)]
pub struct Group {
    pub key: Key,
    pub least: Value,
    pub greatest: Value,
}

/// Spans in order.
pub type SpanList = List<Span>;
/// Ranges of keys in order.
pub type RangeList = List<KeyRange>;
/// Groups in order.
pub type GroupList = List<Group>;
